// Reading what is open: a file, or standard input.
ghost use Rattle.std.specs.Prelude.{MatchResult};
ghost use Rattle.system.specs.Counts.{IsPrefixLen};

use std::io::Read;

// Reads until the buffer is full or there is no more, and gives how many bytes then stand at the
// start of the buffer. A read that fails ends it: the error is how many were read before.
pub fn read_full(from: &mut impl Read, out: &mut [u8]) -> Result<usize, usize>
    ensures { MatchResult result (λ n. IsPrefixLen n out.new) (λ n. IsPrefixLen n out.new) }
{
    let mut done = 0;
    // No `for`: a turn goes on by as many bytes as came.
    while done < out.len() {
        match from.read(&mut out[done..]) {
            Ok(0) => return Ok(done),
            Ok(n) => done += n,
            Err(_) => return Err(done),
        }
    }
    Ok(done)
}
