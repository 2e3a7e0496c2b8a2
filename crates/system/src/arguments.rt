// The program's arguments. Number 0 is the program's own name.
ghost use Rattle.system.specs.Counts.{IsPrefixLen};

use std::env::FillError;
use std::rt::Env;

// Whether there is an argument with this number, however long it is.
fn is_there(rt: &impl Env, i: usize) -> bool {
    let mut nothing = [0u8; 1];
    !matches!(rt.arg(i, &mut nothing), Err(FillError::NotPresent))
}

// How many arguments there are, the program's own name among them.
pub fn arg_count(rt: &impl Env) -> usize {
    for i in 0..usize::MAX {
        if !is_there(rt, i) {
            return i;
        }
    }
    usize::MAX
}

// Puts an argument at the start of out and gives its length; 0 where it is missing or longer than
// out.
pub fn arg(rt: &impl Env, i: usize, out: &mut [u8]) -> usize
    ensures { IsPrefixLen result out.new }
{
    rt.arg(i, out).unwrap_or(0)
}
