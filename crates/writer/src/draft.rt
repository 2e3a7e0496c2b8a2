// The draft: the bytes of a paper as it is made, in an array that is lent down. Beyond the 60,000
// bytes that a paper may have nothing is stored, and the length is counted up to 60,001 and held
// there: whatever comes behind, the paper is too long.
ghost use Rattle.std.specs.Prelude.{[], ◌∷◌, ◌<◌};
ghost use Rattle.meaning.specs.Paper.{trailer};
ghost use Rattle.writer.specs.Draft.{Writes};

use meaning::{Claim, PAPER_BYTES, RuleNo};

// One byte behind the first `at` ones; the length afterwards.
pub fn write(draft: &mut [u8; PAPER_BYTES], at: usize, byte: u8) -> usize
    ensures { Writes (byte ∷ []) at draft.old result draft.new }
{
    if at < PAPER_BYTES {
        draft[at] = byte;
        return at + 1;
    }
    60001
}

// A code and one rule.
pub fn write_step(draft: &mut [u8; PAPER_BYTES], at: usize, code: u8, r: RuleNo) -> usize
    ensures { Writes (code ∷ (r.0 ∷ [])) at draft.old result draft.new }
{
    let coded = write(draft, at, code);
    write(draft, coded, r.0)
}

// The trailer: the claimed atom or 0, the count of witness rules, where the witness starts, the mark.
pub fn write_trailer(
    draft: &mut [u8; PAPER_BYTES],
    at: usize,
    claim: Claim,
    count: u8,
    from: usize,
) -> usize
    requires { from < 65536 }
    ensures { Writes (trailer claim count from) at
        draft.old result draft.new }
{
    let mark = claim.mark();
    let claimed = write(draft, at, claim.byte());
    let counted = write(draft, claimed, count);
    let low = write(draft, counted, (from % 256) as u8);
    let high = write(draft, low, (from / 256) as u8);
    let marked = write(draft, high, mark[0]);
    write(draft, marked, mark[1])
}
