// One branch of the engine's own paper: steps up to its 45 or its split.
ghost use Rattle.std.specs.Prelude.{◌<◌};
ghost use Rattle.meaning.specs.Claim.{claimed};
ghost use Rattle.meaning.specs.Written.{written, pair};
ghost use Rattle.book.specs.ReadBook.{the_book};
ghost use Rattle.writer.specs.Branches.{branch};
ghost use Rattle.writer.specs.Draft.{Writes, Wrote, tip_bytes};

use crate::draft::{write, write_step};
use crate::list::drop_rules;
use crate::step::{Step, Tip, next_step};
use book::ReadBook;
use meaning::{
    Bits, Claim, Colouring, PAPER_BYTES, STEP_END, STEP_OFF, STEP_ON, STEP_SPLIT, STEP_UNFOUNDED,
};

// What a branch ends by, with the colouring there and the draft's length behind it.
#[derive(Clone, Copy)]
pub struct Written {
    pub colours: Colouring,
    pub length: usize,
    pub tip: Tip,
}

// The last step of a branch.
fn write_tip(draft: &mut [u8; PAPER_BYTES], at: usize, tip: Tip) -> usize
    ensures { Writes (tip_bytes tip) at draft.old result draft.new }
{
    match tip {
        Tip::Ended => write(draft, at, STEP_END),
        Tip::Parted(r) => write_step(draft, at, STEP_SPLIT, r),
        Tip::Unsettled => at,
    }
}

// Writes the branch that starts with the colouring c, step by step.
pub fn write_branch(
    book: &ReadBook,
    claim: Claim,
    c: Colouring,
    draft: &mut [u8; PAPER_BYTES],
    at: usize,
) -> Written
    requires { claimed claim < 255 }
    ensures { Wrote (branch (the_book book.now) claim (pair (written c)))
        at draft.old result draft.new }
{
    let mut colours = c;
    let mut dropped = Bits::EMPTY;
    let mut n = at;
    // Each step is found from the colours that those before it left: no range says how many there are.
    loop {
        match next_step(book, claim, &colours.on, &colours.off, &mut dropped) {
            Step::On(r) => {
                colours.on.put(r.0);
                n = write_step(draft, n, STEP_ON, r);
            }
            Step::Off(r) => {
                colours.off.put(r.0);
                n = write_step(draft, n, STEP_OFF, r);
            }
            Step::Unfounded(m) => {
                let coded = write(draft, n, STEP_UNFOUNDED);
                let counted = write(draft, coded, m);
                n = drop_rules(book.shape.rules, &dropped, &mut colours.off, draft, counted);
            }
            Step::Stops(tip) => {
                return Written {
                    colours,
                    length: write_tip(draft, n, tip),
                    tip,
                };
            }
        }
    }
}
