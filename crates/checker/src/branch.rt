// The branches of a paper: "A branch is steps up to its 45 or its split, and a split is two
// branches." A split colours a rule, so there are at most 255 of them one inside the other. What a
// level holds is its colourings: about 5 KB, and under 1.5 MB for the deepest paper.
ghost use Rattle.std.specs.Prelude.{◌≡◌, ◌+◌};
ghost use Rattle.meaning.specs.Written.{written, pair};
ghost use Rattle.book.specs.ReadBook.{the_book};
ghost use Rattle.checker.specs.Steps.{parts, step_of};
ghost use Rattle.checker.specs.Branches.{BranchTo};
ghost use Rattle.checker.specs.Parts.{Ready, RuleWithin, walked, Ends};

use crate::answer::Rejected;
use crate::run::run_steps;
use crate::step::Stop;
use crate::trailer::Trailer;
use book::ReadBook;
use meaning::{Colouring, RuleNo, Side};

// The branch at byte `at`, which starts with the colouring c: where it ends if it is right, and the
// step that is not otherwise, with number 24 or 25.
#[cycle(branch_split)]
pub fn branch(
    book: &ReadBook,
    paper: &[u8],
    trailer: Trailer,
    at: usize,
    c: Colouring,
) -> Result<usize, Rejected>
    requires { Ready paper.now trailer.from }
    ensures { BranchTo (the_book book.now) trailer.claim
        paper.now trailer.from at (pair (written c)) (walked result)
        × Ends at trailer.from (walked result) }
{
    let ran = run_steps(book, paper, trailer, at, c);
    match ran.stop {
        Stop::End => Ok(ran.at + 1),
        Stop::Split(r) => split(book, paper, trailer, ran.at, r, ran.colours),
        Stop::Form => Err(Rejected::Form(ran.at)),
        Stop::Fails => Err(Rejected::Fails(ran.at)),
    }
}

// The split on rule r at byte `at`, with the colouring c before it: a branch with r on, then one
// with r off.
#[cycle(branch_split)]
fn split(
    book: &ReadBook,
    paper: &[u8],
    trailer: Trailer,
    at: usize,
    r: RuleNo,
    c: Colouring,
) -> Result<usize, Rejected>
    requires { Ready paper.now trailer.from
        × RuleWithin (the_book book.now) trailer.from at r
        × (step_of (the_book book.now) trailer.claim paper.now trailer.from at
        (pair (written c)) ≡ parts (at + 2) r) }
    ensures { BranchTo (the_book book.now) trailer.claim
        paper.now trailer.from at (pair (written c)) (walked result)
        × Ends at trailer.from (walked result) }
{
    let next = branch(book, paper, trailer, at + 2, c.with(Side::On, r))?;
    branch(book, paper, trailer, next, c.with(Side::Off, r))
}
