// The branches of a paper, checked and told: they have the shape and the promise of the checker's
// own, so that what is told is what is checked. A branch with a rule on stands one level further
// in; the branch with it off follows where the split stands. One function for both would take what is
// told of a step as a parameter, in the contracts of the checker too: that is no plainer.
ghost use Rattle.std.specs.Prelude.{◌≡◌, ◌+◌};
ghost use Rattle.meaning.specs.Written.{written, pair};
ghost use Rattle.book.specs.ReadBook.{the_book};
ghost use Rattle.checker.specs.Steps.{parts, step_of};
ghost use Rattle.checker.specs.Branches.{BranchTo};
ghost use Rattle.checker.specs.Parts.{RuleWithin, walked, Ends};

use crate::lines::deeper;
use crate::paper::Paper;
use crate::steps::explain_run;
use crate::tell::tell_second;
use checker::{Rejected, Stop};
use meaning::{Colouring, RuleNo, Side};

// The branch at byte `at`, which starts with the colouring c.
#[cycle(explain_branch_explain_split)]
pub fn explain_branch(
    rt: &impl Print,
    paper: &Paper,
    depth: usize,
    at: usize,
    c: Colouring,
) -> Result<usize, Rejected>
    ensures { BranchTo (the_book paper.now.book) paper.now.trailer.claim
        paper.now.bytes.now paper.now.trailer.from at (pair (written c)) (walked result)
        × Ends at paper.now.trailer.from (walked result) }
{
    let ran = explain_run(rt, paper, depth, at, c);
    match ran.stop {
        Stop::End => Ok(ran.at + 1),
        Stop::Split(r) => explain_split(rt, paper, depth, ran.at, r, ran.colours),
        Stop::Form => Err(Rejected::Form(ran.at)),
        Stop::Fails => Err(Rejected::Fails(ran.at)),
    }
}

// The split on rule r at byte `at`, with the colouring c before it: a branch with r on, then one
// with r off.
#[cycle(explain_branch_explain_split)]
fn explain_split(
    rt: &impl Print,
    paper: &Paper,
    depth: usize,
    at: usize,
    r: RuleNo,
    c: Colouring,
) -> Result<usize, Rejected>
    requires { RuleWithin (the_book paper.now.book) paper.now.trailer.from at r
        × (step_of (the_book paper.now.book) paper.now.trailer.claim
        paper.now.bytes.now paper.now.trailer.from at (pair (written c)) ≡ parts (at + 2) r) }
    ensures { BranchTo (the_book paper.now.book) paper.now.trailer.claim
        paper.now.bytes.now paper.now.trailer.from at (pair (written c)) (walked result)
        × Ends at paper.now.trailer.from (walked result) }
{
    let next = explain_branch(rt, paper, deeper(depth), at + 2, c.with(Side::On, r))?;
    tell_second(rt, depth, at, r);
    explain_branch(rt, paper, depth, next, c.with(Side::Off, r))
}
