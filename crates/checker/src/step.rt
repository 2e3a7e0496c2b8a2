// One step of a paper, read and checked against the colouring as it stands. Nothing is changed.
ghost use Rattle.std.specs.Prelude.{◌≡◌, Bool, List, ◌<◌, get_or};
ghost use Rattle.meaning.specs.Paper.{code_unfounded, code_end};
ghost use Rattle.meaning.specs.Bits.{listed};
ghost use Rattle.meaning.specs.Written.{lent};
ghost use Rattle.book.specs.ReadBook.{the_book};
ghost use Rattle.checker.specs.Parts.{Ready, Finds};

use crate::condition::{is_ended, is_uncoloured, may_go_off, may_go_on};
use crate::list::{is_proper, is_unfounded};
use crate::trailer::Trailer;
use book::{ReadBook, wide};
use meaning::{Bits, RuleNo, STEP_END, STEP_OFF, STEP_ON, STEP_SPLIT, STEP_UNFOUNDED};

// A step that a branch goes on after, or what it stops by.
#[derive(Clone, Copy)]
pub enum Step {
    // 41 and 42, with their rule.
    On(RuleNo),
    Off(RuleNo),
    // 55, with the length of its list.
    Unfounded(usize),
    Stops(Stop),
}

#[derive(Clone, Copy)]
pub enum Stop {
    // 45.
    End,
    // 53, with its rule.
    Split(RuleNo),
    // Number 24: a step of unknown code, a rule not below R, a bad list, or no room before the
    // witness.
    Form,
    // Number 25: the step's condition doesn't hold.
    Fails,
}

// A step of code 41, 42 or 53, or of an unknown code.
fn check_rule_step<'a>(
    book: &ReadBook,
    paper: &[u8],
    trailer: Trailer,
    at: usize,
    on: &'a Bits,
    off: &'a Bits,
) -> Step
    requires { Ready paper.now trailer.from × (at < trailer.from)
        × (get_or paper.now at 0 ≡ code_unfounded → ⊥) × (get_or paper.now at 0 ≡ code_end → ⊥) }
    ensures { Finds (the_book book.now) trailer.claim
        paper.now trailer.from at
        (lent (listed on.now.w) (listed off.now.w)) result }
{
    if trailer.from <= at + 1 || book.shape.rules <= paper[at + 1] {
        return Step::Stops(Stop::Form);
    }
    let code = paper[at];
    let r = RuleNo(paper[at + 1]);
    let (holds, step) = match code {
        STEP_ON => (may_go_on(book, r, on, off), Step::On(r)),
        STEP_OFF => (may_go_off(book, r, on), Step::Off(r)),
        STEP_SPLIT => (is_uncoloured(r, on, off), Step::Stops(Stop::Split(r))),
        _ => return Step::Stops(Stop::Form),
    };
    if holds {
        step
    } else {
        Step::Stops(Stop::Fails)
    }
}

// A step of code 55. Whatever is on, it asks only of what is off.
fn check_list_step(book: &ReadBook, paper: &[u8], trailer: Trailer, at: usize, off: &Bits) -> Step
    requires { Ready paper.now trailer.from × (at < trailer.from)
        × (get_or paper.now at 0 ≡ code_unfounded) }
    ensures { (on : List Bool) → Finds (the_book book.now)
        trailer.claim paper.now trailer.from at
        (lent on (listed off.now.w)) result }
{
    if trailer.from <= at + 1 {
        return Step::Stops(Stop::Form);
    }
    let m = wide(paper[at + 1]);
    if m == 0 {
        return Step::Stops(Stop::Form);
    }
    let first = at + 2;
    let end = first + m;
    if trailer.from < end {
        return Step::Stops(Stop::Form);
    }
    if !is_proper(&paper[first..end], book.shape.rules) {
        return Step::Stops(Stop::Form);
    }
    if !is_unfounded(book, &paper[first..end], off) {
        return Step::Stops(Stop::Fails);
    }
    Step::Unfounded(m)
}

// The step at byte `at`: its form first, then its condition.
pub fn check_step<'a>(
    book: &ReadBook,
    paper: &[u8],
    trailer: Trailer,
    at: usize,
    on: &'a Bits,
    off: &'a Bits,
) -> Step
    requires { Ready paper.now trailer.from }
    ensures { Finds (the_book book.now) trailer.claim
        paper.now trailer.from at
        (lent (listed on.now.w) (listed off.now.w)) result }
{
    if trailer.from <= at {
        return Step::Stops(Stop::Form);
    }
    match paper[at] {
        STEP_UNFOUNDED => check_list_step(book, paper, trailer, at, off),
        STEP_END if is_ended(book, trailer.claim, on, off) => Step::Stops(Stop::End),
        STEP_END => Step::Stops(Stop::Fails),
        _ => check_rule_step(book, paper, trailer, at, on, off),
    }
}
