// The steps of a branch, checked and told one after another, up to its end or its split.
ghost use Rattle.meaning.specs.Bits.{listed};
ghost use Rattle.meaning.specs.Written.{lent, written, pair};
ghost use Rattle.book.specs.ReadBook.{the_book};
ghost use Rattle.checker.specs.Parts.{StopWithin, StepWithin, Finds, Runs};

use crate::paper::Paper;
use crate::tell::{tell_end, tell_list, tell_off, tell_on, tell_split};
use checker::{Ran, Step, Stop, check_step, with_rules};
use meaning::{Bits, Colouring, Side};

// Tells what a branch stops by; nothing of a step that is refused.
fn tell_stop<'a>(
    rt: &impl Print,
    paper: &Paper,
    depth: usize,
    at: usize,
    stop: Stop,
    on: &'a Bits,
    off: &'a Bits,
)
    requires { StopWithin (the_book paper.now.book) paper.now.trailer.from at stop }
{
    match stop {
        Stop::End => tell_end(rt, paper, depth, at, on, off),
        Stop::Split(r) => tell_split(rt, paper, depth, at, r),
        Stop::Form | Stop::Fails => {}
    }
}

// Tells the step that was found at byte `at`.
fn tell_step<'a>(
    rt: &impl Print,
    paper: &Paper,
    depth: usize,
    at: usize,
    step: Step,
    on: &'a Bits,
    off: &'a Bits,
)
    requires { StepWithin (the_book paper.now.book) paper.now.bytes.now
        paper.now.trailer.from at step }
{
    match step {
        Step::On(r) => tell_on(rt, paper, depth, at, r, on),
        Step::Off(r) => tell_off(rt, paper, depth, at, r, on),
        Step::Unfounded(m) => {
            let first = at + 2;
            let end = first + m;
            tell_list(rt, paper, depth, at, &paper.bytes[first..end], off);
        }
        Step::Stops(stop) => tell_stop(rt, paper, depth, at, stop, on, off),
    }
}

// The step at byte `at`, checked by the checker, and told where it may be made.
fn explain_step<'a>(
    rt: &impl Print,
    paper: &Paper,
    depth: usize,
    at: usize,
    on: &'a Bits,
    off: &'a Bits,
) -> Step
    ensures { Finds (the_book paper.now.book) paper.now.trailer.claim
        paper.now.bytes.now paper.now.trailer.from at
        (lent (listed on.now.w) (listed off.now.w)) result }
{
    let step = check_step(&paper.book, paper.bytes, paper.trailer, at, on, off);
    tell_step(rt, paper, depth, at, step, on, off);
    step
}

// Runs the steps from byte `at` on, each of which adds to the colouring, as the checker does. A step
// tells how far the next one is: there is no list of places to go through.
pub fn explain_run(rt: &impl Print, paper: &Paper, depth: usize, at: usize, c: Colouring) -> Ran
    ensures { Runs (the_book paper.now.book) paper.now.trailer.claim
        paper.now.bytes.now paper.now.trailer.from at (pair (written c)) result }
{
    let mut colours = c;
    let mut i = at;
    loop {
        match explain_step(rt, paper, depth, i, &colours.on, &colours.off) {
            Step::On(r) => {
                colours = colours.with(Side::On, r);
                i += 2;
            }
            Step::Off(r) => {
                colours = colours.with(Side::Off, r);
                i += 2;
            }
            Step::Unfounded(m) => {
                let end = i + 2 + m;
                colours.off = with_rules(colours.off, &paper.bytes[i + 2..end]);
                i = end;
            }
            Step::Stops(stop) => {
                return Ran {
                    colours,
                    at: i,
                    stop,
                };
            }
        }
    }
}
