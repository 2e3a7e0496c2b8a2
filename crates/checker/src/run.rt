// The steps of a branch, one after another, up to its end or its split.
ghost use Rattle.meaning.specs.Written.{written, pair};
ghost use Rattle.book.specs.ReadBook.{the_book};
ghost use Rattle.checker.specs.Parts.{Ready, Runs};

use crate::list::with_rules;
use crate::step::{Step, Stop, check_step};
use crate::trailer::Trailer;
use book::ReadBook;
use meaning::{Colouring, Side};

// Where the steps stop, with the colouring there, and by what.
#[derive(Clone, Copy)]
pub struct Ran {
    pub colours: Colouring,
    pub at: usize,
    pub stop: Stop,
}

// Runs the steps from byte `at` on, each of which adds to the colouring.
pub fn run_steps(book: &ReadBook, paper: &[u8], trailer: Trailer, at: usize, c: Colouring) -> Ran
    requires { Ready paper.now trailer.from }
    ensures { Runs (the_book book.now) trailer.claim
        paper.now trailer.from at (pair (written c)) result }
{
    let mut colours = c;
    let mut i = at;
    // A step tells how far the next one is: there is no list of places to go through.
    loop {
        match check_step(book, paper, trailer, i, &colours.on, &colours.off) {
            Step::On(r) => {
                colours = colours.with(Side::On, r);
                i += 2;
            }
            Step::Off(r) => {
                colours = colours.with(Side::Off, r);
                i += 2;
            }
            Step::Unfounded(m) => {
                let end = i + 2 + m;
                colours.off = with_rules(colours.off, &paper[i + 2..end]);
                i = end;
            }
            Step::Stops(stop) => {
                return Ran {
                    colours,
                    at: i,
                    stop,
                };
            }
        }
    }
}
