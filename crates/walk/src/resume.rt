// The walk again from where a reading was found. Going down to it makes one closing a level and no
// try: those tries were made when it was found.
ghost use Rattle.std.specs.Prelude.{◌≡◌, map, ◌<◌};
ghost use Rattle.meaning.specs.Sets.{every};
ghost use Rattle.meaning.specs.Books.{atom_no};
ghost use Rattle.meaning.specs.AnswerSet.{generating};
ghost use Rattle.meaning.specs.Choice.{agree};
ghost use Rattle.meaning.specs.Written.{written};
ghost use Rattle.book.specs.ReadBook.{the_book};
ghost use Rattle.closing.specs.Left.{Shallow};
ghost use Rattle.closing.specs.Taken.{taken, Takes};
ghost use Rattle.walk.specs.Events.{rest};
ghost use Rattle.walk.specs.Run.{State, run};
ghost use Rattle.walk.specs.Page.{set_in};
ghost use Rattle.walk.specs.Room.{Room};
ghost use Rattle.walk.specs.Origin.{told_clash};

use crate::bytes::in_row;
use crate::colours::lowest_uncoloured;
use crate::tally::Tally;
use crate::walk::walk;
use crate::wanted::Wanted;
use book::{ReadBook, RowedBook};
use closing::{Choice, close_or_clash};
use meaning::{AtomNo, Colouring, RuleNo};

// Every atom of the part is in the row's set; or, where `inside` is false, none is.
fn all_so(part: &[u8], row: &[u8], inside: bool) -> bool
    ensures { result ≡
        every (λ a. agree inside (set_in row.now a)) (map atom_no part.now) }
{
    part.iter().all(|a| in_row(row, AtomNo(*a)) == inside)
}

// The rule is one of those that generate the row's set.
pub fn generates(book: &ReadBook, r: RuleNo, row: &[u8]) -> bool
    requires { r.0 < book.now.shape.rules }
    ensures { result ≡ generating (the_book book.now) (set_in row.now) r }
{
    all_so(book.positives(r), row, true) && all_so(book.negatives(r), row, false)
}

// Walks on behind the reading of the last row, from the colouring c with the choice taken.
pub fn resume(
    rowed: &RowedBook,
    c: Colouring,
    choice: Choice,
    last: &[u8],
    wanted: &Wanted,
    t: Tally,
    origin: &mut [u64; 8],
    out: &mut [u8],
) -> Tally
    requires { Room (the_book rowed.now.book) wanted.now.pass wanted.now.room
        (record { tally = t; out = out.old })
        × Shallow (the_book rowed.now.book) (taken choice (written c))
        × Takes (the_book rowed.now.book) (written c) choice }
    ensures { ◌≡◌ {A = State}
        (record { tally = told_clash (the_book rowed.now.book) origin.new result; out = out.new })
        (run (the_book rowed.now.book) wanted.now
        (record { tally = told_clash (the_book rowed.now.book) origin.old t; out = out.old })
        (rest (the_book rowed.now.book) (taken choice (written c)) (set_in last.now))) }
{
    let closed = close_or_clash(rowed, c, choice);
    if closed.clash.is_some() {
        return t;
    }
    let d = closed.colours;
    let Some(r) = lowest_uncoloured(rowed.book.shape.rules, d.on, d.off) else {
        return t;
    };
    if !generates(&rowed.book, r, last) {
        return resume(rowed, d, Choice::Off(r), last, wanted, t, origin, out);
    }
    let first = resume(rowed, d, Choice::On(r), last, wanted, t, origin, out);
    walk(rowed, d, Choice::Off(r), wanted, first, origin, out)
}
