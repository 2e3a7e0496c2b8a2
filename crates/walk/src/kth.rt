// The k-th reading of a book.
ghost use Rattle.std.specs.Prelude.{◌≡◌, [], ℕ, ◌-◌, ◌<◌, ◌≤◌, length};
ghost use Rattle.meaning.specs.Told.{Answered};
ghost use Rattle.meaning.specs.Written.{nothing};
ghost use Rattle.book.specs.ReadBook.{the_book};
ghost use Rattle.walk.specs.Events.{events};
ghost use Rattle.walk.specs.FirstAlike.{counts, counted_by};
ghost use Rattle.walk.specs.Search.{shown_in};
ghost use Rattle.walk.specs.Run.{State, run};
ghost use Rattle.walk.specs.declared.kth.Unfound.TheVariants.{Book};
ghost use Rattle.walk.specs.Find.{told, told_by, start_of, find_of};

use crate::origin::tell_clash;
use crate::tally::{Halt, Tally};
use crate::walk::walk_shown;
use crate::wanted::Wanted;
use book::{ReadBook, Refusal, RowedBook};
use closing::Choice;
use meaning::{Bits, Colouring, RuleNo};

// Why no reading is given.
#[derive(Clone, Copy)]
pub enum Unfound {
    // 11: fewer than k readings: all tries, all readings, and the rule of the last contradictory
    // try, 255 if there was none.
    Fewer(u32, u32, RuleNo),
    // 9: more than this many tries are needed.
    Stopped(u32),
    // 1 to 7: the book is refused.
    Book(Refusal),
    // 8: the buffer has fewer bytes than the book has atoms.
    NoRoom,
    // 15: k is 0.
    NoNumber,
    // 16: the list of shown atoms is out of range or out of order.
    NoList,
}

impl From<Refusal> for Unfound {
    ghost from_gives = { λ why r. r ≡ Book why };

    fn from(why: Refusal) -> Unfound {
        Unfound::Book(why)
    }
}

// Walks to the k-th of the readings that count and writes it: every reading counts, or those that no
// earlier one matches on the mask. The memory holds nothing yet. At the end the rule is told.
pub fn walk_to(
    rowed: &RowedBook,
    every: bool,
    mask: &Bits,
    k: u32,
    limit: u32,
    seen: &mut [u64],
    answer: &mut [u8],
) -> Tally
    requires { (0 < k) × (rowed.now.book.shape.atoms ≤ length answer.old) }
    ensures { ◌≡◌ {A = State} (record { tally = result; out = answer.new })
        (run (the_book rowed.now.book) (record { pass = k - 1; room = 1; limit = limit })
        (start_of answer.old) (counted_by (the_book rowed.now.book)
        (counts every (the_book rowed.now.book) (shown_in mask.now.w))
        (events (the_book rowed.now.book) nothing))) }
{
    let wanted = Wanted {
        pass: k - 1,
        room: 1,
        limit,
    };
    let mut origin = [0u64; 8];
    let t = walk_shown(
        rowed,
        Colouring::empty(),
        Choice::Nothing,
        every,
        mask,
        &wanted,
        Tally::START,
        &mut origin,
        seen,
        answer,
    );
    tell_clash(rowed, &origin, t)
}

// The same where every reading counts.
pub fn kth(rowed: &RowedBook, k: u32, limit: u32, answer: &mut [u8]) -> Tally
    requires { (0 < k) × (rowed.now.book.shape.atoms ≤ length answer.old) }
    ensures { ◌≡◌ {A = State} (record { tally = result; out = answer.new })
        (run (the_book rowed.now.book) (record { pass = k - 1; room = 1; limit = limit })
        (start_of answer.old) (events (the_book rowed.now.book) nothing)) }
{
    let mask = Bits::EMPTY;
    let mut seen = [0u64; 1];
    walk_to(rowed, true, &mask, k, limit, &mut seen, answer)
}

// The first reading of a good book, for whoever has read the book already: naming takes its
// witness from it.
pub fn first(book: ReadBook, limit: u32, row: &mut [u8; Colouring::ATOMS]) -> Tally
    ensures { ◌≡◌ {A = State} (record { tally = result; out = row.new })
        (run (the_book book.entry) (record { pass = 0; room = 1; limit = limit })
        (start_of row.old) (events (the_book book.entry) nothing)) }
{
    kth(&RowedBook::of(book), 1, limit, row)
}

// What a call's tally tells.
pub fn tell(t: Tally, limit: u32) -> Result<u32, Unfound>
    ensures { told result ≡ told_by t.halt (record { tally = t; out = [] }) limit }
{
    match t.halt {
        Halt::Going => Err(Unfound::Fewer(t.tries, t.sets, t.clash)),
        Halt::Full => Ok(t.tries),
        Halt::Limit => Err(Unfound::Stopped(limit)),
    }
}

// Writes the k-th reading's row to the front of the answer buffer and tells the tries, or says why
// not.
pub fn find(book: &[u8], k: u32, limit: u32, answer: &mut [u8]) -> Result<u32, Unfound>
    ensures { ◌≡◌ {A = Answered ℕ} (record { told = told result; buffer = answer.new })
        (find_of book.now k limit answer.old) }
{
    let book = ReadBook::read(book)?;
    if k == 0 {
        return Err(Unfound::NoNumber);
    }
    if answer.len() < book.shape.atoms as usize {
        return Err(Unfound::NoRoom);
    }
    tell(kth(&RowedBook::of(book), k, limit, answer), limit)
}
