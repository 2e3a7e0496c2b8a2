// The k-th reading of a book in the order of the no_mo_re walk.
ghost use Rattle.std.specs.Prelude.{◌≡◌, ℕ, ◌-◌, ◌<◌, ◌≤◌, length};
ghost use Rattle.meaning.specs.Told.{Answered};
ghost use Rattle.book.specs.ReadBook.{the_book};
ghost use Rattle.walk.specs.Run.{State, run};
ghost use Rattle.walk.specs.Find.{told, start_of, find_by};
ghost use Rattle.nomore.specs.Own.{own_events};

use crate::own::own;
use book::{ReadBook, RowedBook};
use closing::Choice;
use meaning::Bits;
use walk::{Tally, Unfound, Wanted, tell};

// Walks to the k-th reading of a good book and writes it.
fn kth(book: ReadBook, k: u32, limit: u32, answer: &mut [u8]) -> Tally
    requires { (0 < k) × (book.shape.atoms ≤ length answer.old) }
    ensures { ◌≡◌ {A = State} (record { tally = result; out = answer.new })
        (run (the_book book.entry) (record { pass = k - 1; room = 1; limit = limit })
        (start_of answer.old) (own_events (the_book book.entry))) }
{
    let wanted = Wanted {
        pass: k - 1,
        room: 1,
        limit,
    };
    let rowed = RowedBook::of(book);
    own(
        &rowed,
        Bits::empty(),
        Bits::empty(),
        Choice::Nothing,
        &wanted,
        Tally::START,
        answer,
    )
}

// Writes the k-th reading's row to the front of the answer buffer, or says why not. The answers and
// their order are those of walk's find, over the no_mo_re walk.
pub fn find(book: &[u8], k: u32, limit: u32, answer: &mut [u8]) -> Result<u32, Unfound>
    ensures { ◌≡◌ {A = Answered ℕ} (record { told = told result; buffer = answer.new })
        (find_by own_events book.now k limit answer.old) }
{
    let book = ReadBook::read(book)?;
    if k == 0 {
        return Err(Unfound::NoNumber);
    }
    if answer.len() < book.shape.atoms as usize {
        return Err(Unfound::NoRoom);
    }
    tell(kth(book, k, limit, answer), limit)
}
