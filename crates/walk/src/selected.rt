// The k-th reading where only some atoms are shown: readings that match on them are one.
ghost use Rattle.std.specs.Prelude.{◌≡◌, true, map, ℕ, ◌-◌, ◌<◌, ◌≤◌, length};
ghost use Rattle.meaning.specs.Books.{atom_no};
ghost use Rattle.meaning.specs.Told.{Answered};
ghost use Rattle.book.specs.ReadBook.{the_book};
ghost use Rattle.walk.specs.Run.{State, run};
ghost use Rattle.walk.specs.Find.{told, start_of};
ghost use Rattle.walk.specs.Shown.{shown_events};
ghost use Rattle.walk.specs.FindShown.{good_list, find_shown_of};

use crate::kth::{Unfound, tell, walk_to};
use crate::list::{is_good_list, mask_of};
use crate::tally::Tally;
use book::{ReadBook, RowedBook};

// Walks to the k-th reading of a good book and writes it. A list of all atoms needs no search: no
// two readings match on it. The memory has room for 256 readings.
fn kth_shown(book: ReadBook, k: u32, limit: u32, shown: &[u8], answer: &mut [u8]) -> Tally
    requires { (0 < k) × (book.shape.atoms ≤ length answer.old)
        × (good_list book.shape.atoms shown.now ≡ true) }
    ensures { ◌≡◌ {A = State} (record { tally = result; out = answer.new })
        (run (the_book book.entry) (record { pass = k - 1; room = 1; limit = limit })
        (start_of answer.old)
        (shown_events (the_book book.entry) (map atom_no shown.now))) }
{
    let rowed = RowedBook::of(book);
    let mask = mask_of(shown);
    let every = shown.len() == book.shape.atoms as usize;
    let mut seen = [0u64; 2048];
    walk_to(&rowed, every, &mask, k, limit, &mut seen, answer)
}

// Writes the k-th reading's row to the front of the answer buffer, or says why not. Readings that
// match on every atom of the list count as one, the first of them.
pub fn find_shown(
    book: &[u8],
    k: u32,
    limit: u32,
    shown: &[u8],
    answer: &mut [u8],
) -> Result<u32, Unfound>
    ensures { ◌≡◌ {A = Answered ℕ} (record { told = told result; buffer = answer.new })
        (find_shown_of book.now k limit shown.now answer.old) }
{
    let book = ReadBook::read(book)?;
    if k == 0 {
        return Err(Unfound::NoNumber);
    }
    if !is_good_list(shown, book.shape.atoms) {
        return Err(Unfound::NoList);
    }
    if answer.len() < book.shape.atoms as usize {
        return Err(Unfound::NoRoom);
    }
    tell(kth_shown(book, k, limit, shown, answer), limit)
}
