// Two books joined for the log: the joined book, and which of the two has a reading.
ghost use Rattle.std.specs.Prelude.{◌≡◌, ◌≤◌, true, false, length, Ok, MatchOption};
ghost use Rattle.meaning.specs.Told.{success, Answered};
ghost use Rattle.book.specs.ReadBook.{the_book};
ghost use Rattle.crews.specs.Join.{joined_bytes};
ghost use Rattle.crews.specs.Log.{Entry, told, searched, passed, found, entry_of, log_laid};
ghost use Rattle.crews.specs.Log.{log_in, log_of};

use crate::answer::{Logged, Unlogged};
use crate::lay::lay_out;
use book::{BOOK_BYTES, ReadBook, copy_front};
use meaning::Colouring;
use walk::{Halt, first};

// Whether a good book has a reading, if the search for one ends within so many tries.
fn search(book: &ReadBook, limit: u32) -> Option<bool>
    ensures { MatchOption result
        (passed (searched (the_book book.now) limit) ≡ true)
        (λ t. (passed (searched (the_book book.now) limit) ≡ false)
        × (t ≡ found (searched (the_book book.now) limit))) }
{
    let mut row = [0u8; Colouring::ATOMS];
    match first(*book, limit, &mut row).halt {
        Halt::Full => Some(true),
        Halt::Going => Some(false),
        Halt::Limit => None,
    }
}

// Which books have a reading, and the joined book's length.
fn tell(one: bool, two: bool, n: usize) -> Logged
    ensures { told (Ok result) ≡ success (entry_of one two n) }
{
    match (one, two) {
        (true, true) => Logged::Both(n),
        (false, true) => Logged::NoneInFirst(n),
        (true, false) => Logged::NoneInSecond(n),
        (false, false) => Logged::NoneInEither(n),
    }
}

// The log of two good books whose joined book stands in the draft: nothing is written before both
// searches are done.
fn log_laid(
    first: &ReadBook,
    second: &ReadBook,
    limit: u32,
    other_limit: u32,
    draft: &[u8],
    out: &mut [u8],
) -> Result<Logged, Unlogged>
    requires { (length draft.now ≤ length out.old)
        × (draft.now ≡ joined_bytes (the_book first.now) (the_book second.now)) }
    ensures { ◌≡◌ {A = Answered Entry} (record { told = told result; buffer = out.new })
        (log_laid (Ok (length draft.now)) (the_book first.now)
        (the_book second.now) limit other_limit out.old) }
{
    let Some(one) = search(first, limit) else {
        return Err(Unlogged::Stopped(limit));
    };
    let Some(two) = search(second, other_limit) else {
        return Err(Unlogged::Stopped(other_limit));
    };
    copy_front(draft, out);
    Ok(tell(one, two, draft.len()))
}

// The log of two good books.
fn log_good(
    first: &ReadBook,
    second: &ReadBook,
    limit: u32,
    other_limit: u32,
    out: &mut [u8],
) -> Result<Logged, Unlogged>
    ensures { ◌≡◌ {A = Answered Entry} (record { told = told result; buffer = out.new })
        (log_in (the_book first.now) (the_book second.now) limit other_limit
        out.old) }
{
    let mut draft = [0u8; BOOK_BYTES];
    let n = lay_out(first, second, out.len(), &mut draft)?;
    log_laid(first, second, limit, other_limit, &draft[..n], out)
}

// Writes the joined book to the front of the buffer and says which of the two has a reading, or
// why nothing is written.
pub fn log(
    first: &[u8],
    second: &[u8],
    first_limit: u32,
    second_limit: u32,
    out: &mut [u8],
) -> Result<Logged, Unlogged>
    ensures { ◌≡◌ {A = Answered Entry} (record { told = told result; buffer = out.new })
        (log_of first.now second.now first_limit second_limit
        out.old) }
{
    let one = ReadBook::read(first).map_err(Unlogged::First)?;
    let two = ReadBook::read(second).map_err(Unlogged::Second)?;
    log_good(&one, &two, first_limit, second_limit, out)
}
