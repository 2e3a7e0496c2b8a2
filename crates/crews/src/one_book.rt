// Two books joined into one.
ghost use Rattle.std.specs.Prelude.{◌≡◌, ℕ};
ghost use Rattle.meaning.specs.Told.{Answered};
ghost use Rattle.book.specs.ReadBook.{the_book};
ghost use Rattle.crews.specs.Join.{told, join_in, join_of};

use crate::answer::Unjoined;
use crate::lay::lay_out;
use book::{BOOK_BYTES, ReadBook, copy_front};

// The joined book of two good books.
fn join_good(first: &ReadBook, second: &ReadBook, out: &mut [u8]) -> Result<usize, Unjoined>
    ensures { ◌≡◌ {A = Answered ℕ} (record { told = told result; buffer = out.new })
        (join_in (the_book first.now) (the_book second.now) out.old) }
{
    let mut draft = [0u8; BOOK_BYTES];
    let n = lay_out(first, second, out.len(), &mut draft)?;
    copy_front(&draft[..n], out);
    Ok(n)
}

// Writes the joined book to the front of the buffer, or says why not; its length.
pub fn join(first: &[u8], second: &[u8], out: &mut [u8]) -> Result<usize, Unjoined>
    ensures { ◌≡◌ {A = Answered ℕ} (record { told = told result; buffer = out.new })
        (join_of first.now second.now out.old) }
{
    let one = ReadBook::read(first).map_err(Unjoined::First)?;
    let two = ReadBook::read(second).map_err(Unjoined::Second)?;
    join_good(&one, &two, out)
}
