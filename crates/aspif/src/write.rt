// A book, written as a text for other solvers.
ghost use Rattle.std.specs.Prelude.{◌≡◌, length, take, ℕ, ◌≤◌};
ghost use Rattle.meaning.specs.Told.{Answered};
ghost use Rattle.book.specs.ReadBook.{the_book};
ghost use Rattle.decimal.specs.Fewest.{Stored};
ghost use Rattle.aspif.specs.Text.{text_of};
ghost use Rattle.aspif.specs.Handing.{told_text, export_of, hand_text};

use crate::answer::Unexported;
use crate::lines::{put_outputs, put_rules, put_text};
use book::{ReadBook, copy_front};

// The longest text: 10 bytes, 255 rule lines of 159, 255 output lines of 15, and 2.
pub const TEXT_ROOM: usize = 44382;

// Writes the text of a good book to the front of the draft; how long it is.
fn put_book(book: &ReadBook, draft: &mut [u8]) -> usize
    requires { length (text_of (the_book book.now)) ≤ length draft.old }
    ensures { Stored (text_of (the_book book.now)) 0
        draft.old result draft.new }
{
    let started = put_text(b"asp 1 0 0\n", draft, 0);
    let ruled = put_rules(book, draft, started);
    let listed = put_outputs(book.shape.atoms, draft, ruled);
    put_text(b"0\n", draft, listed)
}

// Hands the text of the draft's first `n` bytes over, or refuses it as too long for the buffer.
fn hand_over(draft: &[u8], n: usize, out: &mut [u8]) -> Result<usize, Unexported>
    requires { n ≤ length draft.now }
    ensures { ◌≡◌ {A = Answered ℕ} (record { told = told_text result; buffer = out.new })
        (hand_text (take n draft.now) out.old) }
{
    if out.len() < n {
        return Err(Unexported::NoRoom);
    }
    copy_front(&draft[0..n], out);
    Ok(n)
}

// The book's text from byte 0 of the buffer on. On a refusal the buffer stays as it is.
pub fn export(book: &[u8], out: &mut [u8]) -> Result<usize, Unexported>
    ensures { ◌≡◌ {A = Answered ℕ} (record { told = told_text result; buffer = out.new })
        (export_of book.now out.old) }
{
    let read = ReadBook::read(book)?;
    let mut draft = [0u8; TEXT_ROOM];
    let n = put_book(&read, &mut draft);
    hand_over(&draft, n, out)
}
