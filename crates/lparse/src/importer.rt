// The book made of a text.
ghost use Rattle.std.specs.Prelude.{◌≡◌, [], ℕ, length, Some};
ghost use Rattle.meaning.specs.Told.{Answered};
ghost use Rattle.book.specs.Format.{book_bytes};
ghost use Rattle.book.specs.Making.{Made, Finished};
ghost use Rattle.imported.specs.Text.{Text};
ghost use Rattle.imported.specs.Making.{made_rules, made_book};
ghost use Rattle.lparse.specs.Reading.{Part, says};
ghost use Rattle.lparse.specs.Collect.{text_in, text_of};
ghost use Rattle.lparse.specs.Opened.{capped};
ghost use Rattle.lparse.specs.Make.{counted, Readable, Complete};
ghost use Rattle.lparse.specs.Import.{told_book, laid_of, import_of};

use crate::answer::Unimported;
use crate::due::{Due, Role};
use crate::form::{Forming, form};
use crate::gather::collect;
use crate::rule::{counted_on, open_rule};
use crate::step::take_word;
use book::{BOOK_BYTES, Making, copy_front, finish_book};

// The rules of the book, in the draft: the second pass over a text that was found fine, whose
// different atoms these are.
fn make(text: &[u8], atoms: &[u32], draft: &mut [u8; BOOK_BYTES]) -> Forming
    requires { Readable text.now atoms.now × (length draft.old ≡ book_bytes) }
    ensures { (p : Part) → text_in text.now ≡ says p →
        Complete (text_of p) result draft.new }
{
    let mut f = Forming {
        making: Making::nothing(),
        rule: open_rule(false),
        helper: atoms.len(),
        entry: false,
    };
    let mut due = Due::Number(Role::Kind);
    let mut at = 0;
    loop {
        match take_word(text, at, due) {
            Ok(Some(word)) => {
                f = form(atoms, draft, f, word.said, word.next);
                due = word.next;
                at = word.end;
            }
            Ok(None) => return f,
            // Never: the text was found fine.
            Err(_) => return f,
        }
    }
}

// How many atoms the book has, told up to 256: one more than the text's and the choices' helpers
// where a list had an entry.
fn count_atoms(entry: bool, n: usize) -> usize
    ensures { (k : ℕ) → n ≡ capped k → result ≡ capped (counted entry k []) }
{
    if entry {
        return counted_on(n, 1);
    }
    n
}

// Writes the book to the front of the draft, if it is within the limits and the room: its length.
fn lay_out(draft: &mut [u8; BOOK_BYTES], m: Making, atoms: usize, room: usize) -> Option<usize>
    requires { (t : Text) × Made (made_rules t) m draft.old }
    ensures { (t : Text) → Made (made_rules t) m draft.old →
        atoms ≡ capped (made_book t).atoms → (result ≡ laid_of (made_book t) room)
        × ((n : ℕ) → result ≡ Some n → Finished (made_book t) n draft.new) }
{
    if !m.fits {
        return None;
    }
    if 255 < atoms {
        return None;
    }
    let n = finish_book(draft, m, atoms as u8);
    if room < n {
        return None;
    }
    Some(n)
}

// The book of a text that was found fine, whose different atoms these are.
fn import_fine(text: &[u8], atoms: &[u32], out: &mut [u8]) -> Result<usize, Unimported>
    requires { Readable text.now atoms.now }
    ensures { ◌≡◌ {A = Answered ℕ} (record { told = told_book result; buffer = out.new })
        (import_of text.now out.old) }
{
    let mut draft = [0u8; BOOK_BYTES];
    let f = make(text, atoms, &mut draft);
    let count = count_atoms(f.entry, f.helper);
    let Some(n) = lay_out(&mut draft, f.making, count, out.len()) else {
        return Err(Unimported::NoFit);
    };
    copy_front(&draft[0..n], out);
    Ok(n)
}

// Writes the book of the text to the front of the buffer, or says why not.
pub fn import(text: &[u8], out: &mut [u8]) -> Result<usize, Unimported>
    ensures { ◌≡◌ {A = Answered ℕ} (record { told = told_book result; buffer = out.new })
        (import_of text.now out.old) }
{
    let mut seen = [0u32; 255];
    let n = collect(text, &mut seen)?;
    import_fine(text, &seen[0..n], out)
}
