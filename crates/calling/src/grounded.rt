// The book of a text that a grounder wrote, and what its atoms are called.
ghost use Rattle.std.specs.Prelude.{◌≤◌, IfSome};
ghost use Rattle.calling.specs.Opened.{FitsIn};

use crate::described::put_described;
use crate::opened::{Opened, Unasked, atoms_of};
use crate::sought::asked_in;
use crate::text::{TEXT_ROOM, read_text};
use lparse::{Unimported, collect, import};
use meaning::AtomNo;
use std::rt::{Env, Files};
use talk::{Refused, explain_text_of, first_bytes};

// Why a text is refused; 0 where its book was made.
pub fn refused_text(answer: Result<usize, Unimported>) -> Refused {
    match answer {
        Ok(_) => Refused::plain(0),
        Err(Unimported::Format(place)) => Refused::at(30, place),
        Err(Unimported::Kind(place)) => Refused::at(31, place),
        Err(Unimported::NoFit) => Refused::plain(32),
    }
}

// Writes why a text is refused, in one line. `whose` says of which book it is the text, where there
// are two.
pub fn explain_text(rt: &impl Print, answer: Result<usize, Unimported>, whose: &[u8]) {
    explain_text_of(rt, refused_text(answer), whose);
}

// Puts what the book's atoms are called into their rows, and gives the atom that an argument names.
fn take_names(
    rt: &impl Env,
    i: usize,
    text: &[u8],
    atoms: u8,
    names: &mut [u8],
) -> Result<AtomNo, Unasked> {
    let mut found = [0u32; 255];
    let Ok(n) = collect(text, &mut found) else {
        return Err(Unasked::Nobody);
    };
    let seen = &found[..n];
    put_described(text, seen, atoms, names);
    asked_in(rt, i, text, seen)
}

// Makes the book of the text, and puts the names into their rows. Where there is none a line says why.
fn import_book<'a>(
    rt: &(impl Env + Print),
    i: usize,
    text: &[u8],
    whose: &[u8],
    book: &'a mut [u8],
    names: &'a mut [u8],
) -> Option<Opened<'a>>
    ensures { IfSome result (FitsIn book.old names.old) }
{
    match import(text, book) {
        Ok(n) => {
            let book = first_bytes(book, n);
            let asked = take_names(rt, i, text, atoms_of(book), names);
            Some(Opened {
                book,
                names,
                is_listed: false,
                asked,
            })
        }
        Err(why) => {
            explain_text(rt, Err(why), whose);
            None
        }
    }
}

// Makes the book of the text in the file that an argument names. The argument behind it may name an
// atom. `whose` says which book it is, where there are two.
pub fn open_text<'a>(
    rt: &(impl Env + Files + Print),
    i: usize,
    whose: &[u8],
    book: &'a mut [u8],
    names: &'a mut [u8],
) -> Option<Opened<'a>>
    requires { i ≤ 4 }
    ensures { IfSome result (FitsIn book.old names.old) }
{
    let mut room = [0u8; TEXT_ROOM];
    let text = read_text(rt, i, &mut room)?;
    import_book(rt, i + 1, text, whose, book, names)
}
