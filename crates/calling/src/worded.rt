// The book of rules in words, and the names that they give its atoms.
ghost use Rattle.std.specs.Prelude.{◌≤◌, IfSome};
ghost use Rattle.calling.specs.Opened.{FitsIn};

use crate::names::put_rows;
use crate::opened::{Opened, Unasked, atoms_of};
use crate::place::is_listing;
use crate::refusal::explain_words;
use crate::text::{TEXT_ROOM, read_text};
use meaning::AtomNo;
use std::rt::{Env, Files};
use system::arg;
use talk::first_bytes;
use words::{atom_named, make};

// The atom whose name an argument is, in a text with these names. No two atoms have the same.
fn asked_for<'a>(
    rt: &impl Env,
    i: usize,
    text: &'a [u8],
    atoms: u8,
    from: &'a [usize; 255],
    to: &'a [usize; 255],
) -> Result<AtomNo, Unasked> {
    let mut word = [0u8; 80];
    let n = arg(rt, i, &mut word);
    atom_named(text, atoms, from, to, &word[..n]).ok_or(Unasked::Nobody)
}

// Makes the book of the words, and puts the names into their rows. Where there is none a line says why.
fn make_book<'a>(
    rt: &(impl Env + Print),
    i: usize,
    text: &[u8],
    whose: &[u8],
    book: &'a mut [u8],
    names: &'a mut [u8],
) -> Option<Opened<'a>>
    ensures { IfSome result (FitsIn book.old names.old) }
{
    let mut from = [0usize; 255];
    let mut to = [0usize; 255];
    match make(text, book, &mut from, &mut to) {
        Ok(n) => {
            let book = first_bytes(book, n);
            let asked = asked_for(rt, i, text, atoms_of(book), &from, &to);
            put_rows(text, &from, &to, names);
            Some(Opened {
                book,
                names,
                is_listed: is_listing(text, from[0]),
                asked,
            })
        }
        Err(why) => {
            explain_words(rt, text, why, whose);
            None
        }
    }
}

// Makes the book of the words in the file that an argument names. The argument behind it may name an
// atom. `whose` says which book it is, where there are two.
pub fn open_words<'a>(
    rt: &(impl Env + Files + Print),
    i: usize,
    whose: &[u8],
    book: &'a mut [u8],
    names: &'a mut [u8],
) -> Option<Opened<'a>>
    requires { i ≤ 4 }
    ensures { IfSome result (FitsIn book.old names.old) }
{
    let mut room = [0u8; TEXT_ROOM];
    let text = read_text(rt, i, &mut room)?;
    make_book(rt, i + 1, text, whose, book, names)
}
