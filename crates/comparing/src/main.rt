// Says whether a book is that of rules in words, or of a grounder's text: the same bytes, or the first
// byte that differs.
//
//     comparing BOOKFILE WORDSFILE
//     comparing BOOKFILE --text TEXTFILE
#![tactic(auto)]

ghost use Rattle.std.specs.Prelude.{IfSome};
ghost use Rattle.calling.specs.Opened.{FitsIn};

use book::read_book;
use calling::{Opened, open_at, open_words, shift_at};
use std::rt::{Env, Files};
use system::arg_count;
use talk::{BOOK_ROOM, Line, NAMES_ROOM, common, open_call, show_size};

// Writes the first byte that differs.
fn tell_different(rt: &impl Print, place: usize) {
    let mut room = [0u8; 64];
    let mut line = Line::new(&mut room);
    line.text(b"different: byte ");
    line.number(place as u64);
    line.text(b"\n");
    line.print(rt);
}

// Writes whether the book is the one of the words.
fn tell_compared(rt: &impl Print, book: &[u8], other: &[u8]) {
    if book != other {
        tell_different(rt, common(book, other));
    } else if let Ok(shape) = read_book(book) {
        show_size(rt, b"same: ", shape);
    }
}

// Makes the book of the words in the file that the second argument names, or of what stands behind
// `--text`.
fn open_other<'a>(
    rt: &(impl Env + Files + Print),
    book: &'a mut [u8],
    names: &'a mut [u8],
) -> Option<Opened<'a>>
    ensures { IfSome result (FitsIn book.old names.old) }
{
    if shift_at(rt, 2) == 1 {
        return open_at(rt, 2, b"", book, names);
    }
    open_words(rt, 2, b"", book, names)
}

// Makes the other book, and compares.
fn compare_argument(rt: &(impl Env + Files + Print), book: &[u8]) {
    let mut other = [0u8; BOOK_ROOM];
    let mut names = [0u8; NAMES_ROOM];
    if let Some(opened) = open_other(rt, &mut other, &mut names) {
        tell_compared(rt, book, opened.book);
    }
}

fn main(rt: HostRuntime) {
    let mut book = [0u8; BOOK_ROOM];
    let is_right = arg_count(&rt) == 3 + shift_at(&rt, 2);
    let usage = b"comparing BOOKFILE WORDSFILE";
    if let Some(n) = open_call(&rt, is_right, usage, &mut book) {
        compare_argument(&rt, &book[..n]);
    }
}
