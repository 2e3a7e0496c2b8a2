// Prints a book as rules in words that give it again, byte for byte: its names in one line, then its
// rules. Of a book in bytes the names are x0, x1 and so on; of rules in words they are their own, so
// that a text is seen in its plain form. The names of a grounder's text are none in words: of such a
// text the atoms are x0, x1 and so on, and lines that say nothing tell what each of them is. A damaged
// book is refused with its number and place.
//
//     wording BOOKFILE
//     wording --words WORDSFILE
//     wording --text TEXTFILE
#![tactic(auto)]

mod called;
mod rules;

use book::ReadBook;
use called::show_called;
use calling::{Source, open_book, shift, source_at};
use rules::{show_names, show_rules};
use std::rt::Env;
use system::arg_count;
use talk::{BOOK_ROOM, NAMES_ROOM, explain_book, show_size};

// Writes the text of a good book with these names; last its size, in a line that says nothing in a text,
// so that one sees that it is whole.
fn show_all(rt: &impl Print, book: &ReadBook, names: &[u8]) {
    show_names(rt, book.shape.atoms, names);
    show_rules(rt, book, names);
    show_size(rt, b"# ", book.shape);
}

// Writes the text of a good book; of a grounder's text what its atoms are called, and then without
// these names.
fn show_good(rt: &(impl Env + Print), book: &ReadBook, names: &[u8]) {
    match source_at(rt, 1) {
        Source::Book | Source::Words => show_all(rt, book, names),
        Source::Text => {
            show_called(rt, book.shape.atoms, names);
            show_all(rt, book, b"");
        }
    }
}

// Writes the text of a good book, or why the bytes are none.
fn show_book(rt: &(impl Env + Print), bytes: &[u8], names: &[u8]) {
    match ReadBook::read(bytes) {
        Ok(book) => show_good(rt, &book, names),
        Err(why) => explain_book(rt, why, bytes),
    }
}

fn main(rt: HostRuntime) {
    let mut book = [0u8; BOOK_ROOM];
    let mut names = [0u8; NAMES_ROOM];
    let is_right = arg_count(&rt) == 2 + shift(&rt);
    let usage = b"wording BOOKFILE, or wording --words WORDSFILE";
    if let Some(opened) = open_book(&rt, is_right, usage, &mut book, &mut names) {
        show_book(&rt, opened.book, opened.names);
    }
}
