// Makes the book of rules in words, saves it, and prints what its atoms are and what may be a slip of
// the pen. On a refusal nothing is saved, and a book file that was there before stays as it was.
//
//     making WORDSFILE BOOKFILE [--replace]
#![tactic(auto)]

mod atoms;
mod likeness;
mod remarks;

use atoms::show_atoms;
use book::ReadBook;
use calling::open_words;
use remarks::show_remarks;
use saving::{is_replacing, is_right, save_book};
use std::rt::{Env, Files};
use talk::{BOOK_ROOM, NAMES_ROOM, complain_of_call};

// The arguments that must be there, the program's own name among them.
const MUST: usize = 3;

// Writes what stands in the book that was made. Where the text lists its atoms nothing is remarked.
fn show_made(rt: &impl Print, book: &[u8], names: &[u8], is_listed: bool) {
    let Ok(book) = ReadBook::read(book) else {
        return;
    };
    show_atoms(rt, &book, names);
    if !is_listed {
        show_remarks(rt, &book, names);
    }
}

// Makes the book, saves it in the file that the second argument names, and says what is in it.
fn make_argument(rt: &(impl Env + Files + Print)) {
    let mut book = [0u8; BOOK_ROOM];
    let mut names = [0u8; NAMES_ROOM];
    let Some(opened) = open_words(rt, 1, b"", &mut book, &mut names) else {
        return;
    };
    if save_book(rt, 2, opened.book, is_replacing(rt, MUST)) {
        show_made(rt, opened.book, opened.names, opened.is_listed);
    }
}

fn main(rt: HostRuntime) {
    if !is_right(&rt, MUST) {
        complain_of_call(&rt, b"making WORDSFILE BOOKFILE [--replace]");
        return;
    }
    make_argument(&rt);
}
