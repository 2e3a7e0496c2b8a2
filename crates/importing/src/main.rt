// Makes the book of a text that the grounder wrote, saves it, and prints which atom of the book is
// which of the text. On a refusal nothing is saved, and a book file that was there before stays as
// it was.
//
//     importing TEXTFILE BOOKFILE [--replace]
#![tactic(auto)]

mod atoms;

use atoms::show_atoms;
use book::BOOK_BYTES;
use calling::{TEXT_ROOM, explain_text, read_text};
use lparse::import;
use saving::{is_replacing, is_right, save_book};
use std::rt::{Env, Files};
use talk::{complain_of_call, first_bytes};

// The arguments that must be there, the program's own name among them.
const MUST: usize = 3;

// Saves the book in the file that the second argument names, and says what its atoms are.
fn save_made(rt: &(impl Env + Files + Print), text: &[u8], book: &[u8]) {
    if save_book(rt, 2, book, is_replacing(rt, MUST)) {
        show_atoms(rt, text, book);
    }
}

// Makes the book of the text, or says why there is none.
fn import_text(rt: &(impl Env + Files + Print), text: &[u8]) {
    let mut room = [0u8; BOOK_BYTES];
    match import(text, &mut room) {
        Ok(n) => save_made(rt, text, first_bytes(&room, n)),
        Err(why) => explain_text(rt, Err(why), b""),
    }
}

// Reads the text, and makes its book.
fn import_argument(rt: &(impl Env + Files + Print)) {
    let mut room = [0u8; TEXT_ROOM];
    if let Some(text) = read_text(rt, 1, &mut room) {
        import_text(rt, text);
    }
}

fn main(rt: HostRuntime) {
    if !is_right(&rt, MUST) {
        complain_of_call(&rt, b"importing TEXTFILE BOOKFILE [--replace]");
        return;
    }
    import_argument(&rt);
}
