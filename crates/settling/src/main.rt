// Shows what a book settles before any choice: each rule in words with `on`, `off` or `open`, then the
// atoms that are true, false and open. Settled is not certain: nobody is named or cleared by it. A
// damaged book is refused with its number and place.
//
//     settling BOOKFILE
//     settling --words WORDSFILE
//     settling --text TEXTFILE
#![tactic(auto)]

mod atoms;
mod rules;

use atoms::show_atoms;
use book::ReadBook;
use calling::{open_book, shift};
use closing::settle;
use rules::{show_rules, show_settled};
use system::arg_count;
use talk::{BOOK_ROOM, NAMES_ROOM, explain_book};

// Writes the rules, the atoms and what that is worth, from the bytes that settling writes.
fn show_good(rt: &impl Print, book: &ReadBook, names: &[u8]) {
    let mut bytes = [2u8; 510];
    if settle(book.bytes, &mut bytes).is_err() {
        return;
    }
    let n = book.shape.rules as usize;
    let m = n + book.shape.atoms as usize;
    show_rules(rt, book, &bytes, names);
    show_atoms(rt, &bytes[n..m], names);
    show_settled(rt, &bytes[..n]);
}

// Writes what a good book settles, or why the bytes are none.
fn show_book(rt: &impl Print, bytes: &[u8], names: &[u8]) {
    match ReadBook::read(bytes) {
        Ok(book) => show_good(rt, &book, names),
        Err(why) => explain_book(rt, why, bytes),
    }
}

fn main(rt: HostRuntime) {
    let mut book = [0u8; BOOK_ROOM];
    let mut names = [0u8; NAMES_ROOM];
    let is_right = arg_count(&rt) == 2 + shift(&rt);
    let usage = b"settling BOOKFILE";
    if let Some(opened) = open_book(&rt, is_right, usage, &mut book, &mut names) {
        show_book(&rt, opened.book, opened.names);
    }
}
