// Writes a book as a text for other solvers to standard output: `exporting BOOKFILE | clasp 0` lists
// its readings, atom n under the name xn, whatever it is called in words or in a grounder's text: by
// these names the text is restored. A damaged book is refused with its number and place.
//
//     exporting BOOKFILE
//     exporting --words WORDSFILE
//     exporting --text TEXTFILE
#![tactic(auto)]

use aspif::{TEXT_ROOM, Unexported, export};
use calling::{open_book, shift};
use system::arg_count;
use talk::{BOOK_ROOM, NAMES_ROOM, explain_book, first_bytes, print};

// Writes the text of a good book, or why the bytes are none. The longest text has room.
fn print_text(rt: &impl Print, book: &[u8]) {
    let mut text = [0u8; TEXT_ROOM];
    match export(book, &mut text) {
        Ok(n) => print(rt, first_bytes(&text, n)),
        Err(Unexported::Book(why)) => explain_book(rt, why, book),
        Err(Unexported::NoRoom) => {}
    }
}

fn main(rt: HostRuntime) {
    let mut book = [0u8; BOOK_ROOM];
    let mut names = [0u8; NAMES_ROOM];
    let is_right = arg_count(&rt) == 2 + shift(&rt);
    let usage = b"exporting BOOKFILE";
    if let Some(opened) = open_book(&rt, is_right, usage, &mut book, &mut names) {
        print_text(&rt, opened.book);
    }
}
