// Shows the rules of a book in words, one a line, so that one sees that the bytes are the rules
// agreed on; then how many atoms there are, and which have no rule. A damaged book is refused with
// its number and place. Of rules in words and of a grounder's text each atom is shown by its name and
// number.
//
//     showing BOOKFILE
//     showing --words WORDSFILE
//     showing --text TEXTFILE
#![tactic(auto)]

mod atoms;

use atoms::show_atoms;
use book::ReadBook;
use calling::{open_book, shift};
use meaning::RuleNo;
use system::arg_count;
use talk::{BOOK_ROOM, NAMES_ROOM, explain_book, print, show_rule};

// Writes a line for each rule, or that there is none.
fn show_rules(rt: &impl Print, book: &ReadBook, names: &[u8]) {
    if book.shape.rules == 0 {
        print(rt, b"no rules\n");
    }
    for r in 0..book.shape.rules {
        show_rule(rt, book, RuleNo(r), b"", names);
    }
}

// Writes what stands in a good book, or why the bytes are none.
fn show_book(rt: &impl Print, bytes: &[u8], names: &[u8]) {
    match ReadBook::read(bytes) {
        Ok(book) => {
            show_rules(rt, &book, names);
            show_atoms(rt, &book, names);
        }
        Err(why) => explain_book(rt, why, bytes),
    }
}

fn main(rt: HostRuntime) {
    let mut book = [0u8; BOOK_ROOM];
    let mut names = [0u8; NAMES_ROOM];
    let is_right = arg_count(&rt) == 2 + shift(&rt);
    let usage = b"showing BOOKFILE";
    if let Some(opened) = open_book(&rt, is_right, usage, &mut book, &mut names) {
        show_book(&rt, opened.book, opened.names);
    }
}
