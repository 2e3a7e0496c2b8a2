// Checks a paper against a book. If it is accepted then, whoever wrote the paper, the book has a
// reading and the atom is in all of them, or, by a paper that clears, in none; or, by a paper that
// says so, the book has no reading.
//
//     checking BOOKFILE PAPERFILE
//     checking --words WORDSFILE PAPERFILE
//     checking --text TEXTFILE PAPERFILE
#![tactic(auto)]

use calling::{open_book, shift};
use std::rt::{Env, Files};
use system::arg_count;
use talk::{BOOK_ROOM, NAMES_ROOM, PAPER_ROOM, read_argument, tell_checked};

// Reads the paper, and checks it.
fn check_argument(rt: &(impl Env + Files + Print), book: &[u8], names: &[u8]) {
    let mut paper = [0u8; PAPER_ROOM];
    if let Some(n) = read_argument(rt, 2 + shift(rt), &mut paper) {
        tell_checked(rt, book, names, &paper[..n]);
    }
}

fn main(rt: HostRuntime) {
    let is_right = arg_count(&rt) == 3 + shift(&rt);
    let mut book = [0u8; BOOK_ROOM];
    let mut names = [0u8; NAMES_ROOM];
    let usage = b"checking BOOKFILE PAPERFILE";
    if let Some(opened) = open_book(&rt, is_right, usage, &mut book, &mut names) {
        check_argument(&rt, opened.book, opened.names);
    }
}
