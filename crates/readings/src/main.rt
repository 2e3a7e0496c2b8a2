// Lists all readings of the book on standard input, or of rules in words or of a grounder's text, then
// with names.
//
//     readings < BOOKFILE
//     readings --words WORDSFILE
//     readings --text TEXTFILE
#![tactic(auto)]

use calling::{open_at, shift};
use std::rt::{Env, Files};
use system::arg_count;

// Lists the readings of the words or of the text in the file that the second argument names.
fn list_named(rt: &(impl Env + Files + Print)) {
    let mut book = [0u8; talk::BOOK_ROOM];
    let mut names = [0u8; talk::NAMES_ROOM];
    if let Some(opened) = open_at(rt, 1, b"", &mut book, &mut names) {
        listing::list(rt, opened.book, b'\n', opened.names);
    }
}

// Lists the readings of the book on standard input.
fn list_input(rt: &(impl Input + Print)) {
    let mut book = [0u8; talk::BOOK_ROOM];
    if let Some(n) = talk::read_input(rt, &mut book) {
        listing::list(rt, &book[..n], b'\n', b"");
    }
}

fn main(rt: HostRuntime) {
    let count = arg_count(&rt);
    if count == 3 && shift(&rt) == 1 {
        list_named(&rt);
        return;
    }
    if count != 1 {
        talk::complain_of_call(&rt, b"readings < BOOKFILE");
        return;
    }
    list_input(&rt);
}
