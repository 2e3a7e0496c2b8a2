// Joins the books of two crews into one, the second book's atoms and rules numbered on after the
// first's, and says which of the two have a reading. Nothing is written on a refusal or where a
// search stops, and a book file that was there before stays as it was.
//
//     joining FIRSTBOOK SECONDBOOK BOOKFILE [L1 L2] [--replace]
//
// In the place of FIRSTBOOK and of SECONDBOOK may stand --words WORDSFILE or --text TEXTFILE.
#![tactic(auto)]

mod answer;
mod arguments;

use answer::tell_log;
use arguments::{FIRST, is_right, read_limit, second};
use calling::open_at;
use std::rt::{Env, Files};
use talk::{BOOK_ROOM, NAMES_ROOM, complain_of_call, print};

// Reads the limits of the two searches, and joins the books.
fn join_books<'a>(rt: &(impl Env + Files + Print), first: &'a [u8], second: &'a [u8]) {
    let bad = b"bad limit: L1 and L2 are numbers up to 4294967295\n";
    match (read_limit(rt, 0), read_limit(rt, 1)) {
        (Some(limit), Some(other)) => tell_log(rt, first, second, limit, other),
        _ => print(rt, bad),
    }
}

// Opens the second book, and joins it to the first.
fn join_to(rt: &(impl Env + Files + Print), first: &[u8]) {
    let mut other = [0u8; BOOK_ROOM];
    let mut names = [0u8; NAMES_ROOM];
    let whose = b" in the second book";
    if let Some(opened) = open_at(rt, second(rt), whose, &mut other, &mut names) {
        join_books(rt, first, opened.book);
    }
}

// Opens the first book, and joins the second to it. Names are not told: two crews may give one name to
// two atoms.
fn join_arguments(rt: &(impl Env + Files + Print)) {
    let mut first = [0u8; BOOK_ROOM];
    let mut names = [0u8; NAMES_ROOM];
    if let Some(opened) = open_at(rt, FIRST, b" in the first book", &mut first, &mut names) {
        join_to(rt, opened.book);
    }
}

fn main(rt: HostRuntime) {
    if !is_right(&rt) {
        complain_of_call(
            &rt,
            b"joining FIRSTBOOK SECONDBOOK BOOKFILE [L1 L2] [--replace]",
        );
        return;
    }
    join_arguments(&rt);
}
