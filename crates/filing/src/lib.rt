// What the programs share that write a paper to a file: their arguments, what gives way to the
// paper, and their lines. Stands on writer, checker, saving and talk.
//
//     BOOKFILE ATOM PAPERFILE [LIMIT] [--replace]     of naming and clearing
//     BOOKFILE PAPERFILE [LIMIT] [--replace]          of contradicting, whose paper is about no atom
//
// and --words WORDSFILE or --text TEXTFILE in the place of BOOKFILE.
#![tactic(auto)]

mod against;
mod answer;
mod arguments;
mod atom;
mod giving_way;

use answer::tell_named;
use arguments::{WITH_ATOM, WITHOUT_ATOM, is_right, read_limit};
use atom::take_atom;
use calling::open_book;
use meaning::{Claim, Kind, PAPER_BYTES};
use std::rt::{Env, Files};
use talk::{BOOK_ROOM, NAMES_ROOM, print};

// Reads the limit, and asks for the paper.
fn file_claim(rt: &(impl Env + Files + Print), book: &[u8], claim: Claim, names: &[u8]) {
    let Some(limit) = read_limit(rt, claim) else {
        print(rt, b"bad limit: LIMIT is a number up to 4294967295\n");
        return;
    };
    let mut paper = [0u8; PAPER_BYTES];
    tell_named(rt, book, claim, limit, names, &mut paper);
}

// How the program that writes papers of this kind is called.
fn usage(kind: Kind) -> &'static [u8] {
    match kind {
        Kind::Naming => b"naming BOOKFILE ATOM PAPERFILE [LIMIT] [--replace]",
        Kind::Clearing => b"clearing BOOKFILE ATOM PAPERFILE [LIMIT] [--replace]",
    }
}

// Writes the paper of this kind about an atom, as the arguments of the program say, and a line on
// it. Nothing is written on a refusal, and a paper file that was there before stays as it was.
pub fn file_paper(rt: &(impl Env + Files + Print), kind: Kind) {
    let mut book = [0u8; BOOK_ROOM];
    let mut names = [0u8; NAMES_ROOM];
    let is_right = is_right(rt, WITH_ATOM);
    let Some(opened) = open_book(rt, is_right, usage(kind), &mut book, &mut names) else {
        return;
    };
    if let Some(atom) = take_atom(rt, opened.names, opened.asked) {
        file_claim(rt, opened.book, Claim::About(kind, atom), opened.names);
    }
}

// The same of the paper that the book has no reading.
pub fn file_no_reading(rt: &(impl Env + Files + Print)) {
    let mut book = [0u8; BOOK_ROOM];
    let mut names = [0u8; NAMES_ROOM];
    let is_right = is_right(rt, WITHOUT_ATOM);
    let usage = b"contradicting BOOKFILE PAPERFILE [LIMIT] [--replace]";
    if let Some(opened) = open_book(rt, is_right, usage, &mut book, &mut names) {
        file_claim(rt, opened.book, Claim::NoReading, opened.names);
    }
}
