// Tells a paper step by step in words, each step with its reason, up to the step that fails; then
// its witness, where that is right. The last line is that of `checking`. The steps are told by
// the checker's own step, so that what is told is what is checked.
//
//     explaining BOOKFILE PAPERFILE
//     explaining --words WORDSFILE PAPERFILE
#![tactic(auto)]

mod branch;
mod lines;
mod paper;
mod reasons;
mod steps;
mod tell;
mod witness;

use book::ReadBook;
use branch::explain_branch;
use calling::{open_book, shift};
use checker::read_trailer;
use meaning::Colouring;
use paper::Paper;
use std::rt::{Env, Files};
use system::arg_count;
use talk::{BOOK_ROOM, NAMES_ROOM, PAPER_ROOM, read_argument, tell_checked};
use witness::explain_grounds;

// The steps from the empty colouring; then the witness, where nothing stands between them.
fn explain_steps(rt: &impl Print, paper: &Paper) {
    if let Ok(end) = explain_branch(rt, paper, 0, 0, Colouring::empty()) {
        if end == paper.trailer.from {
            explain_grounds(rt, paper);
        }
    }
}

// A paper for a good book. Of one whose trailer is refused nothing is told but that.
fn explain_paper(rt: &impl Print, book: ReadBook, names: &[u8], bytes: &[u8]) {
    let Ok(trailer) = read_trailer(book.shape.atoms, bytes) else {
        return;
    };
    let paper = Paper {
        book,
        names,
        bytes,
        trailer,
    };
    explain_steps(rt, &paper);
}

// What is told of the paper, and the line of `checking`. Of a book that is refused nothing is told but
// that.
fn explain(rt: &impl Print, bytes: &[u8], names: &[u8], paper: &[u8]) {
    if let Ok(book) = ReadBook::read(bytes) {
        explain_paper(rt, book, names, paper);
    }
    tell_checked(rt, bytes, names, paper);
}

// Reads the paper, and explains it.
fn explain_argument(rt: &(impl Env + Files + Print), book: &[u8], names: &[u8]) {
    let mut paper = [0u8; PAPER_ROOM];
    if let Some(n) = read_argument(rt, 2 + shift(rt), &mut paper) {
        explain(rt, book, names, &paper[..n]);
    }
}

fn main(rt: HostRuntime) {
    let is_right = arg_count(&rt) == 3 + shift(&rt);
    let mut book = [0u8; BOOK_ROOM];
    let mut names = [0u8; NAMES_ROOM];
    let usage = b"explaining BOOKFILE PAPERFILE";
    if let Some(opened) = open_book(&rt, is_right, usage, &mut book, &mut names) {
        explain_argument(&rt, opened.book, opened.names);
    }
}
