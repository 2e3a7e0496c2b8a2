// Where the book of a call comes from, and how it is opened.
ghost use Rattle.std.specs.Prelude.{◌≤◌, IfSome};
ghost use Rattle.calling.specs.Opened.{FitsIn};

use crate::grounded::open_text;
use crate::opened::{Opened, Unasked};
use crate::worded::open_words;
use std::rt::{Env, Files};
use system::arg;
use talk::{complain_of_call, read_argument};

#[derive(Clone, Copy)]
pub enum Source {
    // The file of a book.
    Book,
    // A file of rules in words, behind `--words`.
    Words,
    // A text that a grounder wrote, behind `--text`.
    Text,
}

// What an argument says of the book that stands in its place.
pub fn source_at(rt: &impl Env, i: usize) -> Source {
    let mut word = [0u8; 16];
    let n = arg(rt, i, &mut word);
    match &word[..n] {
        b"--words" => Source::Words,
        b"--text" => Source::Text,
        _ => Source::Book,
    }
}

// 1 where the argument is `--words` or `--text`, and the others stand one further back; otherwise 0.
pub fn shift_at(rt: &impl Env, i: usize) -> usize
    ensures { result ≤ 1 }
{
    match source_at(rt, i) {
        Source::Book => 0,
        Source::Words | Source::Text => 1,
    }
}

// The same of the first argument.
pub fn shift(rt: &impl Env) -> usize
    ensures { result ≤ 1 }
{
    shift_at(rt, 1)
}

// Opens the book whose place in the call is i: its file, or `--words` or `--text` and the file behind
// it. Where there is none a line says why; `whose` says there which book it is, where there are two.
pub fn open_at<'a>(
    rt: &(impl Env + Files + Print),
    i: usize,
    whose: &[u8],
    book: &'a mut [u8],
    names: &'a mut [u8],
) -> Option<Opened<'a>>
    requires { i ≤ 3 }
    ensures { IfSome result (FitsIn book.old names.old) }
{
    match source_at(rt, i) {
        Source::Book => {
            let n = read_argument(rt, i, book)?;
            Some(Opened {
                book: &book[..n],
                names: b"",
                is_listed: false,
                asked: Err(Unasked::Nobody),
            })
        }
        Source::Words => open_words(rt, i + 1, whose, book, names),
        Source::Text => open_text(rt, i + 1, whose, book, names),
    }
}

// How the programs for people open: where the call is right, the book in the first place of the call
// is opened. Otherwise a line says what is wrong.
pub fn open_book<'a>(
    rt: &(impl Env + Files + Print),
    is_right: bool,
    usage: &[u8],
    book: &'a mut [u8],
    names: &'a mut [u8],
) -> Option<Opened<'a>>
    ensures { IfSome result (FitsIn book.old names.old) }
{
    if !is_right {
        complain_of_call(rt, usage);
        return None;
    }
    open_at(rt, 1, b"", book, names)
}
