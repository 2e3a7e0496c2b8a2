// The turn of a name: its file is a book, or with `--words` or `--text` what a book is made of.
use calling::{Source, TEXT_ROOM, make_quietly, source_at};
use std::rt::{Env, Files};
use tabling::{Layout, Table};
use talk::{BOOK_ROOM, first_bytes, read_quietly};

// Words parted by tabs, as a spreadsheet takes them.
pub const LAYOUT: Layout = Layout {
    separator: b'\t',
    line_end: b'\n',
    has_names: true,
};

// Takes the turn of the book behind the name.
fn with_book(rt: &(impl Files + Print), table: Table, name: &[u8]) -> Table {
    let mut book = [0u8; BOOK_ROOM];
    match read_quietly(rt, name, &mut book) {
        Some(n) => table.with_book(rt, Some(&book[..n]), name, LAYOUT),
        None => table.with_book(rt, None, name, LAYOUT),
    }
}

// Takes the turn of the book of the text.
fn with_made(rt: &impl Print, table: Table, are_words: bool, text: &[u8], name: &[u8]) -> Table {
    let mut book = [0u8; BOOK_ROOM];
    match make_quietly(are_words, text, &mut book) {
        Ok(n) => table.with_book(rt, Some(first_bytes(&book, n)), name, LAYOUT),
        Err(why) => table.with_refused(rt, why.number(), name, LAYOUT),
    }
}

// The same of the text behind the name. One that is longer than what is taken counts as one that
// cannot be read.
fn with_text(rt: &(impl Files + Print), table: Table, are_words: bool, name: &[u8]) -> Table {
    let mut text = [0u8; TEXT_ROOM];
    match read_quietly(rt, name, &mut text) {
        Some(n) if n < TEXT_ROOM => with_made(rt, table, are_words, &text[..n], name),
        _ => table.with_book(rt, None, name, LAYOUT),
    }
}

// Takes the turn of what is behind the name.
pub fn with_name(rt: &(impl Env + Files + Print), table: Table, name: &[u8]) -> Table {
    match source_at(rt, 1) {
        Source::Book => with_book(rt, table, name),
        Source::Words => with_text(rt, table, true, name),
        Source::Text => with_text(rt, table, false, name),
    }
}
