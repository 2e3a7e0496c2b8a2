// The names on standard input. A line feed ends a name, and the end of the input ends the last one;
// after a last line feed there is no further name.
use crate::turn::{LAYOUT, with_name};
use std::io::IsTerminal;
use std::rt::{Env, Files};
use tabling::{MOST_BOOKS, Table};
use talk::{Line, print};

// Room for 64 names of 4,095 bytes and their line ends, and one byte more, so that a longer input is
// told and not cut.
pub const ROOM: usize = 64 * 4096 + 1;

// Says on standard error how far the work is, where that is a terminal.
fn say_how_far(errors: &(impl IsTerminal + Print), number: usize, count: usize) {
    if !errors.is_terminal() {
        return;
    }
    let mut room = [0u8; 128];
    let mut line = Line::new(&mut room);
    line.text(b"table: book ");
    line.number(number as u64);
    line.text(b" of ");
    line.number(count as u64);
    line.text(b"\n");
    line.print(errors);
}

// Writes the lines of all names.
fn print_books(
    rt: &(impl Env + Files + Print),
    errors: &(impl IsTerminal + Print),
    names: &[u8],
    count: usize,
) {
    let mut table = Table::START;
    for (number, line) in (1..=count).zip(names.split_inclusive(|b| *b == b'\n')) {
        say_how_far(errors, number, count);
        table = with_name(rt, table, line.strip_suffix(b"\n").unwrap_or(line));
    }
    table.end(rt, LAYOUT);
}

// Writes the table, or that there are too many names, before any of them is opened.
pub fn print_table(
    rt: &(impl Env + Files + Print),
    errors: &(impl IsTerminal + Print),
    names: &[u8],
) {
    let count = names.split_inclusive(|b| *b == b'\n').count();
    if MOST_BOOKS < count {
        print(rt, b"refused 36\n");
        return;
    }
    if names.len() == ROOM {
        talk::complain(rt, b"standard input", b"it has over 262,144 bytes");
        return;
    }
    print_books(rt, errors, names, count);
}
