// Reading a whole file, or standard input.
ghost use Rattle.std.specs.Prelude.{IfSome};
ghost use Rattle.system.specs.Counts.{IsPrefixLen};

use crate::line::Line;
use book::BOOK_BYTES;
use meaning::PAPER_BYTES;
use std::env::FillError;
use std::io::Error;
use std::rt::{Env, Files};
use system::{PATH_ROOM, open_read, print, read_full};

// Room for a book: one byte more than the longest has, so that a longer file is refused and not
// cut.
pub const BOOK_ROOM: usize = BOOK_BYTES + 1;

// Room for a paper, likewise.
pub const PAPER_ROOM: usize = PAPER_BYTES + 1;

// Writes `bad file: NAME: WHY` and the line end.
pub fn complain(rt: &impl Print, path: &[u8], why: &[u8]) {
    let mut room = [0u8; 4608];
    let mut line = Line::new(&mut room);
    line.text(b"bad file: ");
    line.name(path);
    line.text(b": ");
    line.text(why);
    line.text(b"\n");
    line.print(rt);
}

// What the system answers where there is no such file, and where it may not be read (ENOENT, EACCES).
const NO_SUCH_FILE: i32 = 2;

const NO_ACCESS: i32 = 13;

// Says in a line why the file cannot be opened.
fn complain_of_opening(rt: &impl Print, path: &[u8], error: Error) {
    match error.raw_os_error() {
        Some(NO_SUCH_FILE) => complain(rt, path, b"there is no such file"),
        Some(NO_ACCESS) => complain(rt, path, b"it may not be read"),
        _ => complain(rt, path, b"it cannot be opened"),
    }
}

// Reads a file from its start, and gives how many bytes then stand at the start of the buffer. None
// where it cannot be read: a line says so.
fn read_file(rt: &(impl Files + Print), path: &[u8], out: &mut [u8]) -> Option<usize>
    ensures { IfSome result (λ n. IsPrefixLen n out.new) }
{
    match open_read(rt, path) {
        Ok(mut file) => {
            let Ok(n) = read_full(&mut file, out) else {
                complain(rt, path, b"it cannot be read");
                return None;
            };
            Some(n)
        }
        Err(error) => {
            complain_of_opening(rt, path, error);
            None
        }
    }
}

// The same, but nothing is said.
pub fn read_quietly(rt: &impl Files, path: &[u8], out: &mut [u8]) -> Option<usize>
    ensures { IfSome result (λ n. IsPrefixLen n out.new) }
{
    let mut file = open_read(rt, path).ok()?;
    read_full(&mut file, out).ok()
}

// Reads standard input. Where it cannot be read a line says so.
pub fn read_input(rt: &(impl Input + Print), out: &mut [u8]) -> Option<usize>
    ensures { IfSome result (λ n. IsPrefixLen n out.new) }
{
    let mut input = rt.reader();
    let Ok(n) = read_full(&mut input, out) else {
        complain(rt, b"standard input", b"it cannot be read");
        return None;
    };
    Some(n)
}

// Reads the file that an argument of the program names. The first argument has number 1.
pub fn read_argument(rt: &(impl Env + Files + Print), i: usize, out: &mut [u8]) -> Option<usize>
    ensures { IfSome result (λ n. IsPrefixLen n out.new) }
{
    let mut path = [0u8; PATH_ROOM];
    match rt.arg(i, &mut path) {
        Ok(n) => read_file(rt, &path[..n], out),
        Err(FillError::NotPresent) => read_file(rt, b"", out),
        Err(FillError::TooLong) => {
            print(rt, b"bad file: its name is too long\n");
            None
        }
    }
}

// Writes `bad call: ` and how the program is called.
pub fn complain_of_call(rt: &impl Print, usage: &[u8]) {
    let mut room = [0u8; 128];
    let mut line = Line::new(&mut room);
    line.text(b"bad call: ");
    line.text(usage);
    line.text(b"\n");
    line.print(rt);
}

// How the programs for people open: where the call is right, the book that its first argument names
// is read. Otherwise a line says what is wrong.
pub fn open_call(
    rt: &(impl Env + Files + Print),
    is_right: bool,
    usage: &[u8],
    book: &mut [u8],
) -> Option<usize>
    ensures { IfSome result (λ n. IsPrefixLen n book.new) }
{
    if !is_right {
        complain_of_call(rt, usage);
        return None;
    }
    read_argument(rt, 1, book)
}
