// Saving a book. An empty file gives way to it, and so does the same book; another book only where
// the call says `--replace`, and what is no book never: a slip in a file's name must not cost
// anybody a file, nor a crew its book.
use crate::argument::take_path;
use crate::place::look_at;
use crate::save::save_file;
use book::read_book;
use std::rt::{Env, Files};
use system::PATH_ROOM;
use talk::{BOOK_ROOM, complain};

// Whether the bytes that stand at the path give way to the book. Where they do not a line says so.
fn gives_way(rt: &impl Print, path: &[u8], old: &[u8], book: &[u8], is_replacing: bool) -> bool {
    if old.is_empty() {
        return true;
    }
    if read_book(old).is_err() {
        complain(rt, path, b"it is there and is no book");
        return false;
    }
    if is_replacing || old == book {
        return true;
    }
    complain(rt, path, b"it is another book; see --replace");
    false
}

// Saves the book at the path where what stands there gives way.
fn save_at(rt: &(impl Files + Print), path: &[u8], book: &[u8], is_replacing: bool) -> bool {
    let mut old = [0u8; BOOK_ROOM];
    let Ok(there) = look_at(rt, path, &mut old) else {
        return false;
    };
    let n = there.unwrap_or(0);
    gives_way(rt, path, &old[..n], book, is_replacing) && save_file(rt, path, there.is_some(), book)
}

// Saves the book in the file that an argument names, and gives whether it is saved; where it is not
// a line says so.
pub fn save_book(
    rt: &(impl Env + Files + Print),
    i: usize,
    book: &[u8],
    is_replacing: bool,
) -> bool {
    let mut path = [0u8; PATH_ROOM];
    let Some(n) = take_path(rt, i, &mut path) else {
        return false;
    };
    save_at(rt, &path[..n], book, is_replacing)
}
