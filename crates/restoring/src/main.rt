// Saves the book of a text that exporting wrote, the same book byte for byte. Nothing is written on a
// refusal, and a book file that was there before stays as it was.
//
//     restoring TEXTFILE BOOKFILE [--replace]
#![tactic(auto)]

use aspif::{Unrestored, restore};
use book::{BOOK_BYTES, read_book};
use meaning::Kind;
use saving::{is_replacing, is_right, save_book};
use std::rt::{Env, Files};
use talk::{Refused, complain, explain, first_bytes, open_call, show_size};

// Room for a text: one byte more than is taken, so that a longer file is refused and not cut.
const ROOM: usize = 200001;

// The arguments that must be there, the program's own name among them.
const MUST: usize = 3;

// Saves the book, and says how many rules and atoms it has.
fn save_restored(rt: &(impl Env + Files + Print), book: &[u8]) {
    let Ok(shape) = read_book(book) else {
        return;
    };
    if save_book(rt, 2, book, is_replacing(rt, MUST)) {
        show_size(rt, b"restored: ", shape);
    }
}

// Saves the text's book, or says why there is none. Every book has room.
fn restore_text(rt: &(impl Env + Files + Print), text: &[u8]) {
    let mut room = [0u8; BOOK_BYTES];
    match restore(text, &mut room) {
        Ok(n) => save_restored(rt, first_bytes(&room, n)),
        Err(Unrestored::Outside) => explain(rt, Refused::plain(34), Kind::Naming, 0),
        Err(Unrestored::NoFit) => explain(rt, Refused::plain(35), Kind::Naming, 0),
    }
}

fn main(rt: HostRuntime) {
    let mut text = [0u8; ROOM];
    let usage = b"restoring TEXTFILE BOOKFILE [--replace]";
    let Some(n) = open_call(&rt, is_right(&rt, MUST), usage, &mut text) else {
        return;
    };
    if n == ROOM {
        complain(&rt, b"the text", b"it has over 200,000 bytes");
        return;
    }
    restore_text(&rt, &text[..n]);
}
