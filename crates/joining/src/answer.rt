// What joining answers, in one line.
use crate::arguments::{is_to_replace, saved};
use book::{BOOK_BYTES, read_book};
use crews::{Logged, Unlogged, log};
use meaning::{Colouring, Kind};
use saving::save_book;
use std::rt::{Env, Files};
use talk::{Line, Refused, explain, explain_book_of, first_bytes, put_size};
use walk::{Unfound, find};

// Saves the joined book, and says so where it could be saved; `has` says which of the two have a
// reading.
fn tell_joined(rt: &(impl Env + Files + Print), book: &[u8], has: &[u8]) {
    let Ok(shape) = read_book(book) else {
        return;
    };
    if !save_book(rt, saved(rt), book, is_to_replace(rt)) {
        return;
    }
    let mut room = [0u8; 128];
    let mut line = Line::new(&mut room);
    line.text(b"joined: ");
    put_size(shape, &mut line);
    line.text(b"; ");
    line.text(has);
    line.text(b"\n");
    line.print(rt);
}

// Saves the joined book, and says which of the two have a reading.
fn tell_logged(rt: &(impl Env + Files + Print), logged: Logged, room: &[u8]) {
    let both = b"both books have a reading";
    let not_first = b"the first book has no reading: nothing is certain";
    let not_second = b"the second book has no reading: nothing is certain";
    let neither = b"neither book has a reading: nothing is certain";
    match logged {
        Logged::Both(n) => tell_joined(rt, first_bytes(room, n), both),
        Logged::NoneInFirst(n) => tell_joined(rt, first_bytes(room, n), not_first),
        Logged::NoneInSecond(n) => tell_joined(rt, first_bytes(room, n), not_second),
        Logged::NoneInEither(n) => tell_joined(rt, first_bytes(room, n), neither),
    }
}

// Whether the search in the first book passes its limit. The log tells the limit alone, and both
// may have the same.
fn is_first(first: &[u8], limit: u32) -> bool {
    let mut row = [0u8; Colouring::ATOMS];
    matches!(find(first, 1, limit, &mut row), Err(Unfound::Stopped(_)))
}

// Says after how many tries the log stopped, and in which book the search passed its limit.
fn tell_stopped(rt: &impl Print, first: &[u8], limit: u32, tries: u32) {
    let whose: &[u8] = if is_first(first, limit) {
        b"first"
    } else {
        b"second"
    };
    let mut room = [0u8; 128];
    let mut line = Line::new(&mut room);
    line.text(b"stopped after ");
    line.number(tries as u64);
    line.text(b" tries in the ");
    line.text(whose);
    line.text(b" book: this says nothing about anyone\n");
    line.print(rt);
}

// Asks the engine, and writes what it answers.
pub fn tell_log<'a>(
    rt: &(impl Env + Files + Print),
    first: &'a [u8],
    second: &'a [u8],
    limit: u32,
    other: u32,
) {
    let mut room = [0u8; BOOK_BYTES];
    match log(first, second, limit, other, &mut room) {
        Ok(logged) => tell_logged(rt, logged, &room),
        Err(Unlogged::Stopped(tries)) => tell_stopped(rt, first, limit, tries),
        Err(Unlogged::First(why)) => explain_book_of(rt, why, b" in the first book", first),
        Err(Unlogged::Second(why)) => explain_book_of(rt, why, b" in the second book", second),
        Err(Unlogged::TooMany) => explain(rt, Refused::plain(17), Kind::Naming, 0),
        Err(Unlogged::NoRoom) => explain(rt, Refused::plain(19), Kind::Naming, 0),
    }
}
