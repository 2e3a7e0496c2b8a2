// `levelsk K L ROOM BOOK`: the level of each rule in the K-th reading's colouring, within L tries, in a
// buffer of ROOM bytes. Answers `levels TRIES l0 l1 ..`, `fewer TRIES SETS RULE`, `limit L` or
// `refused NUMBER [PLACE]`. It names and clears nobody.
use crate::call::read_call;
use crate::find::put_unfound;
use book::read_book;
use talk::{Line, first_bytes};
use walk::levels;

// The levels that stand in the buffer of a good book, each behind a space.
fn put_levels(book: &[u8], bytes: &[u8], out: &mut Line) {
    if let Ok(shape) = read_book(book) {
        for level in first_bytes(bytes, shape.rules as usize) {
            out.text(b" ");
            out.number(*level as u64);
        }
    }
}

// Asks the engine, and puts what it answers.
fn tell_levels(book: &[u8], k: u32, limit: u32, bytes: &mut [u8], out: &mut Line) {
    match levels(book, k, limit, bytes) {
        Ok(tries) => {
            out.text(b"levels ");
            out.number(tries as u64);
            put_levels(book, bytes, out);
        }
        Err(why) => put_unfound(why, out),
    }
}

// Answers the command; none where its words are not right.
pub fn answer_levels(words: &[u8], book: &mut [u8], room: &mut [u8], out: &mut Line) -> Option<()> {
    let call = read_call(words, book, room)?;
    let numbers = call.numbers;
    let bytes = &mut room[..numbers.size];
    tell_levels(
        &book[..call.count],
        numbers.first,
        numbers.limit,
        bytes,
        out,
    );
    Some(())
}
