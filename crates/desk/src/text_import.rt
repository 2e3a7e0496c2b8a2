// `lparse ROOM TEXT`: the book of a text that the grounder wrote, in a buffer of ROOM bytes. Answers
// `book BOOK` or `refused NUMBER [PLACE]`.
use crate::given::{put_made, read_given};
use lparse::{Unimported, import};
use talk::{Line, Refused, first_bytes, put_refused};

// Answers the command; none where its words are not right.
pub fn answer_lparse(words: &[u8], text: &mut [u8], room: &mut [u8], out: &mut Line) -> Option<()> {
    let given = read_given(words, text, room)?;
    let room = &mut room[..given.size];
    match import(&text[..given.count], room) {
        Ok(n) => put_made(b"book ", first_bytes(room, n), out),
        Err(Unimported::Format(place)) => put_refused(Refused::at(30, place), out),
        Err(Unimported::Kind(place)) => put_refused(Refused::at(31, place), out),
        Err(Unimported::NoFit) => put_refused(Refused::plain(32), out),
    }
    Some(())
}
