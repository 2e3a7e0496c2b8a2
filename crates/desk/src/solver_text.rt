// `aspif ROOM BOOK`: the book as a text for other solvers, and `unaspif ROOM TEXT`: the book of such a
// text, each in a buffer of ROOM bytes. Answers `text TEXT`, `book BOOK` or `refused NUMBER [PLACE]`.
use crate::given::{put_made, read_given};
use aspif::{Unexported, Unrestored, export, restore};
use talk::{Line, Refused, first_bytes, put_refused};

// Answers `aspif`; none where the command's words are not right.
pub fn answer_aspif(words: &[u8], book: &mut [u8], room: &mut [u8], out: &mut Line) -> Option<()> {
    let given = read_given(words, book, room)?;
    let room = &mut room[..given.size];
    match export(&book[..given.count], room) {
        Ok(n) => put_made(b"text ", first_bytes(room, n), out),
        Err(Unexported::Book(why)) => put_refused(Refused::from(why), out),
        Err(Unexported::NoRoom) => put_refused(Refused::plain(33), out),
    }
    Some(())
}

// The same of `unaspif`.
pub fn answer_unaspif(
    words: &[u8],
    text: &mut [u8],
    room: &mut [u8],
    out: &mut Line,
) -> Option<()> {
    let given = read_given(words, text, room)?;
    let room = &mut room[..given.size];
    match restore(&text[..given.count], room) {
        Ok(n) => put_made(b"book ", first_bytes(room, n), out),
        Err(Unrestored::Outside) => put_refused(Refused::plain(34), out),
        Err(Unrestored::NoFit) => put_refused(Refused::plain(35), out),
    }
    Some(())
}
