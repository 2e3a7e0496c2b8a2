// `levels BOOK`: what the first closing settles. Answers `levels on r.. off r.. true a.. false a..`, with
// the rules that are on and off and the atoms that are true and false before any choice, or
// `refused NUMBER PLACE`. It names and clears nobody.
use book::read_book;
use closing::{Unsettled, settle};
use listing::put_places;
use talk::{Line, Refused, first_bytes, put_refused, read_bytes};

// A word and the places of the row that say 1, then another word and those that say 0.
fn put_row(ones: &[u8], zeros: &[u8], row: &[u8], out: &mut Line) {
    out.text(ones);
    put_places(row, 1, out);
    out.text(zeros);
    put_places(row, 0, out);
}

// The rules' words and the atoms' words, from the bytes that settling wrote for a good book.
fn put_settled(book: &[u8], bytes: &[u8], out: &mut Line) -> Option<()> {
    let shape = read_book(book).ok()?;
    let n = shape.rules as usize;
    let m = n + shape.atoms as usize;
    if bytes.len() < m {
        return None;
    }
    put_row(b"levels on", b" off", first_bytes(bytes, n), out);
    put_row(b" true", b" false", &bytes[n..m], out);
    Some(())
}

// Answers the command; none where its word is not right. All of the room is lent, which is enough for
// any book.
pub fn answer_settled(
    words: &[u8],
    book: &mut [u8],
    room: &mut [u8],
    out: &mut Line,
) -> Option<()> {
    let n = read_bytes(words, book)?;
    let book = &book[..n];
    match settle(book, room) {
        Ok(()) => return put_settled(book, room, out),
        Err(Unsettled::Book(why)) => put_refused(Refused::from(why), out),
        Err(Unsettled::NoRoom) => put_refused(Refused::plain(8), out),
    }
    Some(())
}
