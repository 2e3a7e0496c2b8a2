// `words ROOM TEXT`: the book of rules in words, in a buffer of ROOM bytes, and the names of its atoms.
// Answers `book BOOK NAME NAME ..` or `refused NUMBER [PLACE]`.
use crate::given::{put_made, read_given};
use talk::{Line, Refused, first_bytes, put_refused};
use words::{Unworded, make};

// The names of the atoms, each behind a space: each stands from one place of the text up to another.
fn put_names(text: &[u8], atoms: u8, from: &[usize; 255], to: &[usize; 255], out: &mut Line) {
    for (start, end) in from.iter().zip(to).take(atoms as usize) {
        if let Some(name) = text.get(*start..*end) {
            out.text(b" ");
            out.text(name);
        }
    }
}

// How many atoms a book has; none where it is too short to say so.
fn atoms_of(book: &[u8]) -> u8 {
    if book.len() < 6 {
        return 0;
    }
    book[book.len() - 6]
}

// Asks for the book, and puts what is answered.
fn tell_words(text: &[u8], room: &mut [u8], out: &mut Line) {
    let mut from = [0usize; 255];
    let mut to = [0usize; 255];
    match make(text, room, &mut from, &mut to) {
        Ok(n) => {
            let book = first_bytes(room, n);
            put_made(b"book ", book, out);
            put_names(text, atoms_of(book), &from, &to, out);
        }
        Err(Unworded::Form(place)) => put_refused(Refused::at(40, place), out),
        Err(Unworded::Name(place)) => put_refused(Refused::at(41, place), out),
        Err(Unworded::TooMany(place)) => put_refused(Refused::at(42, place), out),
        Err(Unworded::NoRoom) => put_refused(Refused::plain(43), out),
    }
}

// Answers the command; none where its words are not right.
pub fn answer_words(words: &[u8], text: &mut [u8], room: &mut [u8], out: &mut Line) -> Option<()> {
    let given = read_given(words, text, room)?;
    tell_words(&text[..given.count], &mut room[..given.size], out);
    Some(())
}
