// Hints for whoever hands over another file than was asked for: what bytes that were refused look
// like. A hint stands behind the sentence of a refusal, and decides nothing.
use crate::line::Line;
use book::BOOK_MARK;
use meaning::NAMING_MARK;

// Whether the byte is a letter, a digit, a sign or a space, as people type them.
fn is_typed(x: u8) -> bool {
    matches!(x, b' '..=b'~')
}

// Whether the bytes begin as a text does. A book's second and third byte count the atoms of a part,
// which are at most 16.
fn begins_as_text(bytes: &[u8]) -> bool {
    3 <= bytes.len() && bytes[..3].iter().all(|x| is_typed(*x))
}

// Behind a refusal of a book: whether a paper or words were handed over in its place.
pub fn put_hint_of_book(book: &[u8], line: &mut Line) {
    if book.ends_with(&NAMING_MARK) {
        line.text(b" (it ends as a paper does: the book comes first)");
    } else if begins_as_text(book) {
        line.text(b" (it begins as words do: docs/FORMAT.md makes a book of them)");
    }
}

// Behind a refusal of a paper: whether a book or words were handed over in its place.
pub fn put_hint_of_paper(paper: &[u8], line: &mut Line) {
    if paper.ends_with(&BOOK_MARK) {
        line.text(b" (it ends as a book does: the paper comes second)");
    } else if !paper.ends_with(&NAMING_MARK) && begins_as_text(paper) {
        line.text(b" (it begins as words do: `naming` writes papers)");
    }
}
