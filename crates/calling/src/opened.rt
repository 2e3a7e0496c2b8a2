// What opening gives: the book that a program is called with, and what is known of its names.
use meaning::AtomNo;

// Why the call names no atom.
#[derive(Clone, Copy)]
pub enum Unasked {
    // No atom has the name.
    Nobody,
    // Several have it, and none of them is picked.
    Several,
}

// The bytes of the book and those of the names, each at the start of its buffer; whether the words list
// their atoms, and the atom that the call names.
#[derive(Clone, Copy)]
pub struct Opened<'a> {
    pub book: &'a [u8],
    pub names: &'a [u8],
    pub is_listed: bool,
    pub asked: Result<AtomNo, Unasked>,
}

// How many atoms a book has; none where it is too short to say so.
pub fn atoms_of(book: &[u8]) -> u8 {
    match book {
        [.., atoms, _, _, _, _, _] => *atoms,
        _ => 0,
    }
}
