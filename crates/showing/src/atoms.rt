// How many atoms a book has, and which of them have no rule: such an atom is in no reading, and may
// be a slip of the pen.
use book::ReadBook;
use meaning::{Bits, Colouring};
use talk::{Line, put_called};

// The atoms of the book that the table has, each behind a space, or `none`.
fn put_list(names: &[u8], bare: &[bool], line: &mut Line) {
    if !bare.contains(&true) {
        line.text(b" none");
    }
    for (a, is_bare) in (0..255u8).zip(bare) {
        if *is_bare {
            line.text(b" ");
            put_called(names, a, line);
        }
    }
}

// Writes `atoms A, without a rule:`, the atoms without one, and the line end.
pub fn show_atoms(rt: &impl Print, book: &ReadBook, names: &[u8]) {
    let atoms = book.shape.atoms;
    let mut bare = [false; Colouring::ATOMS];
    book.lost_in(&Bits::EMPTY, &mut bare);
    let mut room = [0u8; 67584];
    let mut line = Line::new(&mut room);
    line.text(b"atoms ");
    line.number(atoms as u64);
    line.text(b", without a rule:");
    put_list(names, &bare[..atoms as usize], &mut line);
    line.text(b"\n");
    line.print(rt);
}
