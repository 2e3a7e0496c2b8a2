// What the book's atoms are in the text: a line for each, with the names that the table gives it.
use book::read_book;
use calling::put_whose;
use lparse::collect;
use talk::{Line, show_size};

// Writes the line of the book's atom n.
fn show_atom(rt: &impl Print, text: &[u8], seen: &[u32], n: usize) {
    let mut room = [0u8; 16384];
    let mut line = Line::new(&mut room);
    line.text(b"atom ");
    line.number(n as u64);
    line.text(b":");
    put_whose(text, seen, n, &mut line);
    line.text(b"\n");
    line.print(rt);
}

// Writes a line for each of the book's atoms.
fn show_each(rt: &impl Print, text: &[u8], seen: &[u32], atoms: usize) {
    for n in 0..atoms {
        show_atom(rt, text, seen, n);
    }
}

// Writes a line for each of the atoms of the text's book.
fn show_text(rt: &impl Print, text: &[u8], atoms: usize) {
    let mut seen = [0u32; 255];
    if let Ok(n) = collect(text, &mut seen) {
        show_each(rt, text, &seen[..n], atoms);
    }
}

// Writes how large the book of the text is, and what its atoms are.
pub fn show_atoms(rt: &impl Print, text: &[u8], book: &[u8]) {
    if let Ok(shape) = read_book(book) {
        show_size(rt, b"imported: ", shape);
        show_text(rt, text, shape.atoms as usize);
    }
}
