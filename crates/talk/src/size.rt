// How large a book is, as the lines of the programs tell it.
use crate::line::Line;
use book::Shape;

// `rules R atoms A`.
pub fn put_size(shape: Shape, line: &mut Line) {
    line.text(b"rules ");
    line.number(shape.rules as u64);
    line.text(b" atoms ");
    line.number(shape.atoms as u64);
}

// Writes the size of a book behind a word, in a line.
pub fn show_size(rt: &impl Print, word: &[u8], shape: Shape) {
    let mut room = [0u8; 64];
    let mut line = Line::new(&mut room);
    line.text(word);
    put_size(shape, &mut line);
    line.text(b"\n");
    line.print(rt);
}
