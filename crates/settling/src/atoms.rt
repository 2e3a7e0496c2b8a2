// The atoms that are true, false and open in the well-founded model.
use listing::put_named;
use talk::Line;

// Writes the word and the atoms that have the byte. The longest line has 255 atoms.
fn show_those(rt: &impl Print, word: &[u8], bytes: &[u8], byte: u8, names: &[u8]) {
    let mut room = [0u8; 67584];
    let mut line = Line::new(&mut room);
    line.text(word);
    put_named(names, bytes, byte, &mut line);
    line.text(b"\n");
    line.print(rt);
}

// Writes a line for each of the three.
pub fn show_atoms(rt: &impl Print, bytes: &[u8], names: &[u8]) {
    show_those(rt, b"true:", bytes, 1, names);
    show_those(rt, b"false:", bytes, 0, names);
    show_those(rt, b"open:", bytes, 2, names);
}
