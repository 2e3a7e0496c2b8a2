// The line of a reading with the names of its atoms, for people.
use talk::{Line, put_called};

// A space and the atom, by its name and number where there are names, for each atom of the row that has
// the byte asked for.
pub fn put_named(names: &[u8], row: &[u8], asked: u8, line: &mut Line) {
    for (a, byte) in (0..255).zip(row) {
        if *byte == asked {
            line.text(b" ");
            put_called(names, a, line);
        }
    }
}

// Writes the line of a reading. The longest has 255 atoms.
pub fn print_line(rt: &impl Print, n: u64, row: &[u8], names: &[u8]) {
    let mut room = [0u8; 67584];
    let mut line = Line::new(&mut room);
    line.number(n);
    line.text(b":");
    put_named(names, row, 1, &mut line);
    line.text(b"\n");
    line.print(rt);
}
