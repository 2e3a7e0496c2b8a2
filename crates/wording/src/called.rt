// What the atoms x0, x1 and so on are called in a grounder's text, in lines that say nothing in words.
use talk::{Line, name_of};

// Writes what the atom is called.
fn show_one(rt: &impl Print, a: u8, name: &[u8]) {
    let mut room = [0u8; 512];
    let mut line = Line::new(&mut room);
    line.text(b"# x");
    line.number(a as u64);
    line.text(b" ");
    line.text(name);
    line.text(b"\n");
    line.print(rt);
}

// Writes what each atom is called, where it is told.
pub fn show_called(rt: &impl Print, atoms: u8, names: &[u8]) {
    for a in 0..atoms {
        let name = name_of(names, a);
        if !name.is_empty() {
            show_one(rt, a, name);
        }
    }
}
