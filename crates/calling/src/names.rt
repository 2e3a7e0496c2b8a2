// The names of the atoms, as rows for the lines that people are told.
ghost use Rattle.std.specs.Prelude.{◌≡◌};
ghost use Rattle.calling.specs.Rows.{rowed, part_rowed, rows_of};

use talk::NAME_ROOM;

// Copies the name to the atom's row, where there is room for it and a zero.
pub fn put_row(name: &[u8], a: u8, names: &mut [u8])
    ensures { names.new ≡ rowed name.now a names.old }
{
    let at = a as usize * 256;
    if NAME_ROOM <= name.len() {
        return;
    }
    if names.len() < at + name.len() {
        return;
    }
    let end = at + name.len();
    names[at..end].copy_from_slice(name);
}

// Copies the word from one place of the text up to another to the atom's row.
fn put_part(text: &[u8], from: usize, end: usize, a: u8, names: &mut [u8])
    ensures { names.new ≡
        part_rowed text.now from end a names.old }
{
    if end < from {
        return;
    }
    if text.len() < end {
        return;
    }
    put_row(&text[from..end], a, names);
}

// Copies the names, each from its place in the text to its row. What is no name's place has no bytes.
pub fn put_rows(text: &[u8], from: &[usize; 255], to: &[usize; 255], names: &mut [u8])
    ensures { names.new ≡
        rows_of 255 text.now from.now to.now names.old }
{
    for a in 0..255u8 {
        put_part(text, from[a as usize], to[a as usize], a, names);
    }
}
