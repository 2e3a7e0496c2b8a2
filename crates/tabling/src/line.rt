// The lines of a table, which are gathered in a buffer and written at once.
use counting::{Line as Values, Totals};
use meaning::Colouring;
use talk::Line;

// What parts two words, what ends a line, and whether a book's name stands behind its number.
#[derive(Clone, Copy)]
pub struct Layout {
    pub separator: u8,
    pub line_end: u8,
    pub has_names: bool,
}

// The word behind others.
fn put_word(word: &[u8], separator: u8, line: &mut Line) {
    line.byte(separator);
    line.text(word);
}

// The number behind others.
fn put_value(n: u32, separator: u8, line: &mut Line) {
    line.byte(separator);
    line.number(n as u64);
}

// The values of a book's line, with the counts of its atoms.
fn put_values(values: Values, counts: &[u32; Colouring::ATOMS], separator: u8, line: &mut Line) {
    match values {
        Values::Sets(sets, atoms) => {
            put_word(b"sets", separator, line);
            put_value(sets, separator, line);
            put_word(b"atoms", separator, line);
            for count in &counts[..atoms as usize] {
                put_value(*count, separator, line);
            }
        }
        Values::Without => {
            put_word(b"sets", separator, line);
            put_value(0, separator, line);
        }
        Values::Refused(number) => {
            put_word(b"refused", separator, line);
            put_value(number as u32, separator, line);
        }
    }
}

// Writes a book's line: its number, its name where there are names, and its values. The longest has
// a name of 4,096 bytes and 256 numbers.
pub fn print_book(
    rt: &impl Print,
    number: u64,
    name: &[u8],
    values: Values,
    counts: &[u32; Colouring::ATOMS],
    layout: Layout,
) {
    let mut room = [0u8; 8192];
    let mut line = Line::new(&mut room);
    line.number(number);
    if layout.has_names {
        line.byte(layout.separator);
        line.name(name);
    }
    put_values(values, counts, layout.separator, &mut line);
    line.byte(layout.line_end);
    line.print(rt);
}

// Writes which books have no answer sets, by their numbers; the first book has number 1.
pub fn print_without(rt: &impl Print, without: &[bool; 64], layout: Layout) {
    let mut room = [0u8; 512];
    let mut line = Line::new(&mut room);
    line.text(b"without");
    for (number, is_without) in (1..=64).zip(without) {
        if *is_without {
            put_value(number, layout.separator, &mut line);
        }
    }
    line.byte(layout.line_end);
    line.print(rt);
}

// Writes the totals: the last line of a table.
pub fn print_totals(rt: &impl Print, totals: Totals, layout: Layout) {
    let separator = layout.separator;
    let mut room = [0u8; 128];
    let mut line = Line::new(&mut room);
    line.text(b"certain");
    put_value(totals.certain, separator, &mut line);
    put_word(b"some", separator, &mut line);
    put_value(totals.some, separator, &mut line);
    put_word(b"none", separator, &mut line);
    put_value(totals.none, separator, &mut line);
    put_word(b"of", separator, &mut line);
    put_value(totals.atoms, separator, &mut line);
    line.byte(layout.line_end);
    line.print(rt);
}
