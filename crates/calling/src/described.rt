// What the atoms of a grounder's text are called: by the names that the table gives them, `#` and the
// text's number where there is none, and what the helpers are.
use crate::names::put_row;
use imported::TextAtom;
use lparse::{atom_at, free_head, nth_name};
use talk::Line;

// The most names of one atom that are shown.
const MOST_NAMES: usize = 64;

// The k-th name of the atom, if the table has it.
pub fn name_in<'a>(text: &'a [u8], a: TextAtom, k: usize) -> Option<&'a [u8]> {
    let (from, end) = nth_name(text, a, k)?;
    text.get(from..end)
}

// The names of the atom, each behind a space, or `#` and its number in the text where it has none. Each
// name is looked for from the text's start on; a full line ends the search.
fn put_atom(text: &[u8], a: TextAtom, line: &mut Line) {
    for k in 0..MOST_NAMES {
        let Some(name) = name_in(text, a, k) else {
            if k == 0 {
                line.text(b" #");
                line.number(a.0 as u64);
            }
            return;
        };
        line.text(b" ");
        line.name(name);
        if line.room_left() == 0 {
            return;
        }
    }
}

// The j-th helper, counted from 0: that of the j-th head of a choice, which is in a reading exactly
// where the head is out; behind these that of the lists, which no reading has.
fn put_helper(text: &[u8], j: usize, line: &mut Line) {
    match free_head(text, j) {
        Some(head) => {
            line.text(b" #not");
            put_atom(text, head, line);
        }
        None => line.text(b" #never"),
    }
}

// What the book's atom n is in the text, behind a space: one of its atoms, which have the first
// numbers, or a helper.
pub fn put_whose(text: &[u8], seen: &[u32], n: usize, line: &mut Line) {
    if n >= seen.len() {
        put_helper(text, n - seen.len(), line);
    } else if let Some(a) = atom_at(seen, n) {
        put_atom(text, a, line);
    }
}

// Copies what the book's atom is called to its row. What is too long for a row is left out whole, and
// the atom is told by its number alone.
fn put_described_row(text: &[u8], seen: &[u32], a: u8, names: &mut [u8]) {
    let mut room = [0u8; 16384];
    let mut line = Line::new(&mut room);
    put_whose(text, seen, a as usize, &mut line);
    if let [_, called @ ..] = line.as_slice() {
        put_row(called, a, names);
    }
}

// Copies what each of the book's atoms is called to its row.
pub fn put_described(text: &[u8], seen: &[u32], atoms: u8, names: &mut [u8]) {
    for a in 0..atoms {
        put_described_row(text, seen, a, names);
    }
}
