// The line of 12 and 18 where there are names: it tells a reading that speaks against the claim, by its
// number and its atoms, where that is among the first that the walk comes to.
use book::read_book;
use listing::put_named;
use meaning::{AtomNo, Colouring, Kind};
use talk::{Line, put_subject};
use walk::{Page, page};

// How many readings are looked at.
const MOST: u64 = 1000;

// Writes the next reading behind the last one to the row, and gives all tries so far, if there is a
// further one within the limit.
fn next(book: &[u8], limit: u32, tries: u32, last: &[u8], row: &mut [u8]) -> Option<u32> {
    match page(book, limit, tries, last, row) {
        Ok(Page::Whole(more)) => Some(more),
        _ => None,
    }
}

// Copies the row, so that the next reading is that behind it.
fn keep(row: &[u8], last: &mut [u8]) {
    if let Some(kept) = last.get_mut(..row.len()) {
        kept.copy_from_slice(row);
    }
}

// The number of the first reading in which the atom has the byte, its row written; none where none of
// those that are looked at has it.
fn find_against(book: &[u8], limit: u32, a: usize, byte: u8, row: &mut [u8]) -> Option<u64> {
    let mut last = [0u8; Colouring::ATOMS];
    let mut tries = 0;
    for k in 1..=MOST {
        tries = next(book, limit, tries, &last, row)?;
        if row.get(a) == Some(&byte) {
            return Some(k);
        }
        keep(row, &mut last);
    }
    None
}

// What speaks against the claim, in words.
fn put_refuted(kind: Kind, atom: AtomNo, names: &[u8], line: &mut Line) {
    match kind {
        Kind::Naming => {
            line.text(b"refused 12: a reading lacks ");
            put_subject(names, atom.0, line);
            line.text(b": nobody is named");
        }
        Kind::Clearing => {
            line.text(b"refused 18: a reading holds ");
            put_subject(names, atom.0, line);
            line.text(b": nobody is cleared");
        }
    }
}

// The byte of the claimed atom in a reading that speaks against the claim.
fn byte_against(kind: Kind) -> u8 {
    match kind {
        Kind::Naming => 0,
        Kind::Clearing => 1,
    }
}

// Writes that a reading speaks against the claim, and which, in a row with a byte for each atom.
fn tell_against(
    rt: &impl Print,
    book: &[u8],
    kind: Kind,
    atom: AtomNo,
    limit: u32,
    names: &[u8],
    row: &mut [u8],
) {
    let found = find_against(book, limit, atom.0 as usize, byte_against(kind), row);
    let mut room = [0u8; 67584];
    let mut line = Line::new(&mut room);
    put_refuted(kind, atom, names, &mut line);
    if let Some(k) = found {
        line.text(b"; reading ");
        line.number(k);
        line.text(b":");
        put_named(names, row, 1, &mut line);
    }
    line.text(b"\n");
    line.print(rt);
}

// The same of a good book, which says how many atoms there are.
pub fn explain_against(
    rt: &impl Print,
    book: &[u8],
    kind: Kind,
    atom: AtomNo,
    limit: u32,
    names: &[u8],
) {
    let Ok(shape) = read_book(book) else {
        return;
    };
    let n = shape.atoms as usize;
    let mut row = [0u8; Colouring::ATOMS];
    tell_against(rt, book, kind, atom, limit, names, &mut row[..n]);
}
