// What may be a slip of the pen: an atom that no rule has as head, and two names that are much alike.
use crate::likeness::{Likeness, compare_names};
use book::ReadBook;
use meaning::AtomNo;
use talk::{Line, count_rules, name_of, put_subject};

// Writes that no rule has the atom as head.
fn show_bare(rt: &impl Print, a: u8, names: &[u8]) {
    let mut room = [0u8; 512];
    let mut line = Line::new(&mut room);
    line.text(b"remark: ");
    put_subject(names, a, &mut line);
    line.text(b" has no rule: it is in no reading\n");
    line.print(rt);
}

// Writes that two names differ only in what `by` says.
fn show_pair(rt: &impl Print, a: u8, b: u8, names: &[u8], by: &[u8]) {
    let mut room = [0u8; 1024];
    let mut line = Line::new(&mut room);
    line.text(b"remark: atoms ");
    line.number(a as u64);
    line.text(b" ");
    line.text(name_of(names, a));
    line.text(b" and ");
    line.number(b as u64);
    line.text(b" ");
    line.text(name_of(names, b));
    line.text(b" differ only in ");
    line.text(by);
    line.text(b"\n");
    line.print(rt);
}

// Writes that the names of two atoms are much alike, where they are.
fn show_likeness(rt: &impl Print, a: u8, b: u8, names: &[u8]) {
    match compare_names(name_of(names, a), name_of(names, b)) {
        Likeness::Far => {}
        Likeness::Signs => show_pair(rt, a, b, names, b"case or signs"),
        Likeness::Letter => show_pair(rt, a, b, names, b"one letter"),
    }
}

// Writes the remarks: first on each atom without a rule, then on each two names that are much alike.
pub fn show_remarks(rt: &impl Print, book: &ReadBook, names: &[u8]) {
    for a in 0..book.shape.atoms {
        if count_rules(book, AtomNo(a)) == 0 {
            show_bare(rt, a, names);
        }
    }
    for a in 0..book.shape.atoms {
        for b in a + 1..book.shape.atoms {
            show_likeness(rt, a, b, names);
        }
    }
}
