// The size of the book and a line for each atom: its name, how many rules have it as head, and how
// many use it.
ghost use Rattle.std.specs.Prelude.{◌<◌};

use book::ReadBook;
use meaning::{AtomNo, RuleNo};
use talk::{Line, count_rules, name_of, show_size};

// Whether the rule's body has the atom.
fn is_using(book: &ReadBook, r: RuleNo, a: u8) -> bool
    requires { r.0 < book.now.shape.rules }
{
    book.positives(r).contains(&a) || book.negatives(r).contains(&a)
}

// How many rules have the atom in their bodies.
fn count_uses(book: &ReadBook, a: u8) -> usize {
    let rules = 0..book.shape.rules;
    rules.filter(|r| is_using(book, RuleNo(*r), a)).count()
}

// Writes the line of an atom.
fn show_atom(rt: &impl Print, book: &ReadBook, a: u8, names: &[u8]) {
    let mut room = [0u8; 512];
    let mut line = Line::new(&mut room);
    line.text(b"atom ");
    line.number(a as u64);
    line.text(b": ");
    line.text(name_of(names, a));
    line.text(b"; rules ");
    line.number(count_rules(book, AtomNo(a)) as u64);
    line.text(b"; used ");
    line.number(count_uses(book, a) as u64);
    line.text(b"\n");
    line.print(rt);
}

// Writes the size, and a line for each atom.
pub fn show_atoms(rt: &impl Print, book: &ReadBook, names: &[u8]) {
    show_size(rt, b"made: ", book.shape);
    for a in 0..book.shape.atoms {
        show_atom(rt, book, a, names);
    }
}
