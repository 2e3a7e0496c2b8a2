// The lines of a text in its plain form: the names, and the rules.
ghost use Rattle.std.specs.Prelude.{◌<◌};

use book::ReadBook;
use meaning::RuleNo;
use talk::{Line, name_of};

// The name of the atom, or x and its number.
fn put_atom(names: &[u8], a: u8, line: &mut Line) {
    let name = name_of(names, a);
    if name.is_empty() {
        line.text(b"x");
        line.number(a as u64);
    } else {
        line.text(name);
    }
}

// The atoms of one part of a body, each behind `if` or `and` and its word; `is_first` tells whether
// the body starts with them.
// Talk's `put_rule` has this loop over atoms with their numbers: one loop for both would take a closure
// over the line, which is no plainer.
fn put_part(names: &[u8], part: &[u8], is_first: bool, word: &[u8], line: &mut Line) {
    for (i, a) in part.iter().enumerate() {
        let joint: &[u8] = if is_first && i == 0 {
            b" if "
        } else {
            b" and "
        };
        line.text(joint);
        line.text(word);
        put_atom(names, *a, line);
    }
}

// Writes the line of a rule. The longest has 33 names, with under 10 bytes before each.
fn show_rule(rt: &impl Print, book: &ReadBook, r: RuleNo, names: &[u8])
    requires { r.0 < book.now.shape.rules }
{
    let mut room = [0u8; 9216];
    let mut line = Line::new(&mut room);
    put_atom(names, book.head(r).0, &mut line);
    let body = book.positives(r);
    put_part(names, body, true, b"", &mut line);
    put_part(
        names,
        book.negatives(r),
        body.is_empty(),
        b"not ",
        &mut line,
    );
    line.text(b"\n");
    line.print(rt);
}

// Writes the line of each rule.
pub fn show_rules(rt: &impl Print, book: &ReadBook, names: &[u8]) {
    for r in 0..book.shape.rules {
        show_rule(rt, book, RuleNo(r), names);
    }
}

// Writes the line that lists the names.
pub fn show_names(rt: &impl Print, atoms: u8, names: &[u8]) {
    let mut room = [0u8; 66560];
    let mut line = Line::new(&mut room);
    line.text(b"atoms:");
    for a in 0..atoms {
        line.text(b" ");
        put_atom(names, a, &mut line);
    }
    line.text(b"\n");
    line.print(rt);
}
