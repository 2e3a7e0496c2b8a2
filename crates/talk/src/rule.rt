// One rule in words, as `rule 2: 0 if 3 and not 1`, or with a word for it, as `rule 2 off: 0 if 3 and
// not 1`; where there are names, each atom by its name and number.
ghost use Rattle.std.specs.Prelude.{◌≡◌, ◌<◌};
ghost use Rattle.book.specs.ReadBook.{the_book};
ghost use Rattle.talk.specs.Counts.{rules_with};

use crate::line::Line;
use crate::name::put_called;
use book::ReadBook;
use meaning::{AtomNo, RuleNo};

// The atoms of one part of a body, each behind `word`; `is_first` tells whether the body starts
// with them. `if` stands before the first atom of a body and `and` before every other.
fn put_part(names: &[u8], part: &[u8], is_first: bool, word: &[u8], line: &mut Line) {
    for (i, atom) in part.iter().enumerate() {
        let joint = if is_first && i == 0 {
            b" if ".as_slice()
        } else {
            b" and ".as_slice()
        };
        line.text(joint);
        line.text(word);
        put_called(names, *atom, line);
    }
}

// The rule in words: its head, and its body where it has one.
pub fn put_rule(book: &ReadBook, r: RuleNo, names: &[u8], line: &mut Line)
    requires { r.0 < book.now.shape.rules }
{
    put_called(names, book.head(r).0, line);
    let body = book.positives(r);
    put_part(names, body, true, b"", line);
    let others = book.negatives(r);
    put_part(names, others, body.is_empty(), b"not ", line);
}

// Writes the rule, with the word behind its number, and the line end. The longest line has 33
// atoms, under 14 bytes and a name each.
pub fn show_rule(rt: &impl Print, book: &ReadBook, r: RuleNo, word: &[u8], names: &[u8])
    requires { r.0 < book.now.shape.rules }
{
    let mut room = [0u8; 9216];
    let mut line = Line::new(&mut room);
    line.text(b"rule ");
    line.number(r.0 as u64);
    line.text(word);
    line.text(b": ");
    put_rule(book, r, names, &mut line);
    line.text(b"\n");
    line.print(rt);
}

// How many rules of the book have the atom as head.
pub fn count_rules(book: &ReadBook, a: AtomNo) -> usize
    ensures { result ≡ rules_with a (the_book book.now) }
{
    let rules = 0..book.shape.rules;
    rules.filter(|r| book.head(RuleNo(*r)) == a).count()
}
