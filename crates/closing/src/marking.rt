// The support set V, found in sweeps over the rules, with marks and the table of the heads of marked
// rules. Nothing else is kept: a rule that waits is asked again from its first positive atom.
ghost use Rattle.std.specs.Prelude.{◌≡◌, ◌<◌};
ghost use Rattle.meaning.specs.Books.{count};
ghost use Rattle.meaning.specs.Colours.{heads};
ghost use Rattle.meaning.specs.Computed.{support};
ghost use Rattle.meaning.specs.Bits.{listed};
ghost use Rattle.meaning.specs.Written.{of};
ghost use Rattle.book.specs.ReadBook.{the_book};
ghost use Rattle.book.specs.Tables.{atom_table};
ghost use Rattle.closing.specs.Growing.{Turn, Pass};
ghost use Rattle.closing.specs.Conditions.{marking};

use book::{ReadBook, every_in};
use meaning::{Bits, Colouring, RuleNo};

// One rule's turn: a rule that is neither marked nor off is marked if its positive atoms are all
// heads of marked rules. The table of these heads goes with the marks.
fn try_rule(
    book: &ReadBook,
    r: RuleNo,
    off: &Bits,
    marks: &mut Bits,
    supported: &mut [bool; Colouring::ATOMS],
    more: bool,
) -> bool
    requires { (r.0 < book.now.shape.rules)
        × (supported.old ≡ atom_table (heads (the_book book.now) (of (listed marks.old.w)))) }
    ensures { Turn (marking (the_book book.now) (of (listed off.now.w))) r
        (listed marks.old.w) more (listed marks.new.w) result
        × (supported.new ≡
        atom_table (heads (the_book book.now) (of (listed marks.new.w)))) }
{
    if marks.has(r.0) {
        return more;
    }
    if off.has(r.0) {
        return more;
    }
    if !every_in(book.positives(r), supported) {
        return more;
    }
    marks.put(r.0);
    let a = book.head(r).0 as usize;
    supported[a] = true;
    true
}

// Every rule's turn, in order; whether a rule was marked.
fn sweep(
    book: &ReadBook,
    off: &Bits,
    marks: &mut Bits,
    supported: &mut [bool; Colouring::ATOMS],
) -> bool
    requires { supported.old ≡ atom_table (heads (the_book book.now) (of (listed marks.old.w))) }
    ensures { Pass (the_book book.now)
        (marking (the_book book.now) (of (listed off.now.w)))
        (count (the_book book.now))
        (listed marks.old.w) (listed marks.new.w) result
        × (supported.new ≡
        atom_table (heads (the_book book.now) (of (listed marks.new.w)))) }
{
    let mut more = false;
    for r in 0..book.shape.rules {
        more = try_rule(book, RuleNo(r), off, marks, supported, more);
    }
    more
}

// Writes the smallest set of rules in which is every rule that is not off and whose positive atoms
// are all heads of its rules, over whatever the marks held.
pub fn support(book: &ReadBook, off: &Bits, marks: &mut Bits)
    ensures { listed marks.new.w ≡
        support (the_book book.now) (of (listed off.now.w)) }
{
    *marks = Bits::EMPTY;
    let mut supported = [false; Colouring::ATOMS];
    loop {
        if !sweep(book, off, marks, &mut supported) {
            return;
        }
    }
}
