// The starts of propagation: which atoms are newly true or newly lost, and which rules have to be
// looked at. Of a pair of which nothing is known that is every true atom, every lost atom and every
// rule. Where nothing followed before rules were put on or off, only their heads can be new.
ghost use Rattle.std.specs.Prelude.{◌≡◌, ◌&&◌, ◌||◌, ◌<◌, ltb};
ghost use Rattle.meaning.specs.Books.{same_atom};
ghost use Rattle.meaning.specs.Bits.{listed};
ghost use Rattle.meaning.specs.Written.{of, lent, coloured, colour};
ghost use Rattle.meaning.specs.Colours.{side_of, Under};
ghost use Rattle.meaning.specs.Propagation.{Propagated, propagate};
ghost use Rattle.book.specs.ReadBook.{the_book};
ghost use Rattle.book.specs.RuleRows.{headed_by, lost_by};
ghost use Rattle.closing.specs.News.{atom_set};
ghost use Rattle.closing.specs.Taken.{puts, Puts};

use crate::choice::Choice;
use crate::propagation::{lost_heads, note, propagate_from, rise};
use book::RowedBook;
use meaning::{AtomNo, Bits, RuleNo, Side};

// The atom is put in the one set if it is the head of an on rule, in the other if all its rules are
// off.
fn note_atom(rowed: &RowedBook, a: AtomNo, on: &Bits, off: &Bits, nt: &mut Bits, nl: &mut Bits)
    ensures { (atom_set nt.new.w ≡ (λ x. atom_set nt.old.w x
        || (same_atom a x && headed_by rowed.now.rows on.now.w x)))
        × (atom_set nl.new.w ≡ (λ x. atom_set nl.old.w x
        || (same_atom a x && lost_by rowed.now.rows off.now.w x))) }
{
    note(rowed.is_headed(a, on), a, nt);
    note(rowed.is_lost(a, off), a, nl);
}

// Writes the true ones and the lost ones of the book's atoms.
pub fn begin(rowed: &RowedBook, on: &Bits, off: &Bits, nt: &mut Bits, nl: &mut Bits)
    ensures { (atom_set nt.new.w ≡ (λ x.
        ltb x.0 rowed.now.book.shape.atoms && headed_by rowed.now.rows on.now.w x))
        × (atom_set nl.new.w ≡ (λ x.
        ltb x.0 rowed.now.book.shape.atoms && lost_by rowed.now.rows off.now.w x)) }
{
    *nt = Bits::EMPTY;
    *nl = Bits::EMPTY;
    for a in 0..rowed.book.shape.atoms {
        note_atom(rowed, AtomNo(a), on, off, nt, nl);
    }
}

// Adds to the two sets what follows from them without support, and nothing else.
pub fn propagate(rowed: &RowedBook, on: &mut Bits, off: &mut Bits)
    ensures { (listed on.new.w ≡ (propagate (the_book rowed.now.book)
        (coloured (listed on.old.w) (listed off.old.w))).on)
        × (listed off.new.w ≡ (propagate (the_book rowed.now.book)
        (coloured (listed on.old.w) (listed off.old.w))).off) }
{
    let mut nt = Bits::EMPTY;
    let mut nl = Bits::EMPTY;
    begin(rowed, on, off, &mut nt, &mut nl);
    propagate_from(rowed, nt, nl, Bits::below(rowed.book.shape.rules), on, off);
}

// The same where nothing followed from the sets as they were before more rules were put off.
pub fn propagate_dropped(rowed: &RowedBook, before: &Bits, on: &mut Bits, off: &mut Bits)
    requires { Propagated (the_book rowed.now.book) (lent (listed on.old.w) (listed before.now.w))
        × Under (the_book rowed.now.book) (of (listed before.now.w)) (of (listed off.old.w)) }
    ensures { (listed on.new.w ≡ (propagate (the_book rowed.now.book)
        (coloured (listed on.old.w) (listed off.old.w))).on)
        × (listed off.new.w ≡ (propagate (the_book rowed.now.book)
        (coloured (listed on.old.w) (listed off.old.w))).off) }
{
    let fresh = off.difference(*before);
    let mut nl = Bits::EMPTY;
    lost_heads(rowed, &fresh, off, &mut nl);
    propagate_from(rowed, Bits::empty(), nl, Bits::empty(), on, off);
}

// The same where nothing followed from the sets, and the rule is put on that side.
pub fn propagate_put(rowed: &RowedBook, side: Side, r: RuleNo, on: &mut Bits, off: &mut Bits)
    requires { (r.0 < rowed.now.book.shape.rules)
        × Propagated (the_book rowed.now.book) (lent (listed on.old.w) (listed off.old.w)) }
    ensures { (listed on.new.w ≡ (propagate (the_book rowed.now.book)
        (colour (side_of side) r (coloured (listed on.old.w) (listed off.old.w)))).on)
        × (listed off.new.w ≡ (propagate (the_book rowed.now.book)
        (colour (side_of side) r (coloured (listed on.old.w) (listed off.old.w)))).off) }
{
    match side {
        Side::On => {
            let mut nt = Bits::EMPTY;
            rise(rowed, r, on, &mut nt);
            let newly_true = nt;
            propagate_from(rowed, newly_true, Bits::empty(), Bits::empty(), on, off);
        }
        Side::Off => {
            let before = *off;
            off.put(r.0);
            propagate_dropped(rowed, &before, on, off);
        }
    }
}

// Adds to the two sets, with the choice taken, what follows from them without support, and nothing
// else. Where a rule is chosen and nothing followed before, only what the rule brings is looked at.
pub fn propagate_chosen(rowed: &RowedBook, choice: Choice, on: &mut Bits, off: &mut Bits)
    requires { Puts (the_book rowed.now.book) (lent (listed on.old.w) (listed off.old.w)) choice }
    ensures { (listed on.new.w ≡ (propagate (the_book rowed.now.book)
        (puts choice (coloured (listed on.old.w) (listed off.old.w)))).on)
        × (listed off.new.w ≡ (propagate (the_book rowed.now.book)
        (puts choice (coloured (listed on.old.w) (listed off.old.w)))).off) }
{
    match choice {
        Choice::Nothing => propagate(rowed, on, off),
        Choice::On(r) => propagate_put(rowed, Side::On, r, on, off),
        Choice::Off(r) => propagate_put(rowed, Side::Off, r, on, off),
    }
}
