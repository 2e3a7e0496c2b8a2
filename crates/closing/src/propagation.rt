// Propagation: closing without support, driven by what is new. Three sets say what has still to be
// looked at: the atoms newly true, the atoms newly lost, and the rules that may go on because of one
// or the other. The new atoms put off the rules that they block or starve; when no atom is newly
// lost, the candidates have their look, and those that go on make atoms newly true.
ghost use Rattle.std.specs.Prelude.{◌≡◌, true, ◌&&◌, ◌||◌, ◌+◌, ◌<◌, set};
ghost use Rattle.meaning.specs.Books.{rule, same_atom};
ghost use Rattle.meaning.specs.Bits.{none, plus, members, listed};
ghost use Rattle.meaning.specs.Written.{of, lent, coloured};
ghost use Rattle.meaning.specs.Colours.{heads, all_in};
ghost use Rattle.meaning.specs.Propagation.{propagate};
ghost use Rattle.meaning.specs.Pending.{Pending, newly_true};
ghost use Rattle.book.specs.ReadBook.{the_book};
ghost use Rattle.book.specs.RuleRows.{sets};
ghost use Rattle.closing.specs.News.{atom_set, rows_below, Fallen, Looked, Raised};

use book::RowedBook;
use meaning::{AtomNo, Bits, RuleNo};

// Joins the atom's row of negative places into the one set of rules, its row of positive places into
// the other.
fn join_rows(rowed: &RowedBook, a: AtomNo, by_neg: &mut Bits, by_pos: &mut Bits)
    ensures { (members by_neg.new.w ≡
        plus (members by_neg.old.w) (sets rowed.now.rows (512 + a.0)))
        × (members by_pos.new.w ≡
        plus (members by_pos.old.w) (sets rowed.now.rows (256 + a.0))) }
{
    by_neg.join(rowed.neg_row(a));
    by_pos.join(rowed.pos_row(a));
}

// The same for each atom of a set, in one pass: the atoms are not walked once for each kind of row.
fn spread(rowed: &RowedBook, atoms: &Bits, by_neg: &mut Bits, by_pos: &mut Bits)
    ensures { (members by_neg.new.w ≡ plus (members by_neg.old.w)
        (rows_below rowed.now.rows 512 (members atoms.now.w) 256))
        × (members by_pos.new.w ≡ plus (members by_pos.old.w)
        (rows_below rowed.now.rows 256 (members atoms.now.w) 256)) }
{
    let mut a = atoms.next_in(0);
    while a < 256 {
        join_rows(rowed, AtomNo(a as u8), by_neg, by_pos);
        a = atoms.next_in(a + 1);
    }
}

// Puts the atom in the set if so told.
pub fn note(told: bool, a: AtomNo, set: &mut Bits)
    ensures { atom_set set.new.w ≡
        (λ x. atom_set set.old.w x || (told && same_atom a x)) }
{
    if !told {
        return;
    }
    set.put(a.0);
}

// The rule's head is put in the set if all its rules are off.
pub fn note_lost(rowed: &RowedBook, r: RuleNo, off: &Bits, lost: &mut Bits)
    requires { r.0 < rowed.now.book.shape.rules }
    ensures { atom_set lost.new.w ≡ (λ a. atom_set lost.old.w a
        || (same_atom (rule (the_book rowed.now.book) r).head a
        && all_in (the_book rowed.now.book) (of (listed off.now.w)) a)) }
{
    let a = rowed.book.head(r);
    note(rowed.is_lost(a, off), a, lost);
}

// Writes the heads of the rules of the set all of whose rules are off.
pub fn lost_heads(rowed: &RowedBook, fresh: &Bits, off: &Bits, lost: &mut Bits)
    ensures { atom_set lost.new.w ≡ (λ a.
        heads (the_book rowed.now.book) (of (listed fresh.now.w)) a
        && all_in (the_book rowed.now.book) (of (listed off.now.w)) a) }
{
    *lost = Bits::EMPTY;
    let end = rowed.book.shape.rules as usize;
    let mut r = fresh.next_in(0);
    while r < end {
        note_lost(rowed, RuleNo(r as u8), off, lost);
        r = fresh.next_in(r + 1);
    }
}

// The new atoms put off what they block or starve, and call what may go on because of them.
fn fall(rowed: &RowedBook, off: &mut Bits, nt: &mut Bits, nl: &mut Bits, cand: &mut Bits)
    ensures { Fallen (the_book rowed.now.book) (of (listed off.old.w))
        (atom_set nt.old.w) (atom_set nl.old.w) (of (listed cand.old.w))
        (of (listed off.new.w)) (atom_set nt.new.w) (atom_set nl.new.w)
        (of (listed cand.new.w)) }
{
    let mut hit = Bits::EMPTY;
    spread(rowed, nt, &mut hit, cand);
    spread(rowed, nl, cand, &mut hit);
    *nt = Bits::EMPTY;
    let fresh = hit.difference(*off);
    off.join(hit);
    lost_heads(rowed, &fresh, off, nl);
}

// The rule goes on, and its head is new unless it was true.
pub fn rise(rowed: &RowedBook, r: RuleNo, on: &mut Bits, nt: &mut Bits)
    requires { r.0 < rowed.now.book.shape.rules }
    ensures { (listed on.new.w ≡ set (listed on.old.w) r.0 true)
        × (atom_set nt.new.w ≡ newly_true (the_book rowed.now.book) r
        (of (listed on.old.w)) (atom_set nt.old.w)) }
{
    let a = rowed.book.head(r);
    note(!rowed.is_headed(a, on), a, nt);
    on.put(r.0);
}

// A candidate has its look: if it may go on it goes on.
fn look_at(rowed: &RowedBook, r: RuleNo, off: &Bits, on: &mut Bits, nt: &mut Bits)
    requires { r.0 < rowed.now.book.shape.rules }
    ensures { Looked (the_book rowed.now.book) (of (listed off.now.w)) r
        (of (listed on.old.w)) (atom_set nt.old.w)
        (of (listed on.new.w)) (atom_set nt.new.w) }
{
    if !rowed.may_go_on(r, on, off) {
        return;
    }
    rise(rowed, r, on, nt);
}

// Every candidate that is not on has its look, in order; none is left.
fn raise(rowed: &RowedBook, off: &Bits, cand: &mut Bits, on: &mut Bits, nt: &mut Bits)
    ensures { Raised (the_book rowed.now.book) (of (listed off.now.w))
        (of (listed cand.old.w)) (of (listed on.old.w)) (atom_set nt.old.w)
        (of (listed cand.new.w)) (of (listed on.new.w)) (atom_set nt.new.w)
        × (members cand.new.w ≡ none) }
{
    let todo = cand.difference(*on);
    *cand = Bits::EMPTY;
    let end = rowed.book.shape.rules as usize;
    let mut r = todo.next_in(0);
    while r < end {
        look_at(rowed, RuleNo(r as u8), off, on, nt);
        r = todo.next_in(r + 1);
    }
}

// Adds to the two sets what follows from them without support, and nothing else, where all has been
// looked at but for the atoms newly true, the atoms newly lost and the candidates that are handed in.
pub fn propagate_from(
    rowed: &RowedBook,
    newly_true: Bits,
    newly_lost: Bits,
    candidates: Bits,
    on: &mut Bits,
    off: &mut Bits,
)
    requires { Pending (the_book rowed.now.book) (lent (listed on.old.w) (listed off.old.w))
        (atom_set newly_true.w) (atom_set newly_lost.w) (of (listed candidates.w)) }
    ensures { (listed on.new.w ≡ (propagate (the_book rowed.now.book)
        (coloured (listed on.old.w) (listed off.old.w))).on)
        × (listed off.new.w ≡ (propagate (the_book rowed.now.book)
        (coloured (listed on.old.w) (listed off.old.w))).off) }
{
    let mut nt = newly_true;
    let mut nl = newly_lost;
    let mut cand = candidates;
    loop {
        fall(rowed, off, &mut nt, &mut nl, &mut cand);
        if nl.is_within(Bits::empty()) {
            raise(rowed, off, &mut cand, on, &mut nt);
            if nt.is_within(Bits::empty()) {
                return;
            }
        }
    }
}
