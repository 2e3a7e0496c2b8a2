// The suspects: which rules may have lost their support since some rules went off. They are found by
// what is new: a rule that stands on the head of a rule that went off, or of a suspect, is one, unless
// a rule without positive atoms that is not off has that head.
ghost use Rattle.std.specs.Prelude.{◌≡◌, not, ◌&&◌, ◌||◌, ◌+◌, ◌<◌};
ghost use Rattle.meaning.specs.Books.{rule, same_atom, some_rule};
ghost use Rattle.meaning.specs.Bits.{plus, members, listed};
ghost use Rattle.meaning.specs.Written.{of};
ghost use Rattle.meaning.specs.Suspects.{free, sure, doubted, Suspects};
ghost use Rattle.book.specs.ReadBook.{the_book};
ghost use Rattle.book.specs.RuleRows.{sets};
ghost use Rattle.closing.specs.News.{atom_set, rows_below};
ghost use Rattle.closing.specs.Clearing.{Inside, Suspected};

use crate::propagation::note;
use book::{ReadBook, RowedBook};
use meaning::{AtomNo, Bits, RuleNo};

// Joins the rules that have the atom among their positive ones into the set.
pub fn join_standing(rowed: &RowedBook, a: AtomNo, set: &mut Bits)
    ensures { members set.new.w ≡
        plus (members set.old.w) (sets rowed.now.rows (256 + a.0)) }
{
    set.join(rowed.pos_row(a));
}

// The same for each atom of a set.
fn join_all_standing(rowed: &RowedBook, atoms: &Bits, set: &mut Bits)
    ensures { members set.new.w ≡ plus (members set.old.w)
        (rows_below rowed.now.rows 256 (members atoms.now.w) 256) }
{
    let mut a = atoms.next_in(0);
    while a < 256 {
        join_standing(rowed, AtomNo(a as u8), set);
        a = atoms.next_in(a + 1);
    }
}

// A rule of the set has no positive atoms.
fn has_free(book: &ReadBook, set: &Bits) -> bool
    ensures { result ≡ some_rule (the_book book.now)
        (λ r. of (listed set.now.w) r && free (rule (the_book book.now) r)) }
{
    let end = book.shape.rules as usize;
    let mut r = set.next_in(0);
    while r < end {
        if book.positives(RuleNo(r as u8)).len() == 0 {
            return true;
        }
        r = set.next_in(r + 1);
    }
    false
}

// The atom is the head of a rule without positive atoms that is not off.
fn is_sure(rowed: &RowedBook, a: AtomNo, off: &Bits) -> bool
    ensures { result ≡ sure (the_book rowed.now.book) (of (listed off.now.w)) a }
{
    let live = rowed.head_row(a).difference(*off);
    has_free(&rowed.book, &live)
}

// The rule's head is put in the set unless it is sure.
fn note_doubted(rowed: &RowedBook, r: RuleNo, off: &Bits, atoms: &mut Bits)
    requires { r.0 < rowed.now.book.shape.rules }
    ensures { atom_set atoms.new.w ≡ (λ a. atom_set atoms.old.w a
        || (same_atom (rule (the_book rowed.now.book) r).head a
        && not (sure (the_book rowed.now.book) (of (listed off.now.w)) a))) }
{
    let a = rowed.book.head(r);
    note(!is_sure(rowed, a, off), a, atoms);
}

// Writes the heads of the rules of the set that are not sure. One function for this and `lost_heads`
// would take the question as a closure, and its promise would speak of answers of closures: no plainer.
fn doubted_heads(rowed: &RowedBook, fresh: &Bits, off: &Bits, atoms: &mut Bits)
    ensures { atom_set atoms.new.w ≡ doubted (the_book rowed.now.book)
        (of (listed off.now.w)) (of (listed fresh.now.w)) }
{
    *atoms = Bits::EMPTY;
    let end = rowed.book.shape.rules as usize;
    let mut r = fresh.next_in(0);
    while r < end {
        note_doubted(rowed, RuleNo(r as u8), off, atoms);
        r = fresh.next_in(r + 1);
    }
}

// The rules that stand on the atoms are suspects, and their heads are the atoms to look at next.
fn suspect_more(rowed: &RowedBook, off: &Bits, todo: &mut Bits, suspects: &mut Bits)
    ensures { Suspected (the_book rowed.now.book) (of (listed off.now.w))
        (of (listed suspects.old.w)) (atom_set todo.old.w)
        (of (listed suspects.new.w)) (atom_set todo.new.w) }
{
    let mut on_them = Bits::EMPTY;
    join_all_standing(rowed, todo, &mut on_them);
    let fresh = on_them.difference(*off).difference(*suspects);
    suspects.join(fresh);
    doubted_heads(rowed, &fresh, off, todo);
}

// Writes the suspects, where `old` was off and more is off now.
pub fn find_suspects(rowed: &RowedBook, old: &Bits, off: &Bits, suspects: &mut Bits)
    ensures { Suspects (the_book rowed.now.book) (of (listed old.now.w))
        (of (listed off.now.w)) (of (listed suspects.new.w))
        × Inside (the_book rowed.now.book) (of (listed suspects.new.w)) }
{
    *suspects = Bits::EMPTY;
    let went = off.difference(*old);
    let mut todo = Bits::EMPTY;
    doubted_heads(rowed, &went, off, &mut todo);
    loop {
        suspect_more(rowed, off, &mut todo, suspects);
        if todo.is_within(Bits::empty()) {
            return;
        }
    }
}
