// A good book with the rows of its atoms: where each atom stands, made once for a book. What is asked
// of an atom is asked by these rows.
ghost use Rattle.std.specs.Prelude.{◌≡◌, map, ◌+◌, ◌<◌};
ghost use Rattle.meaning.specs.Sets.{every};
ghost use Rattle.meaning.specs.Books.{atom_no};
ghost use Rattle.meaning.specs.Bits.{listed};
ghost use Rattle.meaning.specs.Written.{lent};
ghost use Rattle.meaning.specs.Colours.{may_on};
ghost use Rattle.book.specs.Format.{book_in};
ghost use Rattle.book.specs.RuleRows.{row, headed_by, lost_by, RuleRows};

use crate::asking::{every_headed, every_lost, is_headed, is_lost};
use crate::read::ReadBook;
use crate::standing::{enter_rule, head_row, neg_row, pos_row};
use meaning::{AtomNo, Bits, RuleNo};

#[derive(Clone, Copy)]
pub struct RowedBook<'a> {
    pub book: ReadBook<'a>,
    pub rows: [u64; 3072],
    ghost rowed: { RuleRows (book_in book.bytes.now) rows },
}

impl<'a> RowedBook<'a> {
    ghost use Rattle.book.specs.ReadBook.{the_book};

    // The book with its rows.
    pub fn of(book: ReadBook<'a>) -> RowedBook<'a>
        ensures { result.book ≡ book.entry }
    {
        let mut rows = [0u64; 3072];
        for r in 0..book.shape.rules {
            enter_rule(&book, r, &mut rows);
        }
        RowedBook { book, rows }
    }

    // The rules with that head.
    pub fn head_row(&self, a: AtomNo) -> Bits
        ensures { result.w ≡ row self.now.rows a.0 }
    {
        head_row(&self.rows, a)
    }

    // The rules with that atom among their positive ones.
    pub fn pos_row(&self, a: AtomNo) -> Bits
        ensures { result.w ≡ row self.now.rows (256 + a.0) }
    {
        pos_row(&self.rows, a)
    }

    // The rules with that atom among their negative ones.
    pub fn neg_row(&self, a: AtomNo) -> Bits
        ensures { result.w ≡ row self.now.rows (512 + a.0) }
    {
        neg_row(&self.rows, a)
    }

    // The atom is the head of a rule of the set.
    pub fn is_headed(&self, a: AtomNo, on: &Bits) -> bool
        ensures { result ≡ headed_by self.now.rows on.now.w a }
    {
        is_headed(&self.rows, a, on)
    }

    // All rules of the atom are in the set.
    pub fn is_lost(&self, a: AtomNo, off: &Bits) -> bool
        ensures { result ≡ lost_by self.now.rows off.now.w a }
    {
        is_lost(&self.rows, a, off)
    }

    // Every atom of the part is the head of a rule of the set.
    pub fn every_headed(&self, part: &[u8], on: &Bits) -> bool
        ensures { result ≡
            every (headed_by self.now.rows on.now.w) (map atom_no part.now) }
    {
        every_headed(part, &self.rows, on)
    }

    // The rule may go on: each positive atom is the head of an on rule, and each negative atom has all
    // its rules off.
    pub fn may_go_on<'s>(&self, r: RuleNo, on: &'s Bits, off: &'s Bits) -> bool
        requires { r.0 < self.now.book.shape.rules }
        ensures { result ≡ may_on (the_book self.now.book)
            (lent (listed on.now.w) (listed off.now.w)) r }
    {
        self.every_headed(self.book.positives(r), on)
            && every_lost(self.book.negatives(r), &self.rows, off)
    }
}
