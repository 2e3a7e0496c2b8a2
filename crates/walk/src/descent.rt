// The levels of a reading: at how many choices each rule got its colour. Nobody is named or cleared
// by a level.
ghost use Rattle.std.specs.Prelude.{◌≡◌, ℕ, ◌<◌, ◌≤◌, length, take};
ghost use Rattle.meaning.specs.AnswerSet.{generating};
ghost use Rattle.meaning.specs.Told.{Answered};
ghost use Rattle.meaning.specs.Buffers.{write_at};
ghost use Rattle.meaning.specs.Written.{written, nothing};
ghost use Rattle.book.specs.ReadBook.{the_book};
ghost use Rattle.walk.specs.Find.{told};
ghost use Rattle.walk.specs.Page.{set_in};
ghost use Rattle.walk.specs.Levels.{choice_of, down, levels_in, levels_of};

use crate::colours::lowest_uncoloured;
use crate::kth::{Unfound, kth, tell};
use crate::resume::generates;
use crate::tally::Halt;
use book::{ReadBook, RowedBook};
use closing::{Choice, close_chosen};
use meaning::{Colouring, RuleNo};

// The choice that the row's set makes: the rule goes on if it generates the set.
fn follow(book: &ReadBook, r: RuleNo, row: &[u8]) -> Choice
    requires { r.0 < book.now.shape.rules }
    ensures { result ≡
        choice_of (generating (the_book book.now) (set_in row.now) r) r }
{
    if generates(book, r, row) {
        Choice::On(r)
    } else {
        Choice::Off(r)
    }
}

// The closed colouring to which the choices of the row's set lead: one closing a level, and no try.
fn descend(rowed: &RowedBook, row: &[u8]) -> Colouring
    ensures { written result ≡ down (the_book rowed.now.book) nothing (set_in row.now) }
{
    let mut c = Colouring::empty();
    let mut choice = Choice::Nothing;
    loop {
        let closed = close_chosen(rowed, c, choice);
        let d = closed.colours;
        if closed.clash.is_some() {
            return d;
        }
        let Some(r) = lowest_uncoloured(rowed.book.shape.rules, d.on, d.off) else {
            return d;
        };
        choice = follow(&rowed.book, r, row);
        c = d;
    }
}

// Writes the levels of the first rules to the front of the buffer; the later bytes stay.
fn write_levels(rules: u8, levels: &[u8; Colouring::RULES], out: &mut [u8])
    requires { (rules ≤ length out.old) × (length levels.now ≡ 255) }
    ensures { out.new ≡
        write_at 0 (take rules levels.now) out.old }
{
    let n = rules as usize;
    out[..n].copy_from_slice(&levels[..n]);
}

// The same for a good book. The walk's row is its own: the caller's buffer has a byte for each rule.
fn levels_in(book: ReadBook, k: u32, limit: u32, out: &mut [u8]) -> Result<u32, Unfound>
    ensures { ◌≡◌ {A = Answered ℕ} (record { told = told result; buffer = out.new })
        (levels_in (the_book book.entry) k limit out.old) }
{
    if k == 0 {
        return Err(Unfound::NoNumber);
    }
    if out.len() < book.shape.rules as usize {
        return Err(Unfound::NoRoom);
    }
    let rowed = RowedBook::of(book);
    let mut row = [0u8; Colouring::ATOMS];
    let t = kth(&rowed, k, limit, &mut row);
    let Halt::Full = t.halt else {
        return tell(t, limit);
    };
    let d = descend(&rowed, &row);
    write_levels(book.shape.rules, &d.levels, out);
    tell(t, limit)
}

// Writes the level of each rule in the k-th reading's colouring to the front of the buffer, or says
// why not.
pub fn levels(book: &[u8], k: u32, limit: u32, out: &mut [u8]) -> Result<u32, Unfound>
    ensures { ◌≡◌ {A = Answered ℕ} (record { told = told result; buffer = out.new })
        (levels_of book.now k limit out.old) }
{
    levels_in(ReadBook::read(book)?, k, limit, out)
}
