// What the first closing settles: which rules have a colour before any choice, and which atoms are
// true or false in the well-founded model. Settled is not certain: nobody is named or cleared by
// it.
ghost use Rattle.std.specs.Prelude.{◌≡◌, ◌+◌, ◌≤◌, length};
ghost use Rattle.meaning.specs.Bits.{listed};
ghost use Rattle.meaning.specs.Told.{Answered};
ghost use Rattle.meaning.specs.Buffers.{write_at};
ghost use Rattle.book.specs.ReadBook.{the_book};
ghost use Rattle.closing.specs.declared.first.Unsettled.TheVariants.{Book};
ghost use Rattle.closing.specs.Settle.{settled_byte, settled_row, told, settle_in, settle_of};

use crate::close;
use crate::starting::begin;
use book::{ReadBook, Refusal, RowedBook};
use meaning::{Bits, Colouring};

// Why nothing was settled.
#[derive(Clone, Copy)]
pub enum Unsettled {
    // 1 to 7: the book is refused.
    Book(Refusal),
    // 8: the buffer has fewer bytes than the book has rules and atoms.
    NoRoom,
}

impl From<Refusal> for Unsettled {
    ghost from_gives = { λ why u. u ≡ Book why };

    fn from(why: Refusal) -> Unsettled {
        Unsettled::Book(why)
    }
}

// The byte of one rule or atom.
fn settled_byte(holds: bool, fails: bool) -> u8
    ensures { result ≡ settled_byte holds fails }
{
    if holds {
        return 1;
    }
    if fails {
        return 0;
    }
    2
}

// Writes the bytes of the first n places from byte `at` on; the other bytes stay.
fn write_settled(n: u8, holds: &Bits, fails: &Bits, at: usize, out: &mut [u8])
    requires { at + n ≤ length out.old }
    ensures { out.new ≡ write_at at
        (settled_row n (listed holds.now.w) (listed fails.now.w)) out.old }
{
    for i in 0..n {
        out[at + i as usize] = settled_byte(holds.has(i), fails.has(i));
    }
}

// The same of a good book: of the rules' two sets, and behind it of the atoms that are true and lost.
fn settle_in(book: ReadBook, out: &mut [u8]) -> Result<(), Unsettled>
    ensures { ◌≡◌ {A = Answered (Unit {0})} (record { told = told result; buffer = out.new })
        (settle_in (the_book book.entry) out.old) }
{
    let rules = book.shape.rules as usize;
    if out.len() < rules + book.shape.atoms as usize {
        return Err(Unsettled::NoRoom);
    }
    let rowed = RowedBook::of(book);
    let closed = close(&rowed, Colouring::empty());
    let on = closed.colours.on;
    let off = closed.colours.off;
    let mut holding = Bits::EMPTY;
    let mut failing = Bits::EMPTY;
    begin(&rowed, &on, &off, &mut holding, &mut failing);
    write_settled(book.shape.rules, &on, &off, 0, out);
    write_settled(book.shape.atoms, &holding, &failing, rules, out);
    Ok(())
}

// Writes what the first closing settles to the front of the buffer, or says why not.
pub fn settle(book: &[u8], out: &mut [u8]) -> Result<(), Unsettled>
    ensures { ◌≡◌ {A = Answered (Unit {0})} (record { told = told result; buffer = out.new })
        (settle_of book.now out.old) }
{
    settle_in(ReadBook::read(book)?, out)
}
