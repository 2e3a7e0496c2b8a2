// The witness of a reading: its on rules, of which next comes always the lowest that may be listed.
ghost use Rattle.std.specs.Prelude.{◌≡◌, length, ◌<◌};
ghost use Rattle.meaning.specs.AnswerSet.{generating};
ghost use Rattle.meaning.specs.Colours.{heads};
ghost use Rattle.meaning.specs.Paper.{numbers};
ghost use Rattle.meaning.specs.Engine.{witness_of};
ghost use Rattle.meaning.specs.Lowest.{lowest};
ghost use Rattle.meaning.specs.Bits.{listed};
ghost use Rattle.meaning.specs.Written.{of};
ghost use Rattle.book.specs.ReadBook.{the_book};
ghost use Rattle.book.specs.Tables.{atom_table};
ghost use Rattle.walk.specs.Page.{set_in};
ghost use Rattle.closing.specs.Picked.{picked};
ghost use Rattle.writer.specs.Draft.{Writes};
ghost use Rattle.writer.specs.Steps.{may_list};

use crate::draft::write;
use book::{ReadBook, every_in};
use meaning::{Bits, Colouring, PAPER_BYTES, RuleNo};
use walk::generates;

// How many rules the witness lists, and the draft's length behind it.
#[derive(Clone, Copy)]
pub struct Witness {
    pub count: u8,
    pub length: usize,
}

// The rule generates the row's set, isn't listed, and its positive atoms are heads of listed rules.
fn may_list(
    book: &ReadBook,
    r: RuleNo,
    row: &[u8; Colouring::ATOMS],
    taken: &Bits,
    headed: &[bool; Colouring::ATOMS],
) -> bool
    requires { (r.0 < book.now.shape.rules)
        × (headed.now ≡ atom_table (heads (the_book book.now) (of (listed taken.now.w)))) }
    ensures { result ≡ may_list (the_book book.now)
        (generating (the_book book.now) (set_in row.now))
        (listed taken.now.w) r }
{
    !taken.has(r.0) && generates(book, r, row) && every_in(book.positives(r), headed)
}

// The lowest rule that may be listed next.
fn next_listed(book: &ReadBook, row: &[u8; Colouring::ATOMS], taken: &Bits) -> Option<RuleNo>
    ensures { picked result ≡ lowest (the_book book.now)
        (may_list (the_book book.now)
        (generating (the_book book.now) (set_in row.now))
        (listed taken.now.w)) }
{
    let mut headed = [false; Colouring::ATOMS];
    book.heads_of(taken, &mut headed);
    for r in 0..book.shape.rules {
        if may_list(book, RuleNo(r), row, taken, &headed) {
            return Some(RuleNo(r));
        }
    }
    None
}

// Writes the witness of the row's set behind the steps.
pub fn write_witness(
    book: &ReadBook,
    row: &[u8; Colouring::ATOMS],
    draft: &mut [u8; PAPER_BYTES],
    at: usize,
) -> Witness
    ensures { (result.count ≡ length (witness_of (the_book book.now) (set_in row.now)))
        × Writes (numbers (witness_of (the_book book.now) (set_in row.now))) at
        draft.old result.length draft.new }
{
    let mut taken = Bits::EMPTY;
    let mut n = at;
    for count in 0..book.shape.rules {
        let Some(r) = next_listed(book, row, &taken) else {
            return Witness { count, length: n };
        };
        taken.put(r.0);
        n = write(draft, n, r.0);
    }
    Witness {
        count: book.shape.rules,
        length: n,
    }
}
