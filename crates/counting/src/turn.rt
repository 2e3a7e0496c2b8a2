// The table's turn: a book's line, and the totals after it. A program only prints what it gives.
ghost use Rattle.std.specs.Prelude.{◌≡◌};
ghost use Rattle.meaning.specs.Told.{success};
ghost use Rattle.book.specs.Format.{book_in};
ghost use Rattle.counting.specs.Table.{Turn as TableTurn, opened_as, row_in, turn_by, turn_of};

use crate::answer::Uncounted;
use crate::pages::count;
use crate::sum::Totals;
use book::read_book;
use meaning::Colouring;

#[derive(Clone, Copy)]
pub enum Line {
    // `sets S atoms c0 c1 ..`: how many answer sets, and how many atoms. Their counts stand in the
    // array that was lent.
    Sets(u32, u8),
    // `sets 0`: the book counts no atoms.
    Without,
    // `refused NUMBER`, by the first thing that is wrong: 37, 1 to 7, 9.
    Refused(u8),
}

// A book's line, and the totals after it.
#[derive(Clone, Copy)]
pub struct Turn {
    pub line: Line,
    pub totals: Totals,
}

// The atoms of a good book; none of a refused one.
fn atoms_of(book: &[u8]) -> u8
    ensures { result ≡ (book_in book.now).atoms }
{
    match read_book(book) {
        Ok(shape) => shape.atoms,
        Err(_) => 0,
    }
}

// The turn of a book with so many answer sets.
fn turn_counted(sets: u32, atoms: u8, totals: Totals, counts: &[u32; Colouring::ATOMS]) -> Turn
    ensures { ◌≡◌ {A = TableTurn}
        (record {
          line = row_in result.line counts.now;
          counts = counts.now;
          totals = result.totals;
        }) (turn_by (success sets) atoms counts.now totals) }
{
    if sets == 0 {
        return Turn {
            line: Line::Without,
            totals,
        };
    }
    Turn {
        line: Line::Sets(sets, atoms),
        totals: totals.with(atoms, sets, counts),
    }
}

// The turn of the book behind a name, within so many tries of its whole walk; `is_open` says
// whether the name could be opened and read.
pub fn take_turn(
    is_open: bool,
    book: &[u8],
    limit: u32,
    totals: Totals,
    counts: &mut [u32; Colouring::ATOMS],
) -> Turn
    ensures { ◌≡◌ {A = TableTurn}
        (record {
          line = row_in result.line counts.new;
          counts = counts.new;
          totals = result.totals;
        })
        (turn_of (opened_as is_open book.now) limit counts.old totals) }
{
    if !is_open {
        return Turn {
            line: Line::Refused(37),
            totals,
        };
    }
    match count(book, limit, counts) {
        Ok(sets) => turn_counted(sets, atoms_of(book), totals, counts),
        Err(Uncounted::Stopped(_)) => Turn {
            line: Line::Refused(9),
            totals,
        },
        Err(Uncounted::Book(why)) => Turn {
            line: Line::Refused(why.number()),
            totals,
        },
    }
}
