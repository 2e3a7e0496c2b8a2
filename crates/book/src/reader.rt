// Reads a whole book.
ghost use Rattle.std.specs.Prelude.{◌≡◌};
ghost use Rattle.book.specs.Numbers.{told};
ghost use Rattle.book.specs.Format.{read_of, told_of};

use crate::number::{u16_at, wide};
use crate::record::check_records;
use crate::refusal::Refusal;
use crate::{BOOK_BYTES, BOOK_MARK};

// The atom count, the rule count and the start of the index of a good book.
#[derive(Clone, Copy)]
pub struct Shape {
    pub atoms: u8,
    pub rules: u8,
    pub index: usize,
}

// The shape of a good book, or the first thing that is wrong: the trailer first, then each record
// in turn, then where the last one ends.
pub fn read_book(book: &[u8]) -> Result<Shape, Refusal>
    ensures { told result ≡ told_of (read_of book.now) }
{
    let len = book.len();
    if len < 6 {
        return Err(Refusal::Length);
    }
    if BOOK_BYTES < len {
        return Err(Refusal::Length);
    }
    if !book.ends_with(&BOOK_MARK) {
        return Err(Refusal::Mark(len - 2));
    }
    let atoms = book[len - 6];
    let rules = book[len - 5];
    let count = wide(rules);
    let index = u16_at(book, len - 4);
    if index + 2 * count + 6 != len {
        return Err(Refusal::Trailer(len - 4));
    }
    check_records(book, atoms, index, count)?;
    Ok(Shape {
        atoms,
        rules,
        index,
    })
}
