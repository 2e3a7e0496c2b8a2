// 55's list: the rules outside support that aren't off, found and written.
ghost use Rattle.std.specs.Prelude.{◌≡◌, Bool, List};
ghost use Rattle.meaning.specs.Books.{Book, count};
ghost use Rattle.meaning.specs.Colours.{plus};
ghost use Rattle.meaning.specs.Paper.{numbers};
ghost use Rattle.meaning.specs.Engine.{unsupported};
ghost use Rattle.meaning.specs.Lowest.{rules_in};
ghost use Rattle.meaning.specs.Bits.{listed};
ghost use Rattle.meaning.specs.Written.{of, lent};
ghost use Rattle.book.specs.ReadBook.{the_book};
ghost use Rattle.writer.specs.Draft.{Writes};
ghost use Rattle.writer.specs.Steps.{outside, Listed};

use crate::draft::write;
use book::ReadBook;
use closing::support;
use meaning::{Bits, PAPER_BYTES};

// Writes the rules that are neither marked nor off over whatever the set held; how many they
// are.
fn list_unmarked<'a>(rules: u8, marks: &'a Bits, off: &'a Bits, dropped: &mut Bits) -> u8
    ensures { (b : Book) → count b ≡ rules → Listed b result (listed dropped.new.w)
        (rules_in b (outside (listed marks.now.w) (listed off.now.w))) }
{
    *dropped = Bits::EMPTY;
    let mut m: u8 = 0;
    for r in 0..rules {
        if !marks.has(r) && !off.has(r) {
            dropped.put(r);
            m += 1;
        }
    }
    m
}

// Writes the rules outside support that aren't off over whatever the set held; how many they
// are. Whatever is on, this asks only of what is off.
pub fn list_unsupported(book: &ReadBook, off: &Bits, dropped: &mut Bits) -> u8
    ensures { (on : List Bool) → Listed (the_book book.now) result
        (listed dropped.new.w)
        (rules_in (the_book book.now)
        (unsupported (the_book book.now) (lent on (listed off.now.w)))) }
{
    let mut marks = Bits::EMPTY;
    support(book, off, &mut marks);
    list_unmarked(book.shape.rules, &marks, off, dropped)
}

// Writes the listed rules and puts them in off; the length afterwards.
pub fn drop_rules(
    rules: u8,
    dropped: &Bits,
    off: &mut Bits,
    draft: &mut [u8; PAPER_BYTES],
    at: usize,
) -> usize
    ensures { (b : Book) → count b ≡ rules → (of (listed off.new.w) ≡
        plus (of (listed off.old.w)) (rules_in b (of (listed dropped.now.w))))
        × Writes (numbers (rules_in b (of (listed dropped.now.w)))) at
        draft.old result draft.new }
{
    let mut n = at;
    for r in 0..rules {
        if dropped.has(r) {
            off.put(r);
            n = write(draft, n, r);
        }
    }
    n
}
