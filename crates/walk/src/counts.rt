// Whether a reading counts where only some atoms are shown: it does if no earlier one matches it.
ghost use Rattle.std.specs.Prelude.{◌≡◌, ◌+◌};
ghost use Rattle.meaning.specs.Bits.{members, listed};
ghost use Rattle.meaning.specs.Choice.{ifb};
ghost use Rattle.meaning.specs.Colours.{heads};
ghost use Rattle.meaning.specs.Written.{of};
ghost use Rattle.book.specs.ReadBook.{the_book};
ghost use Rattle.walk.specs.FirstAlike.{fresh, counts};
ghost use Rattle.walk.specs.Search.{shown_in, part_of, Generated, Kept, Remembers};

use crate::memory::{find_part, keep, words_at};
use crate::part::{rules_with, shown_part};
use crate::search::{first_alike, same_rules};
use crate::verdict::Verdict;
use book::RowedBook;
use closing::Choice;
use meaning::{Bits, Colouring};

// The reading whose generating rules are `on` is the first of those that match it: found by a search
// that starts with every rule off whose head is a shown atom outside the reading.
fn is_first(rowed: &RowedBook, on: Bits, mask: &Bits, part: Bits) -> bool
    requires { Generated (the_book rowed.now.book) (listed on.w)
        × (members part.w ≡ part_of rowed.now.rows mask.now.w on.w) }
    ensures { result ≡ fresh (the_book rowed.now.book) (shown_in mask.now.w)
        (heads (the_book rowed.now.book) (of (listed on.w))) }
{
    let outside = mask.difference(part);
    let c = Colouring {
        off: rules_with(rowed, &outside),
        ..Colouring::empty()
    };
    let verdict = first_alike(rowed, c, Choice::Nothing, &part, on);
    matches!(verdict, Verdict::This)
}

// The same, asked first of the memory, of which the first n rows are in use.
fn is_first_known(
    rowed: &RowedBook,
    on: Bits,
    mask: &Bits,
    part: Bits,
    n: usize,
    seen: &[u64],
) -> bool
    requires { Generated (the_book rowed.now.book) (listed on.w)
        × (members part.w ≡ part_of rowed.now.rows mask.now.w on.w)
        × Kept (the_book rowed.now.book) (shown_in mask.now.w) seen.now n }
    ensures { result ≡ fresh (the_book rowed.now.book) (shown_in mask.now.w)
        (heads (the_book rowed.now.book) (of (listed on.w))) }
{
    match find_part(seen, n, part) {
        Some(k) => same_rules(rowed.book.shape.rules, on, words_at(seen, k * 2 + 1)),
        None => is_first(rowed, on, mask, part),
    }
}

// The same, and a reading that counts is remembered as the next row.
pub fn is_new(rowed: &RowedBook, on: Bits, mask: &Bits, n: u32, seen: &mut [u64]) -> bool
    requires { Generated (the_book rowed.now.book) (listed on.w)
        × Kept (the_book rowed.now.book) (shown_in mask.now.w) seen.old n }
    ensures { (result ≡ fresh (the_book rowed.now.book) (shown_in mask.now.w)
        (heads (the_book rowed.now.book) (of (listed on.w))))
        × Kept (the_book rowed.now.book) (shown_in mask.now.w) seen.new
        (ifb result (n + 1) n) }
{
    let part = shown_part(rowed, mask, on);
    if !is_first_known(rowed, on, mask, part, n as usize, seen) {
        return false;
    }
    keep(seen, n as usize, part, on);
    true
}

// The same where every reading may count, as one is told.
pub fn does_count(
    rowed: &RowedBook,
    on: Bits,
    every: bool,
    mask: &Bits,
    n: u32,
    seen: &mut [u64],
) -> bool
    requires { Generated (the_book rowed.now.book) (listed on.w)
        × Remembers every (the_book rowed.now.book) (shown_in mask.now.w) seen.old n }
    ensures { (result ≡ counts every (the_book rowed.now.book) (shown_in mask.now.w)
        (heads (the_book rowed.now.book) (of (listed on.w))))
        × Remembers every (the_book rowed.now.book) (shown_in mask.now.w) seen.new
        (ifb result (n + 1) n) }
{
    every || is_new(rowed, on, mask, n, seen)
}
