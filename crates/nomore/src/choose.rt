// The rule that the no_mo_re walk chooses, and what it puts off where there is none.
ghost use Rattle.std.specs.Prelude.{◌≡◌, ◌<◌};
ghost use Rattle.meaning.specs.Sets.{every};
ghost use Rattle.meaning.specs.Books.{rule};
ghost use Rattle.meaning.specs.Colours.{heads};
ghost use Rattle.meaning.specs.Bits.{below, plus, less, members, listed};
ghost use Rattle.meaning.specs.Written.{of, lent};
ghost use Rattle.meaning.specs.Lowest.{lowest_from};
ghost use Rattle.book.specs.ReadBook.{the_book};
ghost use Rattle.closing.specs.Picked.{picked};
ghost use Rattle.nomore.specs.Own.{supported};

use book::RowedBook;
use meaning::{Bits, RuleNo};

// Every positive atom of the rule is the head of a rule of the set.
fn is_supported(rowed: &RowedBook, r: RuleNo, on: &Bits) -> bool
    requires { r.0 < rowed.now.book.shape.rules }
    ensures { result ≡
        every (heads (the_book rowed.now.book) (of (listed on.now.w)))
        (rule (the_book rowed.now.book) r).pos }
{
    rowed.every_headed(rowed.book.positives(r), on)
}

// The lowest rule without a colour whose positive atoms are all heads of on rules.
pub fn lowest_supported(rowed: &RowedBook, on: Bits, off: Bits) -> Option<RuleNo>
    ensures { picked result ≡ lowest_from 0 rowed.now.book.shape.rules
        (supported (the_book rowed.now.book) (lent (listed on.w) (listed off.w))) }
{
    let free = Bits::below(rowed.book.shape.rules).difference(on.union(off));
    let mut r = free.next_in(0);
    while r < 256 {
        let q = RuleNo(r as u8);
        if is_supported(rowed, q, &on) {
            return Some(q);
        }
        r = free.next_in(r + 1);
    }
    None
}

// The off rules, with all rules of the book that are not on put in.
pub fn rest_off(rules: u8, on: Bits, off: Bits) -> Bits
    ensures { members result.w ≡
        plus (members off.w) (less (below rules) (members on.w)) }
{
    off.union(Bits::below(rules).difference(on))
}
