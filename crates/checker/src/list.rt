// Lists of rules, one byte each, as 55 and the witness have them.
ghost use Rattle.std.specs.Prelude.{◌≡◌, ◌&&◌, map, ◌<◌, ltb};
ghost use Rattle.meaning.specs.Sets.{every, some, ascending};
ghost use Rattle.meaning.specs.Books.{rule_no, rule};
ghost use Rattle.meaning.specs.Bits.{listed};
ghost use Rattle.meaning.specs.Colours.{plus, all_in};
ghost use Rattle.meaning.specs.Paper.{unfounded};
ghost use Rattle.meaning.specs.Written.{of};
ghost use Rattle.book.specs.ReadBook.{the_book};
ghost use Rattle.book.specs.Tables.{Below};

use book::ReadBook;
use meaning::{Bits, RuleNo};

// The list is strictly ascending, and each of its rules is below R.
pub fn is_proper(list: &[u8], rules: u8) -> bool
    ensures { result ≡
        (ascending list.now && every (λ n. ltb n rules) list.now) }
{
    let mut least: u8 = 0;
    for &n in list {
        if rules <= n || n < least {
            return false;
        }
        least = n + 1;
    }
    true
}

// The set with the rules of the list put in.
pub fn with_rules(set: Bits, list: &[u8]) -> Bits
    requires { Below 255 list.now }
    ensures { of (listed result.w) ≡
        plus (of (listed set.w)) (map rule_no list.now) }
{
    let mut all = set;
    for &n in list {
        all.put(n);
    }
    all
}

// Each listed rule has a positive atom all of whose rules are in the set.
fn each_starves(book: &ReadBook, list: &[u8], gone: &Bits) -> bool
    requires { Below book.now.shape.rules list.now }
    ensures { result ≡ every (λ r.
        some (all_in (the_book book.now) (of (listed gone.now.w)))
        (rule (the_book book.now) r).pos) (map rule_no list.now) }
{
    for &n in list {
        if !book.is_starved(RuleNo(n), gone) {
            return false;
        }
    }
    true
}

// 55: each listed rule has a positive atom all of whose rules are off or listed.
pub fn is_unfounded(book: &ReadBook, list: &[u8], off: &Bits) -> bool
    requires { Below book.now.shape.rules list.now }
    ensures { result ≡
        unfounded (the_book book.now) (of (listed off.now.w))
        (map rule_no list.now) }
{
    let gone = with_rules(*off, list);
    each_starves(book, list, &gone)
}
