// The lowest rule of a set, or none; and the search for a contradiction.
ghost use Rattle.std.specs.Prelude.{◌≡◌};
ghost use Rattle.meaning.specs.Bits.{listed};
ghost use Rattle.meaning.specs.Written.{of, lent};
ghost use Rattle.meaning.specs.Lowest.{lowest_from, in_both};
ghost use Rattle.closing.specs.Picked.{picked};

use meaning::{Bits, RuleNo};

// The lowest of the first `rules` rules that is in the set.
pub fn lowest_in(rules: u8, set: Bits) -> Option<RuleNo>
    ensures { picked result ≡ lowest_from 0 rules (of (listed set.w)) }
{
    let r = set.next_in(0);
    if r < rules as usize {
        return Some(RuleNo(r as u8));
    }
    None
}

// The lowest of the first `rules` rules that is in both sets.
pub fn lowest_clash(rules: u8, on: Bits, off: Bits) -> Option<RuleNo>
    ensures { picked result ≡
        lowest_from 0 rules (in_both (lent (listed on.w) (listed off.w))) }
{
    lowest_in(rules, on.intersection(off))
}
