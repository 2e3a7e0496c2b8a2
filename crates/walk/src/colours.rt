// The rule that a walk chooses.
ghost use Rattle.std.specs.Prelude.{◌≡◌};
ghost use Rattle.meaning.specs.Bits.{listed};
ghost use Rattle.meaning.specs.Colours.{uncoloured};
ghost use Rattle.meaning.specs.Written.{lent};
ghost use Rattle.meaning.specs.Lowest.{lowest_from};
ghost use Rattle.closing.specs.Picked.{picked};

use closing::lowest_in;
use meaning::{Bits, RuleNo};

// The lowest of the first `rules` rules, which are those of the book, that is in neither set.
pub fn lowest_uncoloured(rules: u8, on: Bits, off: Bits) -> Option<RuleNo>
    ensures { picked result ≡
        lowest_from 0 rules (uncoloured (lent (listed on.w) (listed off.w))) }
{
    lowest_in(rules, Bits::below(rules).difference(on.union(off)))
}
