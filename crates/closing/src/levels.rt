// The levels after a closing: each rule that got its colour there gets the closing's level.
ghost use Rattle.std.specs.Prelude.{◌≡◌, length};
ghost use Rattle.meaning.specs.Bits.{listed};
ghost use Rattle.meaning.specs.Written.{of, stamp_from};

use meaning::{Bits, Colouring};

// Gives the level to those of the first `rules` rules that are in the set.
pub fn stamp(rules: u8, new: &Bits, level: u8, levels: &mut [u8; Colouring::RULES])
    requires { length levels.old ≡ 255 }
    ensures { levels.new ≡
        stamp_from 0 rules (of (listed new.now.w)) level levels.old }
{
    let end = rules as usize;
    let mut r = new.next_in(0);
    while r < end {
        levels[r] = level;
        r = new.next_in(r + 1);
    }
}
