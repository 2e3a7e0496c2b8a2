// The colouring: which rules are on, which are off, which were marked by the support step, and at
// which level each rule got its colour.
//
// What each operation gives is said of the tables that the colouring stands for, by the definitions
// in specs/Written.
ghost use Rattle.std.specs.Prelude.{◌≡◌, true, ◌<◌, set};
ghost use Rattle.meaning.specs.Bits.{listed};
ghost use Rattle.meaning.specs.Colours.{side_of};
ghost use Rattle.meaning.specs.Written.{written, nothing, colour, chosen};

use crate::RuleNo;
use crate::bitset::Bits;

// One of a colouring's two sets.
#[derive(Clone, Copy)]
pub enum Side {
    On,
    Off,
}

#[derive(Clone, Copy)]
pub struct Colouring {
    pub on: Bits,
    pub off: Bits,
    pub marks: Bits,
    // The choices so far, and for each coloured rule those that stood above it when it got its
    // colour. Only choices and closings see to these.
    pub level: u8,
    pub levels: [u8; Colouring::RULES],
}

impl Colouring {
    // The most rules and the most atoms that a book can have.
    pub const RULES: usize = 255;

    pub const ATOMS: usize = 255;

    // "The start has nothing in either": the start of every walk and of every paper.
    pub fn empty() -> Colouring
        ensures { written result ≡ nothing }
    {
        Colouring {
            on: Bits::EMPTY,
            off: Bits::EMPTY,
            marks: Bits::EMPTY,
            level: 0,
            levels: [0; Colouring::RULES],
        }
    }

    // The colouring with the rule put in on that side.
    pub fn with(mut self, side: Side, r: RuleNo) -> Colouring
        ensures { written result ≡ colour (side_of side) r (written self) }
    {
        match side {
            Side::On => self.on.put(r.0),
            Side::Off => self.off.put(r.0),
        }
        self
    }

    // The colouring with the rule put in on that side by choice, one level deeper.
    pub fn choose(self, side: Side, r: RuleNo) -> Colouring
        requires { (r.0 < 255) × (self.level < 255) }
        ensures { written result ≡ chosen (side_of side) r (written self) }
    {
        let mut deeper = self.with(side, r);
        deeper.level = self.level + 1;
        deeper.levels[r.0 as usize] = deeper.level;
        deeper
    }
}
