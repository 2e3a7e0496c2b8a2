// The rule that is open: its head, and the atoms of its parts so far.
ghost use Rattle.std.specs.Prelude.{◌≡◌, true, ◌<◌, set};
ghost use Rattle.words.specs.Reading.{placed, crowded, full};

use crate::due::Standing;
use book::count_atoms;
use meaning::AtomNo;

#[derive(Clone, Copy)]
pub struct Open {
    pub head: AtomNo,
    pub pos: [bool; 255],
    pub neg: [bool; 255],
}

// The atom would be the 17th of the part.
#[tactic(auto, unfolding(crate::specs::Reading::crowded, meaning::specs::Choice::ifb))]
fn is_crowded(part: &[bool; 255], a: usize) -> bool
    requires { a < 255 }
    ensures { result ≡ crowded part.now a }
{
    !part[a] && 16 <= count_atoms(part)
}

// The atom has no place in the rule any more: so many rules were closed.
#[tactic(auto, unfolding(crate::specs::Reading::full))]
pub fn is_full(rule: Open, standing: Standing, rules: usize, a: usize) -> bool
    requires { a < 255 }
    ensures { result ≡ full standing rules a rule }
{
    match standing {
        Standing::Head => 255 <= rules,
        Standing::Positive => is_crowded(&rule.pos, a),
        Standing::Negative => is_crowded(&rule.neg, a),
    }
}

// The part with one atom more.
fn joined(part: [bool; 255], a: usize) -> [bool; 255]
    requires { a < 255 }
    ensures { result ≡ set part a true }
{
    let mut more = part;
    more[a] = true;
    more
}

// The rule with the atom in its place; a head opens a new one.
#[tactic(auto, unfolding(crate::specs::Reading::placed))]
pub fn place(rule: Open, standing: Standing, a: usize) -> Open
    requires { a < 255 }
    ensures { result ≡ placed standing a rule }
{
    match standing {
        Standing::Head => Open {
            head: AtomNo(a as u8),
            pos: [false; 255],
            neg: [false; 255],
        },
        Standing::Positive => Open {
            pos: joined(rule.pos, a),
            ..rule
        },
        Standing::Negative => Open {
            neg: joined(rule.neg, a),
            ..rule
        },
    }
}
