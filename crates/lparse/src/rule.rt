// The rule that is open while its words are read: its heads in the book's numbers, and its body in
// two tables.
ghost use Rattle.std.specs.Prelude.{◌≡◌, true, ◌+◌, ◌<◌, set};
ghost use Rattle.lparse.specs.Opened.{capped, opening, head_more, opened_by};

use crate::due::Standing;
use meaning::Colouring;

#[derive(Clone, Copy)]
pub struct Opened {
    // A choice, and not a basic rule.
    pub free: bool,
    // The first 255 heads; a basic rule has one.
    pub heads: [u8; Colouring::ATOMS],
    // How many heads there are; more than 256 are told as 256.
    pub count: usize,
    pub pos: [bool; Colouring::ATOMS],
    pub neg: [bool; Colouring::ATOMS],
}

// The sum, told up to 256: no book has so many atoms or rules.
#[tactic(auto, unfolding(crate::specs::Opened::capped, meaning::specs::Choice::ifb, meaning::specs::Choice::if_lt))]
pub fn counted_on(count: usize, more: usize) -> usize
    ensures { result ≡ capped (count + more) }
{
    count.saturating_add(more).min(256)
}

// The array with this at the place, if there is room for it.
fn stored<T: Copy>(array: [T; Colouring::ATOMS], at: usize, x: T) -> [T; Colouring::ATOMS]
    ensures { result ≡ set array at x }
{
    let mut more = array;
    if at < Colouring::ATOMS {
        more[at] = x;
    }
    more
}

// The table with one atom more, if it has room for it.
pub fn placed(table: [bool; Colouring::ATOMS], n: usize) -> [bool; Colouring::ATOMS]
    ensures { result ≡ set table n true }
{
    stored(table, n, true)
}

// A rule without heads and without body.
#[tactic(auto, unfolding(crate::specs::Opened::opening))]
pub fn open_rule(free: bool) -> Opened
    ensures { result ≡ opening free }
{
    Opened {
        free,
        heads: [0; 255],
        count: 0,
        pos: [false; 255],
        neg: [false; 255],
    }
}

// One head more.
#[tactic(auto, unfolding(crate::specs::Opened::head_more))]
fn head_more(o: Opened, n: u8) -> Opened
    ensures { result ≡ head_more o n }
{
    Opened {
        heads: stored(o.heads, o.count, n),
        count: counted_on(o.count, 1),
        ..o
    }
}

// The open rule with the atom of number n. The head of a basic rule opens it.
#[tactic(auto, unfolding(crate::specs::Opened::opened_by))]
pub fn opened_by(o: Opened, n: usize, standing: Standing) -> Opened
    requires { n < 255 }
    ensures { result ≡ opened_by o n standing }
{
    match standing {
        Standing::Head => head_more(open_rule(false), n as u8),
        Standing::Free => head_more(o, n as u8),
        Standing::Negative => Opened {
            neg: placed(o.neg, n),
            ..o
        },
        Standing::Positive => Opened {
            pos: placed(o.pos, n),
            ..o
        },
        Standing::Table | Standing::Plus | Standing::Minus => o,
    }
}
