// All rule lines and all output lines, read.
ghost use Rattle.std.specs.Prelude.{◌≤◌, ◌≡◌, length};
ghost use Rattle.book.specs.Format.{book_bytes};
ghost use Rattle.aspif.specs.Lining.{RulesSeen};

use crate::rule::read_rule;
use book::{BOOK_BYTES, Making};

// The book that is made of the rules, the largest number in them, and where the text goes on.
#[derive(Clone, Copy)]
pub struct Rules {
    pub making: Making,
    pub top: usize,
    pub next: usize,
}

// Reads the rule lines from `at` on, as many as there are.
pub fn read_rules(text: &[u8], at: usize, draft: &mut [u8; BOOK_BYTES]) -> Rules
    requires { (at ≤ length text.now) × (length draft.old ≡ book_bytes) }
    ensures { RulesSeen text.now at result draft.new }
{
    let mut making = Making::nothing();
    let mut top = 0;
    let mut next = at;
    loop {
        let Some((made, most, end)) = read_rule(text, next, draft, making) else {
            return Rules { making, top, next };
        };
        making = made;
        top = top.max(most);
        next = end;
    }
}
