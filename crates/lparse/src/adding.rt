// The rules of the book for a rule that was open and is whole, head by head.
ghost use Rattle.std.specs.Prelude.{◌≡◌, true, List, ℕ, ◌<◌, ◌≤◌, take};
ghost use Rattle.book.specs.Making.{Adds};
ghost use Rattle.lparse.specs.Opened.{capped, head_rules, open_rules, Clear, Low, Ready};

use crate::rule::{Opened, counted_on, placed};
use book::{BOOK_BYTES, Making, add_rule};
use meaning::{AtomNo, Colouring};

// "head if body, not c" and "c if not head". With 255 atoms there is no number left for c.
fn add_free(
    draft: &mut [u8; BOOK_BYTES],
    m: Making,
    c: usize,
    head: u8,
    pos: [bool; Colouring::ATOMS],
    neg: [bool; Colouring::ATOMS],
) -> Making
    ensures { (k : ℕ) → c ≡ capped k → Clear neg k → head < 255 →
        Adds (head_rules true k head pos neg) m draft.old result draft.new }
{
    if 255 <= c {
        return m.passed();
    }
    let more = placed(neg, c);
    let first = add_rule(draft, m, AtomNo(head), &pos, &more);
    let none = [false; 255];
    let one = placed(none, head as usize);
    add_rule(draft, first, AtomNo(c as u8), &none, &one)
}

// The rules for one head: c is the next helper.
fn add_head(
    draft: &mut [u8; BOOK_BYTES],
    m: Making,
    free: bool,
    c: usize,
    head: u8,
    pos: [bool; Colouring::ATOMS],
    neg: [bool; Colouring::ATOMS],
) -> Making
    ensures { (k : ℕ) → c ≡ capped k → Clear neg k → head < 255 →
        Adds (head_rules free k head pos neg) m draft.old result draft.new }
{
    if free {
        return add_free(draft, m, c, head, pos, neg);
    }
    add_rule(draft, m, AtomNo(head), &pos, &neg)
}

// The rules for the first heads of the array, so many of them.
fn add_heads(draft: &mut [u8; BOOK_BYTES], m: Making, c: usize, count: usize, o: Opened) -> Making
    requires { count ≤ 255 }
    ensures { (k : ℕ) → c ≡ capped k → Clear o.neg k → Low o.heads count →
        Adds (open_rules o.free k (take count o.heads) o.pos o.neg) m
        draft.old result draft.new }
{
    let mut made = m;
    let mut helper = c;
    for head in &o.heads[..count] {
        made = add_head(draft, made, o.free, helper, *head, o.pos, o.neg);
        helper = counted_on(helper, 1);
    }
    made
}

// The rules for all heads of the open rule, each of which is at least one rule.
pub fn add_open(draft: &mut [u8; BOOK_BYTES], m: Making, c: usize, o: Opened) -> Making
    ensures { (k : ℕ) (l : List ℕ) → Ready k l c o →
        Adds (open_rules o.free k l o.pos o.neg) m
        draft.old result draft.new }
{
    let count = o.count;
    if 255 < count {
        return m.passed();
    }
    add_heads(draft, m, c, count, o)
}
