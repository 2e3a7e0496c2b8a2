// A rule line, read, and its rule put into the book that is made.
ghost use Rattle.std.specs.Prelude.{List, [], ◌∷◌, ◌-◌, ◌≤◌, ◌<◌, length, drop};
ghost use Rattle.meaning.specs.declared.AtomNo.{AtomNo};
ghost use Rattle.meaning.specs.Books.{atom_no};
ghost use Rattle.book.specs.Making.{Adds};
ghost use Rattle.aspif.specs.Reading.{body_in, rule_in};
ghost use Rattle.aspif.specs.Gathering.{Held, Rises};
ghost use Rattle.aspif.specs.Lining.{Lined};

use crate::part::read_part;
use crate::scan::{read_item, skip_text};
use book::{BOOK_BYTES, Making, add_rule};
use meaning::{AtomNo, Colouring};

// Adds the rule whose head has this number there, or keeps that it passes the limits: the two parts
// are small, or an atom of them is beyond its table.
fn keep_rule(
    draft: &mut [u8; BOOK_BYTES],
    m: Making,
    head: usize,
    positive: bool,
    pos: &[bool; Colouring::ATOMS],
    negative: bool,
    neg: &[bool; Colouring::ATOMS],
) -> Making
    requires { 0 < head }
    ensures { (p q : List AtomNo) → Rises p → Held p positive pos.now →
        Rises q → Held q negative neg.now →
        Adds (record { head = atom_no (head - 1); pos = p; neg = q } ∷ []) m
        draft.old result draft.new }
{
    if !positive {
        return m.passed();
    }
    if !negative {
        return m.passed();
    }
    if 255 < head {
        return m.passed();
    }
    add_rule(draft, m, AtomNo((head - 1) as u8), pos, neg)
}

// Reads the literals of a body of `count` at `at` and the line end, and adds the rule: the book that
// is made with one rule more, the largest number of the rule, and where the text goes on.
fn read_body(
    text: &[u8],
    at: usize,
    head: usize,
    count: usize,
    draft: &mut [u8; BOOK_BYTES],
    m: Making,
) -> Option<(Making, usize, usize)>
    requires { (at ≤ length text.now) × (0 < head) }
    ensures { Lined text.now
        (body_in (length text.now) head count (drop at text.now)) at m
        draft.old result draft.new }
{
    let mut pos = [false; 255];
    let mut neg = [false; 255];
    let p = read_part(text, at, b" ", &mut pos);
    let n = read_part(text, p.next, b" -", &mut neg);
    let next = skip_text(text, n.next, b"\n")?;
    if count != p.count + n.count {
        return None;
    }
    let made = keep_rule(draft, m, head, p.small, &pos, n.small, &neg);
    Some((made, head.max(p.top.max(n.top)), next))
}

// Reads the rule line at `at`, and adds its rule.
pub fn read_rule(
    text: &[u8],
    at: usize,
    draft: &mut [u8; BOOK_BYTES],
    m: Making,
) -> Option<(Making, usize, usize)>
    requires { at ≤ length text.now }
    ensures { Lined text.now
        (rule_in (length text.now) (drop at text.now)) at m
        draft.old result draft.new }
{
    let (head, headed) = read_item(text, at, b"1 0 1 ", 1)?;
    let (count, counted) = read_item(text, headed, b" 0 ", 0)?;
    read_body(text, counted, head, count, draft, m)
}
