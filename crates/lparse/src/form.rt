// The rules of the book made of what the words of a text say.
ghost use Rattle.std.specs.Prelude.{◌≡◌, [], ◌++◌, ℕ, ◌<◌};
ghost use Rattle.book.specs.Making.{Adds};
ghost use Rattle.lparse.specs.declared.due.Standing.TheVariants.{Plus, Minus};
ghost use Rattle.lparse.specs.Opened.{capped};
ghost use Rattle.lparse.specs.Forming.{
  entry_by,
  entry_rules,
  closes,
  helper_behind,
  formed_said,
  said_rules,
  shut,
  closed_by,
  shut_rules,
  rule_closed,
  Forms,
  Placed,
};

use crate::adding::add_open;
use crate::due::{Due, Role, Said, Standing};
use crate::numbering::number_of;
use crate::rule::{Opened, counted_on, open_rule, opened_by, placed};
use book::{BOOK_BYTES, Making, add_rule};
use meaning::AtomNo;

// The rules made so far, the rule that is open, the number of the next helper, told up to 256, and
// whether a list had an entry.
#[derive(Clone, Copy)]
pub struct Forming {
    pub making: Making,
    pub rule: Opened,
    pub helper: usize,
    pub entry: bool,
}

// Whether a list had an entry, with an atom that stands here.
#[tactic(auto, unfolding(crate::specs::Forming::entry_by))]
fn entry_by(entry: bool, standing: Standing) -> bool
    ensures { result ≡ entry_by entry standing }
{
    entry || matches!(standing, Standing::Plus | Standing::Minus)
}

// Adds the rule for the entry of B+ or B- whose number is n: h is the helper. With 255 atoms there is
// no number left for it.
fn add_entry(
    draft: &mut [u8; BOOK_BYTES],
    m: Making,
    h: usize,
    n: usize,
    standing: Standing,
) -> Making
    ensures { (k : ℕ) → h ≡ capped k → n < k →
        Adds (entry_rules standing k n) m draft.old result draft.new }
{
    match standing {
        Standing::Plus => add_plus(draft, m, h, n),
        Standing::Minus => add_minus(draft, m, h, n),
        _ => m,
    }
}

// "h if not a, not h". Apart from the next: tried as arms of one `match` with a guard for 255, and
// the proof didn't close behind the guard.
fn add_plus(draft: &mut [u8; BOOK_BYTES], m: Making, h: usize, n: usize) -> Making
    ensures { (k : ℕ) → h ≡ capped k → n < k →
        Adds (entry_rules Plus k n) m draft.old result draft.new }
{
    if 255 <= h {
        return m.passed();
    }
    let none = [false; 255];
    let both = placed(placed(none, n), h);
    add_rule(draft, m, AtomNo(h as u8), &none, &both)
}

// "h if a, not h"
fn add_minus(draft: &mut [u8; BOOK_BYTES], m: Making, h: usize, n: usize) -> Making
    ensures { (k : ℕ) → h ≡ capped k → n < k →
        Adds (entry_rules Minus k n) m draft.old result draft.new }
{
    if 255 <= h {
        return m.passed();
    }
    let none = [false; 255];
    let one = placed(none, n);
    let helper = placed(none, h);
    add_rule(draft, m, AtomNo(h as u8), &one, &helper)
}

// A rule's type is due: the rule that was open is whole.
#[tactic(auto, unfolding(crate::specs::Forming::closes, crate::specs::Forming::opens_rule))]
fn closes_rule(due: Due) -> bool
    ensures { result ≡ closes due }
{
    matches!(due, Due::Number(Role::Kind))
}

// What a word says, with the rule that an entry adds.
fn form_said(atoms: &[u32], draft: &mut [u8; BOOK_BYTES], f: Forming, said: Said) -> Forming
    requires { Placed atoms.now said }
    ensures { Forms atoms.now (λ k l. said_rules k atoms.now said)
        f.helper (formed_said f atoms.now said) f.making
        draft.old result draft.new }
{
    match said {
        Said::Nothing => f,
        Said::Choice => Forming {
            rule: open_rule(true),
            ..f
        },
        Said::Atom(a, standing) => {
            let n = number_of(atoms, a);
            Forming {
                making: add_entry(draft, f.making, f.helper, n, standing),
                rule: opened_by(f.rule, n, standing),
                entry: entry_by(f.entry, standing),
                ..f
            }
        }
    }
}

// The number of the next helper behind the open rule: a choice has one for each head.
#[tactic(auto, unfolding(crate::specs::Forming::helper_behind, meaning::specs::Choice::ifb))]
fn helper_behind(helper: usize, free: bool, count: usize) -> usize
    ensures { result ≡ helper_behind helper free count }
{
    if free {
        counted_on(helper, count)
    } else {
        helper
    }
}

// The open rule is whole: its rules are added.
fn close_rule(draft: &mut [u8; BOOK_BYTES], f: Forming) -> Forming
    ensures { Forms [] (λ k l. shut_rules k l f.rule) f.helper (shut f) f.making
        draft.old result draft.new }
{
    let o = f.rule;
    Forming {
        making: add_open(draft, f.making, f.helper, o),
        helper: helper_behind(f.helper, o.free, o.count),
        ..f
    }
}

// What a word says, and the rules of the rule that was open if it is whole then.
pub fn form(
    atoms: &[u32],
    draft: &mut [u8; BOOK_BYTES],
    f: Forming,
    said: Said,
    next: Due,
) -> Forming
    requires { Placed atoms.now said }
    ensures { Forms atoms.now (λ k l. said_rules k atoms.now said
        ++ rule_closed next k l (formed_said f atoms.now said).rule) f.helper
        (closed_by next (formed_said f atoms.now said)) f.making
        draft.old result draft.new }
{
    let g = form_said(atoms, draft, f, said);
    if !closes_rule(next) {
        return g;
    }
    close_rule(draft, g)
}
