// Closing: what follows from a colouring. Stands on book and meaning.
//
// It promises the least closed pair above any pair of a good book, as an equation with the
// computed definition of meaning, goes on to the end after a contradiction, and tells the lowest
// rule in both sets then; where it is enough to know that there is a contradiction, `close_or_clash`
// leaves at the first one. Laws for the layers above are in proofs/Laws.antt.
#![tactic(auto)]

ghost use Rattle.std.specs.Prelude.{◌≡◌, true};
ghost use Rattle.meaning.specs.Bits.{listed};
ghost use Rattle.meaning.specs.Written.{written, of, chosen, lent, pair};
ghost use Rattle.meaning.specs.Colours.{side_of, Under};
ghost use Rattle.meaning.specs.Computed.{close};
ghost use Rattle.meaning.specs.Lowest.{lowest_from, in_both, clashed};
ghost use Rattle.meaning.specs.Propagation.{Propagated};
ghost use Rattle.meaning.specs.Suspects.{Settled as AllHeld};
ghost use Rattle.book.specs.ReadBook.{the_book};
ghost use Rattle.closing.specs.Ended.{ended_at, left_at, EndsAt, Ends};
ghost use Rattle.closing.specs.Picked.{picked};
ghost use Rattle.closing.specs.Taken.{taken, Ready, Takes};

use book::RowedBook;
use levels::stamp;
use meaning::{Bits, Colouring, RuleNo, Side};
use starting::{propagate, propagate_dropped, propagate_put};
use unsupported::{drop_suspects, drop_unsupported};

mod choice;
mod clash;
mod cleared;
mod first;
mod levels;
mod marking;
mod propagation;
mod starting;
mod suspected;
mod unsupported;

pub use choice::Choice;
pub use clash::{lowest_clash, lowest_in};
pub use first::{Unsettled, settle};
pub use marking::support;
pub use starting::propagate_chosen;

// What a closing comes to: the colouring, and of a contradiction the lowest rule in both sets.
#[derive(Clone, Copy)]
pub struct Closure {
    pub colours: Colouring,
    pub clash: Option<RuleNo>,
}

// The least closed colouring above c, also where a rule comes to be in both sets. Its marks are
// the support set of its off rules, and the rules that got their colour here have c's level.
pub fn close(rowed: &RowedBook, c: Colouring) -> Closure
    ensures { (written result.colours ≡ close (the_book rowed.now.book) (written c))
        × (picked result.clash ≡ clashed (the_book rowed.now.book)
        (pair (close (the_book rowed.now.book) (written c)))) }
{
    let mut on = c.on;
    let mut off = c.off;
    propagate(rowed, &mut on, &mut off);
    let before = off;
    drop_unsupported(&rowed.book, &mut off);
    let settled = off;
    propagate_dropped(rowed, &before, &mut on, &mut off);
    close_propagated(rowed, settled, &mut on, &mut off, false);
    ended(rowed.book.shape.rules, c, on, off)
}

// The same of d with the choice taken. Where a rule is chosen and d is closed, only what the rule
// brings is looked at.
pub fn close_chosen(rowed: &RowedBook, d: Colouring, choice: Choice) -> Closure
    requires { Takes (the_book rowed.now.book) (written d) choice }
    ensures { (written result.colours ≡
        close (the_book rowed.now.book) (taken choice (written d)))
        × (picked result.clash ≡ clashed (the_book rowed.now.book)
        (pair (close (the_book rowed.now.book) (taken choice (written d))))) }
{
    close_taken(rowed, d, choice, false)
}

// The same, left at the first contradiction: whoever only has to know that there is one need not wait
// for the end of the closing. Then some rule is told, and the colouring is the one before the closing.
pub fn close_or_clash(rowed: &RowedBook, d: Colouring, choice: Choice) -> Closure
    requires { Takes (the_book rowed.now.book) (written d) choice }
    ensures { Ends (the_book rowed.now.book) true (taken choice (written d))
        (written result.colours) (picked result.clash) }
{
    close_taken(rowed, d, choice, true)
}

// Both of them: `early` says whether the closing may be left.
fn close_taken(rowed: &RowedBook, d: Colouring, choice: Choice, early: bool) -> Closure
    requires { Takes (the_book rowed.now.book) (written d) choice }
    ensures { Ends (the_book rowed.now.book) early (taken choice (written d))
        (written result.colours) (picked result.clash) }
{
    match choice {
        Choice::Nothing => close(rowed, d),
        Choice::On(r) => close_put(rowed, d, Side::On, r, early),
        Choice::Off(r) => close_put(rowed, d, Side::Off, r, early),
    }
}

// The same with the rule put on that side.
fn close_put(rowed: &RowedBook, d: Colouring, side: Side, r: RuleNo, early: bool) -> Closure
    requires { Ready (the_book rowed.now.book) (written d) r }
    ensures { Ends (the_book rowed.now.book) early (chosen (side_of side) r (written d))
        (written result.colours) (picked result.clash) }
{
    let mut on = d.on;
    let mut off = d.off;
    propagate_put(rowed, side, r, &mut on, &mut off);
    let c = d.choose(side, r);
    if close_propagated(rowed, d.off, &mut on, &mut off, early) {
        return Closure {
            colours: c,
            clash: Some(r),
        };
    }
    ended(rowed.book.shape.rules, c, on, off)
}

// Whether a closing is left at these sets: it may be, and one of the rules is in both.
fn is_left(rules: u8, early: bool, on: &Bits, off: &Bits) -> bool
    ensures { result ≡ left_at early (lowest_from 0 rules
        (in_both (lent (listed on.now.w) (listed off.now.w)))) }
{
    early && lowest_clash(rules, *on, *off).is_some()
}

// Closes two sets from which nothing follows but by support: the rules that nothing holds up go off,
// and what follows from it is added, until there is none. With the settled rules off all others are
// supported. Where it may be left early it is left at a contradiction, and says so.
fn close_propagated(
    rowed: &RowedBook,
    settled: Bits,
    on: &mut Bits,
    off: &mut Bits,
    early: bool,
) -> bool
    requires { Propagated (the_book rowed.now.book) (lent (listed on.old.w) (listed off.old.w))
        × AllHeld (the_book rowed.now.book) (of (listed settled.w))
        × Under (the_book rowed.now.book) (of (listed settled.w)) (of (listed off.old.w)) }
    ensures { EndsAt (the_book rowed.now.book) early
        (lent (listed on.old.w) (listed off.old.w))
        (lent (listed on.new.w) (listed off.new.w)) result }
{
    let mut old = settled;
    loop {
        if is_left(rowed.book.shape.rules, early, on, off) {
            return true;
        }
        let before = *off;
        if !drop_suspects(rowed, &mut old, off) {
            return false;
        }
        propagate_dropped(rowed, &before, on, off);
    }
}

// What a closing of c comes to that ends at these sets: the levels of the rules that had no colour
// and have one, and the contradiction. In a closed pair the marks are the rules that are not off.
fn ended(rules: u8, c: Colouring, on: Bits, off: Bits) -> Closure
    ensures { (written result.colours ≡ ended_at rules (written c) (listed on.w) (listed off.w))
        × (picked result.clash ≡
        lowest_from 0 rules (in_both (lent (listed on.w) (listed off.w)))) }
{
    let new = on.union(off).difference(c.on.union(c.off));
    let mut levels = c.levels;
    stamp(rules, &new, c.level, &mut levels);
    Closure {
        colours: Colouring {
            on,
            off,
            marks: Bits::below(rules).difference(off),
            level: c.level,
            levels,
        },
        clash: lowest_clash(rules, on, off),
    }
}
