// The no_mo_re walk. A try is one closing without support, and the test where no rule is left to
// choose is another: the limit is tested before each.
ghost use Rattle.std.specs.Prelude.{◌≡◌};
ghost use Rattle.meaning.specs.Bits.{listed};
ghost use Rattle.meaning.specs.Written.{coloured, lent, pair};
ghost use Rattle.meaning.specs.Lowest.{clashed};
ghost use Rattle.meaning.specs.Propagation.{propagate};
ghost use Rattle.book.specs.ReadBook.{the_book};
ghost use Rattle.closing.specs.Picked.{picked};
ghost use Rattle.closing.specs.Taken.{puts, Puts};
ghost use Rattle.walk.specs.Run.{State, run};
ghost use Rattle.walk.specs.Room.{Room};
ghost use Rattle.walk.specs.declared.tally.Halt.TheVariants.{Going};
ghost use Rattle.nomore.specs.Own.{test_of, own_from};

use crate::choose::{lowest_supported, rest_off};
use book::RowedBook;
use closing::{Choice, lowest_clash, propagate_chosen};
use meaning::{Bits, RuleNo};
use walk::{Halt, Tally, Wanted, meet};

// What closing without support comes to: the two sets, and of a contradiction the lowest rule in
// both.
#[derive(Clone, Copy)]
struct Grown {
    on: Bits,
    off: Bits,
    clash: Option<RuleNo>,
}

// Closes the two sets, with the choice taken, without support.
fn grow(rowed: &RowedBook, on: Bits, off: Bits, choice: Choice) -> Grown
    requires { Puts (the_book rowed.now.book) (lent (listed on.w) (listed off.w)) choice }
    ensures { (coloured (listed result.on.w) (listed result.off.w) ≡
        propagate (the_book rowed.now.book)
        (puts choice (coloured (listed on.w) (listed off.w))))
        × (picked result.clash ≡ clashed (the_book rowed.now.book)
        (pair (coloured (listed result.on.w) (listed result.off.w)))) }
{
    let mut more_on = on;
    let mut more_off = off;
    propagate_chosen(rowed, choice, &mut more_on, &mut more_off);
    Grown {
        on: more_on,
        off: more_off,
        clash: lowest_clash(rowed.book.shape.rules, more_on, more_off),
    }
}

// The test of two sets that have every rule between them: a reading unless closing without support
// brings a rule to both.
fn test(rowed: &RowedBook, on: Bits, off: Bits, wanted: &Wanted, t: Tally, out: &mut [u8]) -> Tally
    requires { (t.halt ≡ Going)
        × Room (the_book rowed.now.book) wanted.now.pass wanted.now.room
        (record { tally = t; out = out.old }) }
    ensures { ◌≡◌ {A = State} (record { tally = result; out = out.new })
        (run (the_book rowed.now.book) wanted.now
        (record { tally = t; out = out.old })
        (test_of (the_book rowed.now.book) (coloured (listed on.w) (listed off.w)))) }
{
    if wanted.limit <= t.tries {
        return t.stopped();
    }
    let tested = grow(rowed, on, off, Choice::Nothing);
    if let Some(r) = tested.clash {
        return t.clashed(r);
    }
    meet(&rowed.book, on, wanted, t, out)
}

// Walks on from two sets with the choice taken: one try, and after it first with a rule on, then
// with it off, each from the sets before that choice. It ends because each choice leaves fewer rules without a colour.
pub fn own(
    rowed: &RowedBook,
    on: Bits,
    off: Bits,
    choice: Choice,
    wanted: &Wanted,
    t: Tally,
    out: &mut [u8],
) -> Tally
    requires { Room (the_book rowed.now.book) wanted.now.pass wanted.now.room
        (record { tally = t; out = out.old })
        × Puts (the_book rowed.now.book) (lent (listed on.w) (listed off.w)) choice }
    ensures { ◌≡◌ {A = State} (record { tally = result; out = out.new })
        (run (the_book rowed.now.book) wanted.now
        (record { tally = t; out = out.old })
        (own_from (the_book rowed.now.book)
        (puts choice (coloured (listed on.w) (listed off.w))))) }
{
    let Halt::Going = t.halt else {
        return t;
    };
    if wanted.limit <= t.tries {
        return t.stopped();
    }
    let d = grow(rowed, on, off, choice);
    if let Some(r) = d.clash {
        return t.clashed(r);
    }
    let next = t.tried(t.sets, Halt::Going);
    let Some(r) = lowest_supported(rowed, d.on, d.off) else {
        let rest = rest_off(rowed.book.shape.rules, d.on, d.off);
        return test(rowed, d.on, rest, wanted, next, out);
    };
    let first = own(rowed, d.on, d.off, Choice::On(r), wanted, next, out);
    own(rowed, d.on, d.off, Choice::Off(r), wanted, first, out)
}
