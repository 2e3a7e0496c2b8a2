// The walk itself. "One try is one closing": the limit is tested before it, so that a call which
// stops at the limit makes no further closing.
ghost use Rattle.std.specs.Prelude.{◌≡◌};
ghost use Rattle.meaning.specs.Written.{written};
ghost use Rattle.book.specs.ReadBook.{the_book};
ghost use Rattle.closing.specs.Left.{Shallow};
ghost use Rattle.closing.specs.Taken.{taken, Takes};
ghost use Rattle.walk.specs.Events.{events};
ghost use Rattle.walk.specs.Run.{State, run};
ghost use Rattle.walk.specs.Room.{Room};
ghost use Rattle.walk.specs.Origin.{told_clash};
ghost use Rattle.walk.specs.FirstAlike.{counts, counted_by};
ghost use Rattle.walk.specs.Search.{shown_in, Remembers};

use crate::colours::lowest_uncoloured;
use crate::counts::does_count;
use crate::met::meet;
use crate::origin::keep_origin;
use crate::tally::{Halt, Tally};
use crate::wanted::Wanted;
use book::RowedBook;
use closing::{Choice, close_or_clash};
use meaning::{Bits, Colouring, RuleNo};

// Walks on from the colouring c with the choice taken: one try, and after it first with a rule on,
// then with it off, each from the colouring before that choice. Every reading counts, or only those that no earlier
// one matches on the shown atoms, which are the mask; the memory holds what was found to count.
// It ends because each choice leaves fewer rules without a colour: closing takes no colour away, and
// the chosen rule, which had none, gets one. So it goes at most 255 levels deep. A closing is left at
// its first contradiction: the rule of the last one is told by whoever needs it, from its origin.
pub fn walk_shown(
    rowed: &RowedBook,
    c: Colouring,
    choice: Choice,
    every: bool,
    mask: &Bits,
    wanted: &Wanted,
    t: Tally,
    origin: &mut [u64; 8],
    seen: &mut [u64],
    out: &mut [u8],
) -> Tally
    requires { Room (the_book rowed.now.book) wanted.now.pass wanted.now.room
        (record { tally = t; out = out.old })
        × Shallow (the_book rowed.now.book) (taken choice (written c))
        × Remembers every (the_book rowed.now.book) (shown_in mask.now.w) seen.old t.sets
        × Takes (the_book rowed.now.book) (written c) choice }
    ensures { (◌≡◌ {A = State}
        (record { tally = told_clash (the_book rowed.now.book) origin.new result; out = out.new })
        (run (the_book rowed.now.book) wanted.now
        (record { tally = told_clash (the_book rowed.now.book) origin.old t; out = out.old })
        (counted_by (the_book rowed.now.book)
        (counts every (the_book rowed.now.book) (shown_in mask.now.w))
        (events (the_book rowed.now.book) (taken choice (written c))))))
        × Remembers every (the_book rowed.now.book) (shown_in mask.now.w) seen.new result.sets }
{
    let Halt::Going = t.halt else {
        return t;
    };
    if wanted.limit <= t.tries {
        return t.stopped();
    }
    let closed = close_or_clash(rowed, c, choice);
    let d = closed.colours;
    if closed.clash.is_some() {
        keep_origin(d.on, d.off, origin);
        return t.clashed(RuleNo(0));
    }
    let Some(r) = lowest_uncoloured(rowed.book.shape.rules, d.on, d.off) else {
        if !does_count(rowed, d.on, every, mask, t.sets, seen) {
            return t.tried(t.sets, Halt::Going);
        }
        return meet(&rowed.book, d.on, wanted, t, out);
    };
    let forked = t.tried(t.sets, Halt::Going);
    let first = walk_shown(
        rowed,
        d,
        Choice::On(r),
        every,
        mask,
        wanted,
        forked,
        origin,
        seen,
        out,
    );
    walk_shown(
        rowed,
        d,
        Choice::Off(r),
        every,
        mask,
        wanted,
        first,
        origin,
        seen,
        out,
    )
}

// The walk on which every reading counts.
pub fn walk(
    rowed: &RowedBook,
    c: Colouring,
    choice: Choice,
    wanted: &Wanted,
    t: Tally,
    origin: &mut [u64; 8],
    out: &mut [u8],
) -> Tally
    requires { Room (the_book rowed.now.book) wanted.now.pass wanted.now.room
        (record { tally = t; out = out.old })
        × Shallow (the_book rowed.now.book) (taken choice (written c))
        × Takes (the_book rowed.now.book) (written c) choice }
    ensures { ◌≡◌ {A = State}
        (record { tally = told_clash (the_book rowed.now.book) origin.new result; out = out.new })
        (run (the_book rowed.now.book) wanted.now
        (record { tally = told_clash (the_book rowed.now.book) origin.old t; out = out.old })
        (events (the_book rowed.now.book) (taken choice (written c)))) }
{
    let mask = Bits::EMPTY;
    let mut seen = [0u64; 1];
    walk_shown(
        rowed, c, choice, true, &mask, wanted, t, origin, &mut seen, out,
    )
}
