// The search for the first reading that matches a given one on the shown atoms. It is a walk of its
// own, from a colouring that keeps away from every shown atom that the reading lacks, and leaves a
// colouring as soon as a shown atom of the reading has lost all its rules. It counts as no try.
ghost use Rattle.std.specs.Prelude.{◌≡◌};
ghost use Rattle.meaning.specs.Sets.{every_below};
ghost use Rattle.meaning.specs.Bits.{members};
ghost use Rattle.meaning.specs.Choice.{agree};
ghost use Rattle.meaning.specs.Written.{written};
ghost use Rattle.book.specs.ReadBook.{the_book};
ghost use Rattle.closing.specs.Left.{Shallow};
ghost use Rattle.closing.specs.Taken.{taken, Takes};
ghost use Rattle.walk.specs.Search.{TellsFirst};

use crate::colours::lowest_uncoloured;
use crate::part::is_lost_in;
use crate::verdict::Verdict;
use book::RowedBook;
use closing::{Choice, close_or_clash};
use meaning::{Bits, Colouring};

// The two sets hold the same of the first `rules` rules.
pub fn same_rules(rules: u8, one: Bits, other: Bits) -> bool
    ensures { result ≡
        every_below rules (λ i. agree (members one.w i) (members other.w i)) }
{
    let all = Bits::below(rules);
    all.intersection(one).is_within(other) && all.intersection(other).is_within(one)
}

// The reading has the shown atoms `inside`, and its generating rules are `on`. The search ends
// because each choice leaves fewer rules without a colour.
pub fn first_alike(
    rowed: &RowedBook,
    c: Colouring,
    choice: Choice,
    inside: &Bits,
    on: Bits,
) -> Verdict
    requires { Shallow (the_book rowed.now.book) (taken choice (written c))
        × Takes (the_book rowed.now.book) (written c) choice }
    ensures { TellsFirst (the_book rowed.now.book) inside.now.w on.w
        (taken choice (written c)) result }
{
    let closed = close_or_clash(rowed, c, choice);
    if closed.clash.is_some() {
        return Verdict::Nobody;
    }
    let d = closed.colours;
    if is_lost_in(rowed, inside, d.off) {
        return Verdict::Nobody;
    }
    let Some(r) = lowest_uncoloured(rowed.book.shape.rules, d.on, d.off) else {
        if same_rules(rowed.book.shape.rules, on, d.on) {
            return Verdict::This;
        }
        return Verdict::Another;
    };
    let verdict = first_alike(rowed, d, Choice::On(r), inside, on);
    let Verdict::Nobody = verdict else {
        return verdict;
    };
    first_alike(rowed, d, Choice::Off(r), inside, on)
}
