// The next step of the engine's own paper, on the colouring as it stands. Nothing is changed.
ghost use Rattle.std.specs.Prelude.{◌≡◌, ◌<◌};
ghost use Rattle.meaning.specs.Colours.{clashing};
ghost use Rattle.meaning.specs.Claim.{claimed};
ghost use Rattle.meaning.specs.Bits.{listed};
ghost use Rattle.meaning.specs.Written.{lent};
ghost use Rattle.meaning.specs.Engine.{next};
ghost use Rattle.book.specs.ReadBook.{the_book};
ghost use Rattle.writer.specs.Steps.{Does, tabled};

use crate::list::list_unsupported;
use crate::search::lowest_for;
use book::{ReadBook, wide};
use closing::lowest_clash;
use meaning::{Bits, Claim, Colouring, Kind, RuleNo, Side};
use walk::lowest_uncoloured;

// A step that the branch goes on after, or what it stops by.
#[derive(Clone, Copy)]
pub enum Step {
    // 41 and 42, with their rule.
    On(RuleNo),
    Off(RuleNo),
    // 55, with the length of its list. The rules are those of the set beside it.
    Unfounded(u8),
    Stops(Tip),
}

#[derive(Clone, Copy)]
pub enum Tip {
    // 45.
    Ended,
    // 53, with its rule.
    Parted(RuleNo),
    // No step is left, every rule has a colour, and 45 isn't allowed.
    Unsettled,
}

// Some rule is in both sets.
fn is_clashing<'a>(book: &ReadBook, on: &'a Bits, off: &'a Bits) -> bool
    ensures { result ≡
        clashing (the_book book.now) (lent (listed on.now.w) (listed off.now.w)) }
{
    lowest_clash(book.shape.rules, *on, *off).is_some()
}

// What the tables say of the claimed atom: the head of an on rule, or of off rules only. That the
// book has no reading is shown by no colouring.
fn is_shown<'a>(
    claim: Claim,
    headed: &'a [bool; Colouring::ATOMS],
    lost: &'a [bool; Colouring::ATOMS],
) -> bool
    requires { claimed claim < 255 }
    ensures { result ≡ tabled claim headed.now lost.now }
{
    match claim {
        Claim::About(Kind::Naming, atom) => headed[wide(atom.0)],
        Claim::About(Kind::Clearing, atom) => lost[wide(atom.0)],
        Claim::NoReading => false,
    }
}

// 45 as soon as allowed; else the first of 41, 42, 55 and 53 that there is a rule for. The rules of
// 55 are written over whatever the set held.
pub fn next_step<'a>(
    book: &ReadBook,
    claim: Claim,
    on: &'a Bits,
    off: &'a Bits,
    dropped: &mut Bits,
) -> Step
    requires { claimed claim < 255 }
    ensures { Does (the_book book.now) (listed dropped.new.w) result
        (next (the_book book.now) claim
        (lent (listed on.now.w) (listed off.now.w))) }
{
    if is_clashing(book, on, off) {
        return Step::Stops(Tip::Ended);
    }
    let mut headed = [false; Colouring::ATOMS];
    book.heads_of(on, &mut headed);
    let mut lost = [false; Colouring::ATOMS];
    book.lost_in(off, &mut lost);
    if is_shown(claim, &headed, &lost) {
        return Step::Stops(Tip::Ended);
    }
    if let Some(r) = lowest_for(book, Side::On, on, &headed, &lost) {
        return Step::On(r);
    }
    if let Some(r) = lowest_for(book, Side::Off, off, &headed, &lost) {
        return Step::Off(r);
    }
    let m = list_unsupported(book, off, dropped);
    if m != 0 {
        return Step::Unfounded(m);
    }
    if let Some(r) = lowest_uncoloured(book.shape.rules, *on, *off) {
        return Step::Stops(Tip::Parted(r));
    }
    Step::Stops(Tip::Unsettled)
}
