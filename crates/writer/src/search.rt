// The lowest rule that a step is written for. Tables of atoms are made for the step, so that a
// search asks of an atom in one step.
ghost use Rattle.std.specs.Prelude.{◌≡◌, ◌<◌};
ghost use Rattle.meaning.specs.Bits.{listed};
ghost use Rattle.meaning.specs.Colours.{side_of};
ghost use Rattle.meaning.specs.Lowest.{lowest};
ghost use Rattle.book.specs.ReadBook.{the_book};
ghost use Rattle.closing.specs.Picked.{picked};
ghost use Rattle.writer.specs.Steps.{may_by, new_by};

use book::ReadBook;
use meaning::{Bits, Colouring, RuleNo, Side};

// The rule may go to this side: 41 if it is on, 42 if it is off.
fn may_go<'a>(
    book: &ReadBook,
    side: Side,
    r: RuleNo,
    headed: &'a [bool; Colouring::ATOMS],
    lost: &'a [bool; Colouring::ATOMS],
) -> bool
    requires { r.0 < book.now.shape.rules }
    ensures { result ≡
        may_by (side_of side) (the_book book.now) headed.now lost.now r }
{
    match side {
        Side::On => book.goes_on(r, headed, lost),
        Side::Off => book.is_blocked(r, headed),
    }
}

// The lowest rule that may go to this side and isn't in its set.
pub fn lowest_for<'a>(
    book: &ReadBook,
    side: Side,
    set: &Bits,
    headed: &'a [bool; Colouring::ATOMS],
    lost: &'a [bool; Colouring::ATOMS],
) -> Option<RuleNo>
    ensures { picked result ≡ lowest (the_book book.now)
        (new_by (side_of side) (the_book book.now) headed.now lost.now
        (listed set.now.w)) }
{
    for r in 0..book.shape.rules {
        if !set.has(r) && may_go(book, side, RuleNo(r), headed, lost) {
            return Some(RuleNo(r));
        }
    }
    None
}
