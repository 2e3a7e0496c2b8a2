// Suspects that are supported after all: those that stand on supported rules alone. A suspect is
// asked again only where one of its positive atoms has become the head of a supported rule.
ghost use Rattle.std.specs.Prelude.{◌≡◌, not, ◌&&◌, ◌+◌, ◌<◌};
ghost use Rattle.meaning.specs.Colours.{Under};
ghost use Rattle.meaning.specs.Bits.{plus, members, listed};
ghost use Rattle.meaning.specs.Written.{of};
ghost use Rattle.meaning.specs.Suspects.{Cleared};
ghost use Rattle.book.specs.ReadBook.{the_book};
ghost use Rattle.book.specs.RuleRows.{sets, headed_by};
ghost use Rattle.closing.specs.Clearing.{Tried, Swept, no_rules};

use crate::suspected::join_standing;
use book::RowedBook;
use meaning::{AtomNo, Bits, RuleNo};

// Joins the rules that stand on the atom into the one set, unless the atom is the head of a rule of
// the other.
fn wake(rowed: &RowedBook, a: AtomNo, held: &Bits, woken: &mut Bits)
    ensures { members woken.new.w ≡ plus (members woken.old.w)
        (λ r. not (headed_by rowed.now.rows held.now.w a)
        && sets rowed.now.rows (256 + a.0) r) }
{
    if rowed.is_headed(a, held) {
        return;
    }
    join_standing(rowed, a, woken);
}

// A suspect has its look: if it stands on rules that are held it is held too, and wakes those that
// stand on its head.
fn try_suspect(rowed: &RowedBook, r: RuleNo, held: &mut Bits, woken: &mut Bits)
    requires { r.0 < rowed.now.book.shape.rules }
    ensures { Tried (the_book rowed.now.book) r (of (listed held.old.w))
        (of (listed woken.old.w)) (of (listed held.new.w))
        (of (listed woken.new.w)) }
{
    if !rowed.every_headed(rowed.book.positives(r), held) {
        return;
    }
    wake(rowed, rowed.book.head(r), held, woken);
    held.put(r.0);
}

// Every candidate has its look, in order. Candidates are then the suspects that were woken and are
// not held.
fn try_suspects(rowed: &RowedBook, suspects: &Bits, cand: &mut Bits, held: &mut Bits)
    ensures { Swept (the_book rowed.now.book) (of (listed suspects.now.w))
        (of (listed held.old.w)) (of (listed cand.old.w))
        (of (listed held.new.w)) no_rules (of (listed cand.new.w))
        × Under (the_book rowed.now.book) (of (listed cand.new.w))
        (of (listed suspects.now.w)) }
{
    let mut woken = Bits::EMPTY;
    let end = rowed.book.shape.rules as usize;
    let mut r = cand.next_in(0);
    while r < end {
        try_suspect(rowed, RuleNo(r as u8), held, &mut woken);
        r = cand.next_in(r + 1);
    }
    *cand = woken.intersection(*suspects).difference(*held);
}

// Adds to the rules that are held the suspects that stand on them, and so on until there is none.
pub fn clear(rowed: &RowedBook, suspects: &Bits, held: &mut Bits)
    ensures { Cleared (the_book rowed.now.book) (of (listed suspects.now.w))
        (of (listed held.old.w)) (of (listed held.new.w)) }
{
    let mut cand = *suspects;
    loop {
        try_suspects(rowed, suspects, &mut cand, held);
        if cand.is_within(Bits::empty()) {
            return;
        }
    }
}
