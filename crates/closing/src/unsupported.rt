// The rules that nothing holds up go off.
ghost use Rattle.std.specs.Prelude.{◌≡◌};
ghost use Rattle.meaning.specs.Sets.{some_below};
ghost use Rattle.meaning.specs.Colours.{Under};
ghost use Rattle.meaning.specs.Bits.{plus, members, listed};
ghost use Rattle.meaning.specs.Written.{of};
ghost use Rattle.meaning.specs.Pending.{joined};
ghost use Rattle.meaning.specs.Suspects.{Settled};
ghost use Rattle.book.specs.ReadBook.{the_book};
ghost use Rattle.closing.specs.Dropped.{unheld, Dropped};

use crate::cleared::clear;
use crate::marking::support;
use crate::suspected::find_suspects;
use book::{ReadBook, RowedBook};
use meaning::Bits;

// Puts off the rules outside the support set of the off rules.
pub fn drop_unsupported(book: &ReadBook, off: &mut Bits)
    ensures { of (listed off.new.w) ≡ joined (of (listed off.old.w))
        (unheld (the_book book.now) (of (listed off.old.w))) }
{
    let mut marks = Bits::EMPTY;
    support(book, off, &mut marks);
    let rest = Bits::below(book.shape.rules)
        .difference(marks)
        .difference(*off);
    off.join(rest);
}

// Writes the rules outside the support set of the off rules that are not off. With the `old` ones
// off all others were supported, so only suspects are looked at.
fn find_unsupported(rowed: &RowedBook, old: &Bits, off: &Bits, rest: &mut Bits)
    requires { Settled (the_book rowed.now.book) (of (listed old.now.w))
        × Under (the_book rowed.now.book) (of (listed old.now.w)) (of (listed off.now.w)) }
    ensures { of (listed rest.new.w) ≡
        unheld (the_book rowed.now.book) (of (listed off.now.w)) }
{
    *rest = Bits::EMPTY;
    if off.is_within(*old) {
        return;
    }
    let mut suspects = Bits::EMPTY;
    find_suspects(rowed, old, off, &mut suspects);
    let others = Bits::below(rowed.book.shape.rules)
        .difference(*off)
        .difference(suspects);
    let mut held = others;
    clear(rowed, &suspects, &mut held);
    *rest = suspects.difference(held);
}

// Puts the rules off; whether there was one.
fn put_off(rest: &Bits, off: &mut Bits) -> bool
    ensures { (members off.new.w ≡
        plus (members off.old.w) (members rest.now.w))
        × (result ≡ some_below 256 (members rest.now.w)) }
{
    off.join(*rest);
    !rest.is_within(Bits::empty())
}

// Puts off the rules outside the support set of the off rules, looking at suspects alone; whether there
// was one that was not off. Afterwards `old` is what is off.
pub fn drop_suspects(rowed: &RowedBook, old: &mut Bits, off: &mut Bits) -> bool
    requires { Settled (the_book rowed.now.book) (of (listed old.old.w))
        × Under (the_book rowed.now.book) (of (listed old.old.w)) (of (listed off.old.w)) }
    ensures { Dropped (the_book rowed.now.book) (of (listed off.old.w)) result
        (of (listed off.new.w)) × (old.new.w ≡ off.new.w) }
{
    let mut rest = Bits::EMPTY;
    find_unsupported(rowed, old, off, &mut rest);
    let more = put_off(&rest, off);
    *old = *off;
    more
}
