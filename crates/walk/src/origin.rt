// The last contradictory try, kept by the sets from which it was closed, and its rule.
ghost use Rattle.std.specs.Prelude.{◌≡◌};
ghost use Rattle.meaning.specs.Bits.{listed};
ghost use Rattle.meaning.specs.Written.{coloured};
ghost use Rattle.book.specs.ReadBook.{the_book};
ghost use Rattle.walk.specs.Origin.{origin_in, told_clash};

use crate::memory::{keep, words_at};
use crate::tally::Tally;
use book::RowedBook;
use closing::close;
use meaning::{Bits, Colouring};

// Keeps the two sets over those of the try before.
pub fn keep_origin(on: Bits, off: Bits, origin: &mut [u64; 8])
    ensures { origin_in origin.new ≡ coloured (listed on.w) (listed off.w) }
{
    keep(origin, 0, on, off);
}

// The tally with the rule of the last contradictory try, if there was one: the one closing of a walk
// that goes on to its end after a contradiction.
pub fn tell_clash(rowed: &RowedBook, origin: &[u64; 8], t: Tally) -> Tally
    ensures { result ≡ told_clash (the_book rowed.now.book) origin.now t }
{
    if t.clash.0 == 255 {
        return t;
    }
    let c = Colouring {
        on: words_at(origin, 0),
        off: words_at(origin, 1),
        ..Colouring::empty()
    };
    let closed = close(rowed, c);
    let Some(r) = closed.clash else {
        return t;
    };
    Tally { clash: r, ..t }
}
