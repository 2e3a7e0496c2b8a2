// What a try does that meets a reading.
ghost use Rattle.std.specs.Prelude.{◌≡◌, ◌<◌};
ghost use Rattle.meaning.specs.Colours.{heads};
ghost use Rattle.meaning.specs.Bits.{listed};
ghost use Rattle.meaning.specs.Written.{of};
ghost use Rattle.book.specs.ReadBook.{the_book};
ghost use Rattle.walk.specs.Run.{State, reading_met};
ghost use Rattle.walk.specs.Room.{Room};
ghost use Rattle.walk.specs.declared.tally.Halt.TheVariants.{Going};

use crate::bytes::write_row;
use crate::tally::{Halt, Tally};
use crate::wanted::Wanted;
use book::ReadBook;
use meaning::{Bits, Colouring};

// The reading is given by its on rules. It is passed over, or written behind the rows before it.
pub fn meet(book: &ReadBook, on: Bits, wanted: &Wanted, t: Tally, out: &mut [u8]) -> Tally
    requires { (t.tries < wanted.now.limit) × (t.halt ≡ Going)
        × Room (the_book book.now) wanted.now.pass wanted.now.room
        (record { tally = t; out = out.old }) }
    ensures { ◌≡◌ {A = State} (record { tally = result; out = out.new })
        (reading_met (the_book book.now) wanted.now
        (record { tally = t; out = out.old })
        (heads (the_book book.now) (of (listed on.w)))) }
{
    if t.sets < wanted.pass {
        return t.tried(t.sets + 1, Halt::Going);
    }
    let mut set = [false; Colouring::ATOMS];
    book.heads_of(&on, &mut set);
    let row = (t.sets - wanted.pass) as usize;
    write_row(book.shape.atoms, &set, row * book.shape.atoms as usize, out);
    if row + 1 == wanted.room {
        return t.tried(t.sets + 1, Halt::Full);
    }
    t.tried(t.sets + 1, Halt::Going)
}
