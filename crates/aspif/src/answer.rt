// Why the two entry points refuse.
ghost use Rattle.std.specs.Prelude.{◌≡◌};
ghost use Rattle.aspif.specs.declared.answer.Unexported.TheVariants.{Book};

use book::Refusal;

#[derive(Clone, Copy)]
pub enum Unexported {
    // 1 to 7: the book was refused.
    Book(Refusal),
    // 33: the buffer is too short for the text.
    NoRoom,
}

impl From<Refusal> for Unexported {
    ghost from_gives = { λ why refused. refused ≡ Book why };

    fn from(why: Refusal) -> Unexported {
        Unexported::Book(why)
    }
}

#[derive(Clone, Copy)]
pub enum Unrestored {
    // 34: the text is none that a book has.
    Outside,
    // 35: the book passes the limits of size, or the buffer is too short for it.
    NoFit,
}
