// Why a call for the counts of a book ends without them.
ghost use Rattle.std.specs.Prelude.{◌≡◌};
ghost use Rattle.counting.specs.declared.answer.Uncounted.TheVariants.{Book};

use book::Refusal;

#[derive(Clone, Copy)]
pub enum Uncounted {
    // 9: the whole walk needs more than so many tries.
    Stopped(u32),
    // 1 to 7: the book is refused.
    Book(Refusal),
}

impl From<Refusal> for Uncounted {
    ghost from_gives = { λ why refused. refused ≡ Book why };

    fn from(why: Refusal) -> Uncounted {
        Uncounted::Book(why)
    }
}
