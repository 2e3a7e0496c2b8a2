// Why a paper is refused, where checking doesn't answer with the claim that holds.
ghost use Rattle.std.specs.Prelude.{◌≡◌};
ghost use Rattle.checker.specs.declared.answer.Rejected.TheVariants.{Book};

use book::Refusal;

#[derive(Clone, Copy)]
pub enum Rejected {
    // 1 to 7: the book is refused.
    Book(Refusal),
    // 20: under 6 or over 60,000 bytes.
    Length,
    // 21: the mark is none of 50 46, 50 43 and 50 4e.
    Mark(usize),
    // 22: witness start + w + 6 isn't the length.
    Trailer(usize),
    // 23: the claimed atom isn't below A; or, where no atom is claimed, its byte isn't 0.
    Atom(usize),
    // 24: a step of unknown code, a rule not below R, a bad list, or a step due at the witness
    // start or passing it.
    Form(usize),
    // 25: a step's condition doesn't hold.
    Fails(usize),
    // 26: bytes between the last 45 and the witness.
    Gap(usize),
    // 27: the witness is wrong; or, where the book is said to have no reading, there is one.
    Witness(usize),
}

impl From<Refusal> for Rejected {
    ghost from_gives = { λ why it. it ≡ Book why };

    fn from(why: Refusal) -> Rejected {
        Rejected::Book(why)
    }
}
