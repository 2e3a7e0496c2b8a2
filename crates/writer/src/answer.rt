// Why a call for a paper gives none, where it doesn't answer with the tries of the paper's walk and the
// length of the paper that stands in the buffer.
ghost use Rattle.std.specs.Prelude.{◌≡◌, Err};
ghost use Rattle.meaning.specs.Told.{refused};
ghost use Rattle.writer.specs.Write.{told, failing};
ghost use Rattle.writer.specs.declared.answer.Unwritten.TheVariants.{Book};

use book::Refusal;
use meaning::{Claim, Kind, RuleNo};

#[derive(Clone, Copy)]
pub enum Unwritten {
    // 11: no reading; all tries of the walk to the first one, and the rule of the last
    // contradictory try.
    Fewer(u32, RuleNo),
    // 9: more than this many tries are needed.
    Stopped(u32),
    // 1 to 7: the book is refused.
    Book(Refusal),
    // 12: a reading lacks the atom.
    NotCertain,
    // 18: a reading holds the atom.
    NotClear,
    // 13: the atom isn't below A.
    NoAtom,
    // 38: the book has a reading.
    HasReading,
    // 14: the paper is longer than the buffer or 60,000 bytes.
    TooLong,
}

impl From<Refusal> for Unwritten {
    ghost from_gives = { λ why it. it ≡ Book why };

    fn from(why: Refusal) -> Unwritten {
        Unwritten::Book(why)
    }
}

// What is told of a claim that fails of a reading.
pub fn unproved(claim: Claim) -> Unwritten
    ensures { told (Err result) ≡ refused (failing claim) }
{
    match claim {
        Claim::About(Kind::Naming, _) => Unwritten::NotCertain,
        Claim::About(Kind::Clearing, _) => Unwritten::NotClear,
        Claim::NoReading => Unwritten::HasReading,
    }
}
