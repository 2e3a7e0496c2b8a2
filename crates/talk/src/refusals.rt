// What the answers of the layers refuse, in one form for the lines of all programs: the number, and
// the place where there is one. The numbers are those of the answers themselves.
ghost use Rattle.std.specs.Prelude.{◌≡◌, Err};
ghost use Rattle.talk.specs.Refusals.{at, plain, of_book, of_paper, of_name};

use book::Refusal;
use checker::Rejected;
use meaning::Claim;
use writer::Unwritten;

#[derive(Clone, Copy)]
pub struct Refused {
    // 0 for an answer that refuses nothing.
    pub number: u8,
    pub place: Option<usize>,
}

impl Refused {
    pub const fn at(number: u8, place: usize) -> Refused
        ensures { result ≡ at number place }
    {
        Refused {
            number,
            place: Some(place),
        }
    }

    // Where there is no place.
    pub const fn plain(number: u8) -> Refused
        ensures { result ≡ plain number }
    {
        Refused {
            number,
            place: None,
        }
    }
}

// Why bytes are no book.
pub fn refused_book(why: Refusal) -> Refused
    ensures { result ≡ of_book why }
{
    Refused::at(why.number(), why.place())
}

// Why a paper is refused.
pub fn refused_paper(answer: Result<Claim, Rejected>) -> Refused
    ensures { result ≡ of_paper answer }
{
    match answer {
        Ok(_) => Refused::plain(0),
        Err(Rejected::Book(why)) => refused_book(why),
        Err(Rejected::Length) => Refused::at(20, 0),
        Err(Rejected::Mark(at)) => Refused::at(21, at),
        Err(Rejected::Trailer(at)) => Refused::at(22, at),
        Err(Rejected::Atom(at)) => Refused::at(23, at),
        Err(Rejected::Form(at)) => Refused::at(24, at),
        Err(Rejected::Fails(at)) => Refused::at(25, at),
        Err(Rejected::Gap(at)) => Refused::at(26, at),
        Err(Rejected::Witness(at)) => Refused::at(27, at),
    }
}

// Why no paper was written.
pub fn refused_name(answer: Result<(u32, usize), Unwritten>) -> Refused
    ensures { result ≡ of_name answer }
{
    match answer {
        Ok((_, _)) => Refused::plain(0),
        Err(Unwritten::Fewer(_, _)) => Refused::plain(11),
        Err(Unwritten::Stopped(_)) => Refused::plain(9),
        Err(Unwritten::Book(why)) => refused_book(why),
        Err(Unwritten::NotCertain) => Refused::plain(12),
        Err(Unwritten::NotClear) => Refused::plain(18),
        Err(Unwritten::NoAtom) => Refused::plain(13),
        Err(Unwritten::HasReading) => Refused::plain(38),
        Err(Unwritten::TooLong) => Refused::plain(14),
    }
}

// Each refusal alone, which is what most callers hold.
impl From<Refusal> for Refused {
    ghost from_gives = { λ why it. it ≡ of_book why };

    fn from(why: Refusal) -> Refused {
        refused_book(why)
    }
}

impl From<Rejected> for Refused {
    ghost from_gives = { λ why it. it ≡ of_paper (Err why) };

    fn from(why: Rejected) -> Refused {
        refused_paper(Err(why))
    }
}

impl From<Unwritten> for Refused {
    ghost from_gives = { λ why it. it ≡ of_name (Err why) };

    fn from(why: Unwritten) -> Refused {
        refused_name(Err(why))
    }
}
