// What joining and the log answer.
ghost use Rattle.std.specs.Prelude.{◌≡◌};
ghost use Rattle.crews.specs.Log.{unlogged};

use book::Refusal;

// Why two books are not joined.
#[derive(Clone, Copy)]
pub enum Unjoined {
    // 1 to 7: the first book is refused.
    First(Refusal),
    // 1 to 7: the second book is refused.
    Second(Refusal),
    // 17: over 255 atoms or rules together.
    TooMany,
    // 19: the buffer is shorter than the joined book.
    NoRoom,
}

// Which of two books has a reading. The joined book stands in the buffer; its length.
#[derive(Clone, Copy)]
pub enum Logged {
    // Each book has a reading.
    Both(usize),
    // Only the second book has a reading.
    NoneInFirst(usize),
    // Only the first book has a reading.
    NoneInSecond(usize),
    // Neither book has a reading.
    NoneInEither(usize),
}

// Why two books are not logged.
#[derive(Clone, Copy)]
pub enum Unlogged {
    // 9: the search in a book needs more than this many tries, that book's limit.
    Stopped(u32),
    // 1 to 7: the first book is refused.
    First(Refusal),
    // 1 to 7: the second book is refused.
    Second(Refusal),
    // 17: over 255 atoms or rules together.
    TooMany,
    // 19: the buffer is shorter than the joined book.
    NoRoom,
}

impl From<Unjoined> for Unlogged {
    ghost from_gives = { λ why refused. refused ≡ unlogged why };

    fn from(why: Unjoined) -> Unlogged {
        match why {
            Unjoined::First(refusal) => Unlogged::First(refusal),
            Unjoined::Second(refusal) => Unlogged::Second(refusal),
            Unjoined::TooMany => Unlogged::TooMany,
            Unjoined::NoRoom => Unlogged::NoRoom,
        }
    }
}
