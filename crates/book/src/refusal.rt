// Why bytes are refused as a book: document 01's numbers 1 to 7, each but the first with its place.
ghost use Rattle.std.specs.Prelude.{◌≡◌};
ghost use Rattle.book.specs.Numbers.{number_of, place_of};

#[derive(Clone, Copy)]
pub enum Refusal {
    // 1: under 6 or over 9,441 bytes.
    Length,
    // 2: the mark isn't 52 42.
    Mark(usize),
    // 3: index start + 2R + 6 isn't the length.
    Trailer(usize),
    // 4: an index entry isn't where the record before ended, or the last end isn't the index.
    Entry(usize),
    // 5: a record has under 3 bytes before the index, p or n over 16, or passes the index.
    Record(usize),
    // 6: an atom isn't below A.
    Atom(usize),
    // 7: a body part isn't ascending.
    Order(usize),
}

impl Refusal {
    // Document 01's number.
    pub fn number(self) -> u8
        ensures { result ≡ number_of self }
    {
        match self {
            Refusal::Length => 1,
            Refusal::Mark(_) => 2,
            Refusal::Trailer(_) => 3,
            Refusal::Entry(_) => 4,
            Refusal::Record(_) => 5,
            Refusal::Atom(_) => 6,
            Refusal::Order(_) => 7,
        }
    }

    // The place in the book; 0 where the length is wrong.
    pub fn place(self) -> usize
        ensures { result ≡ place_of self }
    {
        match self {
            Refusal::Length => 0,
            Refusal::Mark(at)
            | Refusal::Trailer(at)
            | Refusal::Entry(at)
            | Refusal::Record(at)
            | Refusal::Atom(at)
            | Refusal::Order(at) => at,
        }
    }
}
