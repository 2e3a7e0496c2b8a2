// What a paper claims: of a kind about an atom, or that the book has no reading; and the mark that
// a paper with that claim ends in.
ghost use Rattle.std.specs.Prelude.{◌≡◌};
ghost use Rattle.meaning.specs.Claim.{claimed, mark, mark_of, marked_by};

use crate::AtomNo;

// That the atom is certain, in every reading of a book that has one; or that it is clear, in none.
#[derive(Clone, Copy)]
pub enum Kind {
    Naming,
    Clearing,
}

#[derive(Clone, Copy)]
pub enum Claim {
    About(Kind, AtomNo),
    // That the book has no reading. It speaks of no atom.
    NoReading,
}

// The last two bytes of a paper that names an atom: 50 46.
pub const NAMING_MARK: [u8; 2] = [0x50, 0x46];

// The last two bytes of a paper that clears an atom: 50 43.
pub const CLEARING_MARK: [u8; 2] = [0x50, 0x43];

// The last two bytes of a paper that a book has no reading: 50 4e.
pub const NO_READING_MARK: [u8; 2] = [0x50, 0x4e];

// What two bytes are as a paper's mark.
#[derive(Clone, Copy)]
pub enum Marked {
    Of(Kind),
    NoReading,
    Neither,
}

impl Kind {
    // The last two bytes of a paper of this kind.
    pub fn mark(self) -> [u8; 2]
        ensures { result ≡ mark_of self }
    {
        match self {
            Kind::Naming => NAMING_MARK,
            Kind::Clearing => CLEARING_MARK,
        }
    }

    // What a paper is whose last two bytes these are.
    pub fn by_mark(first: u8, second: u8) -> Marked
        ensures { result ≡ marked_by first second }
    {
        // all three marks begin with the same byte
        if first != NAMING_MARK[0] {
            return Marked::Neither;
        }
        if second == NAMING_MARK[1] {
            return Marked::Of(Kind::Naming);
        }
        if second == CLEARING_MARK[1] {
            return Marked::Of(Kind::Clearing);
        }
        if second == NO_READING_MARK[1] {
            return Marked::NoReading;
        }
        Marked::Neither
    }
}

impl Claim {
    // The last two bytes of a paper with this claim.
    pub fn mark(self) -> [u8; 2]
        ensures { result ≡ mark self }
    {
        match self {
            Claim::About(kind, _) => kind.mark(),
            Claim::NoReading => NO_READING_MARK,
        }
    }

    // The first byte of a paper's trailer: the claimed atom, or 0 where no atom is claimed.
    pub fn byte(self) -> u8
        ensures { result ≡ claimed self }
    {
        match self {
            Claim::About(_, atom) => atom.0,
            Claim::NoReading => 0,
        }
    }
}
