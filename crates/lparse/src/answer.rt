// Why no book is made of a text.
ghost use Rattle.std.specs.Prelude.{◌≡◌};
ghost use Rattle.lparse.specs.Collect.{unimported};

use crate::step::Unread;

#[derive(Clone, Copy)]
pub enum Unimported {
    // 30: the first byte of a word that cannot stand there, or the length where text is missing.
    Format(usize),
    // 31: the first byte of a rule type that is not read.
    Kind(usize),
    // 32: the book passes the limits or the buffer.
    NoFit,
}

impl From<Unread> for Unimported {
    ghost from_gives = { λ u r. r ≡ unimported u };

    fn from(u: Unread) -> Unimported {
        match u {
            Unread::Format(place) => Unimported::Format(place),
            Unread::Kind(place) => Unimported::Kind(place),
        }
    }
}
