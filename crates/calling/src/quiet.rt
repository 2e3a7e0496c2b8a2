// A book made of words or of a text without a line on it, for a table of many.
use crate::grounded::refused_text;
use lparse::{Unimported, import};
use words::{Unworded, make};

// Why no book was made.
#[derive(Clone, Copy)]
pub enum Unmade {
    Words(Unworded),
    Text(Unimported),
}

impl Unmade {
    // The number of the refusal.
    pub fn number(self) -> u8 {
        match self {
            Unmade::Words(Unworded::Form(_)) => 40,
            Unmade::Words(Unworded::Name(_)) => 41,
            Unmade::Words(Unworded::TooMany(_)) => 42,
            Unmade::Words(Unworded::NoRoom) => 43,
            Unmade::Text(why) => refused_text(Err(why)).number,
        }
    }
}

impl From<Unworded> for Unmade {
    fn from(why: Unworded) -> Unmade {
        Unmade::Words(why)
    }
}

impl From<Unimported> for Unmade {
    fn from(why: Unimported) -> Unmade {
        Unmade::Text(why)
    }
}

// Makes the book of rules in words, or of a grounder's text, and gives how many bytes it has, at the
// start of the buffer.
pub fn make_quietly(are_words: bool, text: &[u8], book: &mut [u8]) -> Result<usize, Unmade> {
    if are_words {
        let mut from = [0usize; 255];
        let mut to = [0usize; 255];
        return Ok(make(text, book, &mut from, &mut to)?);
    }
    Ok(import(text, book)?)
}
