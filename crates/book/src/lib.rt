// The rule book: any bytes are read as a book or refused with a number and a place, and the rules
// of a good book are handed out in place. Stands on meaning.
#![tactic(auto)]

mod asking;
mod conditions;
mod making;
mod number;
mod part;
mod read;
mod reader;
mod record;
mod refusal;
mod rowed;
mod standing;

pub use asking::{every_headed, is_headed, is_lost};
pub use conditions::{every_in, some_in};
pub use making::{Making, add_rule, copy_front, count_atoms, finish_book};
pub use number::{u16_at, wide};
pub use read::ReadBook;
pub use reader::{Shape, read_book};
pub use refusal::Refusal;
pub use rowed::RowedBook;
pub use standing::{head_row, neg_row, pos_row};

// The last two bytes of every book: 52 42.
pub const BOOK_MARK: [u8; 2] = [0x52, 0x42];

// A book has at most so many bytes: 255 rules with full bodies, the index and the trailer.
pub const BOOK_BYTES: usize = 9441;
