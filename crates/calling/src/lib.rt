// How the programs for people are called: with the file of a book, with `--words` and a file of rules
// in words, or with `--text` and a text that a grounder wrote. Of words and texts the book is made in
// memory, and the names that are told are their own, so that no list beside a book can give an atom the
// name of another. Stands on words, lparse and talk.
//
// What words and texts mean is promised by words and lparse; what is read from a file or written no
// contract can say.
#![tactic(auto)]

mod described;
mod grounded;
mod names;
mod opened;
mod place;
mod quiet;
mod refusal;
mod sought;
mod source;
mod text;
mod worded;

pub use described::put_whose;
pub use grounded::explain_text;
pub use opened::{Opened, Unasked};
pub use quiet::{Unmade, make_quietly};
pub use source::{Source, open_at, open_book, shift, shift_at, source_at};
pub use text::{TEXT_ROOM, read_text};
pub use worded::open_words;
