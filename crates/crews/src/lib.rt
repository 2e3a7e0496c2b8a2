// Two crews, one log: two books are joined into one, the second book's atoms and rules numbered on
// after the first's, and the log is told which of the two has a reading. Stands on walk, closing,
// book and meaning.
#![tactic(auto)]

mod answer;
mod lay;
mod one_book;
mod one_log;

pub use answer::{Logged, Unjoined, Unlogged};
pub use one_book::join;
pub use one_log::log;
