// The quarterly table as it is written, for the programs `table` and `desk`. Stands on counting and
// talk.
//
// The functions here write to standard output, and no contract can say what: their comments do. What
// is written of a book is what `counting::take_turn` gives.
#![tactic(auto)]

mod line;
mod rows;

pub use line::Layout;
pub use rows::{MOST_BOOKS, Table};
