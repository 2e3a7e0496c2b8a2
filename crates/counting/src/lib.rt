// The quarterly table: in how many answer sets of a book each atom stands, and the totals over
// several books. Stands on walk, book and meaning.
#![tactic(auto)]

mod answer;
mod column;
mod pages;
mod places;
mod sum;
mod turn;

pub use answer::Uncounted;
pub use pages::count;
pub use sum::Totals;
pub use turn::{Line, Turn, take_turn};
