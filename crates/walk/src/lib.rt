// The walk: finds the readings of a book, in the order that the book fixes, and counts the tries.
// Stands on closing, book and meaning.
#![tactic(auto)]

mod bytes;
mod colours;
mod counts;
mod descent;
mod kth;
mod list;
mod memory;
mod met;
mod origin;
mod page_answer;
mod pages;
mod part;
mod resume;
mod search;
mod selected;
mod tally;
mod verdict;
mod walk;
mod wanted;

pub use colours::lowest_uncoloured;
pub use descent::levels;
pub use kth::{Unfound, find, first, tell};
pub use met::meet;
pub use page_answer::{NoPage, Page};
pub use pages::page;
pub use resume::generates;
pub use selected::find_shown;
pub use tally::{Halt, Tally};
pub use wanted::Wanted;
