// The listing of all readings of a book, for the programs `readings` and `desk`. Stands on walk,
// book and talk.
//
// What is gathered in a buffer, and how the listing goes on from page to page, is promised. What is
// written to standard output no contract can say: the comments do.
#![tactic(auto)]

mod named;
mod page;
mod rows;
mod whole;

pub use named::put_named;
pub use rows::{put_places, put_set};
pub use whole::{LIMIT, list};
