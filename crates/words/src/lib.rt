// Books in words: any bytes are read as rules in words or refused with a number and a place, and
// the book of these rules is made, with the places of its atoms' names in the text. Stands on book.
#![tactic(auto)]

mod answer;
mod decision;
mod due;
mod known;
mod maker;
mod opened;
mod place;
mod step;
mod term;
mod token;

pub use answer::Unworded;
pub use known::atom_named;
pub use maker::make;
pub use place::{column_of, line_of};
