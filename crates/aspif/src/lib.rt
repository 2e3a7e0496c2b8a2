// A book as a text for other solvers, and back.
#![tactic(auto)]

mod answer;
mod lines;
mod outputs;
mod part;
mod read;
mod rule;
mod rules;
mod scan;
mod whole;
mod write;

pub use answer::{Unexported, Unrestored};
pub use read::restore;
pub use write::{TEXT_ROOM, export};
