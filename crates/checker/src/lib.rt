// The checker: whoever wrote the paper, if it is accepted then its claim is right: the book has an
// answer set and the claimed atom is in all of them or in none, or the book has no answer set.
// Stands on book and meaning only.
//
// `check` reads the book, then the paper's trailer, its branches and its witness. A branch is run
// step by step (`run_steps`) up to its end or its split; a step is checked against the colouring as
// it stands, with no closing. What each part promises is in specs/. A step, a trailer and a witness
// can be checked alone too, by whoever tells a paper step by step.
//
// With R rules, a step 41 costs two passes over the rules and one over its body, a 42 one and one;
// a 55 one pass over the rules, one over its list and one over the positive atoms of each listed
// rule; a 45 two passes over the rules; a 53 two reads. A pass over the rules reads one head of
// each.
#![tactic(auto)]

mod answer;
mod branch;
mod condition;
mod list;
mod paper;
mod run;
mod step;
mod trailer;
mod witness;

pub use answer::Rejected;
pub use condition::{is_clashing, is_head, is_lost};
pub use list::with_rules;
pub use paper::check;
pub use run::Ran;
pub use step::{Step, Stop, check_step};
pub use trailer::{Trailer, read_trailer};
pub use witness::check_witness;
