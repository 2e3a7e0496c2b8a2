// The writer: the engine's own paper that an atom is certain, that it is in no reading, or that the
// book has no reading. Stands on walk, closing, book and meaning.
//
// `name`, `clear` and `contradict` are one writer over the claim. It reads the book and, for a claim
// about an atom, walks to the first reading. Then it makes the paper in a draft of its own: the
// steps of each branch one by one (`next_step`), the branches split by split (`write_branches`), and
// behind them the witness, if the claim has one, and the trailer. A draft that came to its end and
// fits is copied to the caller's buffer, and nothing else ever is.
#![tactic(auto)]

mod answer;
mod branch;
mod draft;
mod hand_over;
mod list;
mod paper;
mod search;
mod split;
mod step;
mod witness;

pub use answer::Unwritten;
pub use paper::{clear, contradict, name, write_claim};
