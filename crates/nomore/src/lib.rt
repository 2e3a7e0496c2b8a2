// The no_mo_re way of choosing: a second engine, which finds the same readings in the order of a walk
// of its own. Stands on walk, closing, book and meaning.
#![tactic(auto)]

mod choose;
mod kth;
mod own;

pub use kth::find;
