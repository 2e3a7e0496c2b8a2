// What a rule book means: the two kinds of number, sets of bits, the colouring, a paper's claim, marks and codes.
//
// This crate stands on nothing. Its definitions are in specs/, in the order that specs/Lib.antt
// gives; its laws, which need no code, are in proofs/. Every other crate uses the types below.
#![tactic(auto)]

mod bitset;
mod colouring;
mod kind;

pub use bitset::Bits;
pub use colouring::{Colouring, Side};
pub use kind::{CLEARING_MARK, Claim, Kind, Marked, NAMING_MARK, NO_READING_MARK};

// The number of an atom, one byte in a book.
#[derive(Clone, Copy, PartialEq, Eq)]
pub struct AtomNo(pub u8);

// The number of a rule, one byte in a paper. It is never given where an atom is due.
#[derive(Clone, Copy)]
pub struct RuleNo(pub u8);

// The codes of a paper's five steps: a rule goes on, a rule goes off, a list of rules goes off, a
// split, the end of a branch.
pub const STEP_ON: u8 = 0x41;

pub const STEP_OFF: u8 = 0x42;

pub const STEP_UNFOUNDED: u8 = 0x55;

pub const STEP_SPLIT: u8 = 0x53;

pub const STEP_END: u8 = 0x45;

// A paper has at most so many bytes.
pub const PAPER_BYTES: usize = 60000;
