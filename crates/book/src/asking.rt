// What is asked of atoms by rows, whatever they are: one question to an atom, whatever the number of its
// rules. `RowedBook` asks by those of its book.
ghost use Rattle.std.specs.Prelude.{◌≡◌, map};
ghost use Rattle.meaning.specs.Sets.{every};
ghost use Rattle.meaning.specs.Books.{atom_no};
ghost use Rattle.book.specs.RuleRows.{headed_by, lost_by};

use crate::standing::head_row;
use meaning::{AtomNo, Bits};

// The atom is the head of a rule of the set.
pub fn is_headed(rows: &[u64; 3072], a: AtomNo, on: &Bits) -> bool
    ensures { result ≡ headed_by rows.now on.now.w a }
{
    head_row(rows, a).meets(*on)
}

// All rules of the atom are in the set.
pub fn is_lost(rows: &[u64; 3072], a: AtomNo, off: &Bits) -> bool
    ensures { result ≡ lost_by rows.now off.now.w a }
{
    head_row(rows, a).is_within(*off)
}

// Every atom of the part is the head of a rule of the set.
pub fn every_headed(part: &[u8], rows: &[u64; 3072], on: &Bits) -> bool
    ensures { result ≡
        every (headed_by rows.now on.now.w) (map atom_no part.now) }
{
    part.iter().all(|a| is_headed(rows, AtomNo(*a), on))
}

// Of every atom of the part all rules are in the set.
pub fn every_lost(part: &[u8], rows: &[u64; 3072], off: &Bits) -> bool
    ensures { result ≡
        every (lost_by rows.now off.now.w) (map atom_no part.now) }
{
    part.iter().all(|a| is_lost(rows, AtomNo(*a), off))
}
