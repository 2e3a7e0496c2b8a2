// What the table of rows says of a set of atoms: which are heads of on rules, which rules have them
// as heads, and whether one has lost all its rules.
ghost use Rattle.std.specs.Prelude.{◌≡◌};
ghost use Rattle.meaning.specs.Bits.{members};
ghost use Rattle.walk.specs.Search.{part_of, with_heads, lost_in};

use book::RowedBook;
use meaning::{AtomNo, Bits};

// Of the atoms in the mask, those that are heads of on rules.
pub fn shown_part(rowed: &RowedBook, mask: &Bits, on: Bits) -> Bits
    ensures { members result.w ≡ part_of rowed.now.rows mask.now.w on.w }
{
    let mut part = Bits::EMPTY;
    let mut i = mask.next_in(0);
    while i < 256 {
        let a = i as u8;
        if rowed.head_row(AtomNo(a)).meets(on) {
            part.put(a);
        }
        i = mask.next_in(i + 1);
    }
    part
}

// The rules whose head is one of the atoms.
pub fn rules_with(rowed: &RowedBook, atoms: &Bits) -> Bits
    ensures { members result.w ≡ with_heads rowed.now.rows atoms.now.w }
{
    let mut all = Bits::EMPTY;
    let mut i = atoms.next_in(0);
    while i < 256 {
        all = all.union(rowed.head_row(AtomNo(i as u8)));
        i = atoms.next_in(i + 1);
    }
    all
}

// Some of the atoms has all its rules off.
pub fn is_lost_in(rowed: &RowedBook, atoms: &Bits, off: Bits) -> bool
    ensures { result ≡ lost_in rowed.now.rows atoms.now.w off.w }
{
    let mut i = atoms.next_in(0);
    while i < 256 {
        if rowed.head_row(AtomNo(i as u8)).is_within(off) {
            return true;
        }
        i = atoms.next_in(i + 1);
    }
    false
}
