// One part of a rule's body, read.
ghost use Rattle.std.specs.Prelude.{◌≡◌, false, List, [], ◌∷◌, ◌++◌, ◌-◌, ◌≤◌, ◌<◌, length, replicate};
ghost use Rattle.meaning.specs.declared.AtomNo.{AtomNo};
ghost use Rattle.meaning.specs.Books.{atom_no};
ghost use Rattle.aspif.specs.Gathering.{Held, PartSeen};

use crate::scan::read_item;
use meaning::Colouring;

// How many atoms a part has, the largest number of them, where the text goes on, and whether all
// of them are below 255. The atoms are in the caller's table, so an Option here would hold nothing.
#[derive(Clone, Copy)]
pub struct Part {
    pub count: usize,
    pub top: usize,
    pub next: usize,
    pub small: bool,
}

// Puts the atom of this number into the table; whether it and those before it are below 255.
fn keep_atom(small: bool, value: usize, table: &mut [bool; Colouring::ATOMS]) -> bool
    requires { 0 < value }
    ensures { (l : List AtomNo) → Held l small table.old →
        Held (l ++ (atom_no (value - 1) ∷ [])) result table.new }
{
    if 255 < value {
        return false;
    }
    table[value - 1] = true;
    small
}

// Reads the literals at `at`, each behind the sign, as many as there are, and puts their atoms
// into the table.
pub fn read_part(text: &[u8], at: usize, sign: &[u8], table: &mut [bool; Colouring::ATOMS]) -> Part
    requires { (at ≤ length text.now) × (table.old ≡ replicate 255 false) }
    ensures { PartSeen text.now sign.now at result table.new }
{
    let mut count = 0;
    let mut top = 0;
    let mut next = at;
    let mut small = true;
    loop {
        let Some((value, end)) = read_item(text, next, sign, top + 1) else {
            return Part {
                count,
                top,
                next,
                small,
            };
        };
        small = keep_atom(small, value, table);
        count += 1;
        top = value;
        next = end;
    }
}
