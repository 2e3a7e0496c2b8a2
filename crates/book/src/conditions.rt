// What is asked of a part of a rule's body by a table of atoms.
ghost use Rattle.std.specs.Prelude.{◌≡◌, map};
ghost use Rattle.meaning.specs.Sets.{every, some};
ghost use Rattle.meaning.specs.Books.{atom_no};
ghost use Rattle.book.specs.Tables.{atoms_in, Below};

use crate::number::wide;
use meaning::Colouring;

// Every atom of the part is in the table.
pub fn every_in(part: &[u8], table: &[bool; Colouring::ATOMS]) -> bool
    requires { Below 255 part.now }
    ensures { result ≡ every (atoms_in table.now) (map atom_no part.now) }
{
    for a in part {
        if !table[wide(*a)] {
            return false;
        }
    }
    true
}

// Some atom of the part is in the table.
pub fn some_in(part: &[u8], table: &[bool; Colouring::ATOMS]) -> bool
    requires { Below 255 part.now }
    ensures { result ≡ some (atoms_in table.now) (map atom_no part.now) }
{
    for a in part {
        if table[wide(*a)] {
            return true;
        }
    }
    false
}
