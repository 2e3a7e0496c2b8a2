// A reading as a row of bytes: one for each atom, 1 for an atom in the set and 0 for one not.
ghost use Rattle.std.specs.Prelude.{◌≡◌, ◌+◌, ◌≤◌, length};
ghost use Rattle.book.specs.Tables.{atoms_in};
ghost use Rattle.meaning.specs.Buffers.{write_at};
ghost use Rattle.walk.specs.Run.{row_from};
ghost use Rattle.walk.specs.Page.{set_in};

use meaning::{AtomNo, Colouring};

// Writes the set's row from byte `at` on; the other bytes stay.
pub fn write_row(atoms: u8, set: &[bool; Colouring::ATOMS], at: usize, out: &mut [u8])
    requires { at + atoms ≤ length out.old }
    ensures { out.new ≡
        write_at at (row_from 0 atoms (atoms_in set.now)) out.old }
{
    for a in 0..atoms as usize {
        out[at + a] = u8::from(set[a]);
    }
}

// The atom is in the set that the row stands for. One past the row's end isn't.
pub fn in_row(row: &[u8], atom: AtomNo) -> bool
    ensures { result ≡ set_in row.now atom }
{
    let i = atom.0 as usize;
    i < row.len() && row[i] == 1
}
