// The rows of a page, counted atom by atom.
ghost use Rattle.std.specs.Prelude.{◌≡◌, ℕ, ◌+◌, ◌*◌, ◌<◌, ◌≤◌, length, ◌==◌, slice_index};
ghost use Rattle.meaning.specs.Books.{atom_no};
ghost use Rattle.meaning.specs.Choice.{ifb};
ghost use Rattle.counting.specs.Counts.{standing};
ghost use Rattle.counting.specs.SoFar.{sets_in, summed};

// 1 for the byte of an atom that is in the set.
fn one(byte: u8) -> u32
    ensures { result ≡ ifb (byte == 1) 1 0 }
{
    u32::from(byte == 1)
}

// How many of the rows hold the atom.
fn count_atom(page: &[u8], atoms: usize, rows: u32, atom: usize) -> u32
    requires { (rows * atoms ≤ length page.now) × (atom < atoms) }
    ensures { result ≡ standing (atom_no atom) (sets_in atoms rows page.now) }
{
    let mut found = 0;
    for row in page.chunks_exact(atoms).take(rows as usize) {
        found += one(row[atom]);
    }
    found
}

// Adds for each atom how many of the rows hold it.
pub fn add_page(page: &[u8], atoms: usize, rows: u32, counts: &mut [u32])
    requires { (rows * atoms ≤ length page.now) × (atoms ≤ 255)
        × (length counts.old ≡ 255)
        × ((i : ℕ) → i < atoms → slice_index counts.old i + rows ≤ 4294967295) }
    ensures { counts.new ≡
        summed atoms counts.old (sets_in atoms rows page.now) }
{
    for a in 0..atoms {
        counts[a] += count_atom(page, atoms, rows, a);
    }
}
