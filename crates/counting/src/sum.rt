// The totals over the counted books. Each of the three is told by a test of its own.
ghost use Rattle.std.specs.Prelude.{◌≡◌, ◌≤◌, length};
ghost use Rattle.meaning.specs.Choice.{ifb};
ghost use Rattle.counting.specs.Totals.{at_each, at_some, at_none, totals_from, totals_with};

use meaning::Colouring;

#[derive(Clone, Copy)]
pub struct Totals {
    // Atoms in each answer set of their book.
    pub certain: u32,
    // Atoms in some sets but not all.
    pub some: u32,
    // Atoms in none.
    pub none: u32,
    // The atoms of the books.
    pub atoms: u32,
}

// 1 for an atom that stands in each of the sets.
fn in_each(sets: u32, count: u32) -> u32
    ensures { result ≡ ifb (at_each sets count) 1 0 }
{
    u32::from(count == sets)
}

// 1 for an atom that stands in some of the sets but not all.
fn in_some(sets: u32, count: u32) -> u32
    ensures { result ≡ ifb (at_some sets count) 1 0 }
{
    u32::from(0 < count && count < sets)
}

// 1 for an atom that stands in none of the sets.
fn in_none(sets: u32, count: u32) -> u32
    ensures { result ≡ ifb (at_none sets count) 1 0 }
{
    u32::from(count == 0)
}

// The totals of one book.
fn of_book(atoms: u8, sets: u32, counts: &[u32]) -> Totals
    requires { atoms ≤ length counts.now }
    ensures { result ≡ totals_from atoms sets counts.now }
{
    let mut found = Totals::NOTHING;
    for count in &counts[..atoms as usize] {
        found = Totals {
            certain: found.certain + in_each(sets, *count),
            some: found.some + in_some(sets, *count),
            none: found.none + in_none(sets, *count),
            atoms: found.atoms + 1,
        };
    }
    found
}

impl Totals {
    // No book was counted yet.
    pub const NOTHING: Totals = Totals {
        certain: 0,
        some: 0,
        none: 0,
        atoms: 0,
    };

    // One book more, of so many atoms and answer sets, and in how many of these each atom stands.
    pub fn with(self, atoms: u8, sets: u32, counts: &[u32; Colouring::ATOMS]) -> Totals
        ensures { result ≡ totals_with self atoms sets counts.now }
    {
        let more = of_book(atoms, sets, counts);
        Totals {
            certain: self.certain.wrapping_add(more.certain),
            some: self.some.wrapping_add(more.some),
            none: self.none.wrapping_add(more.none),
            atoms: self.atoms.wrapping_add(more.atoms),
        }
    }
}
