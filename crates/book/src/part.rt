// Checks one part of a rule's body.
ghost use Rattle.std.specs.Prelude.{◌≡◌, ◌+◌, ◌<◌, length};
ghost use Rattle.book.specs.Format.{part_of};
ghost use Rattle.book.specs.Checks.{checked};

use crate::refusal::Refusal;

// Each byte is an atom below `atoms`, and greater than the one before it. The part's first byte
// stands at `at` of the book.
pub fn check_part(s: &[u8], atoms: u8, at: usize) -> Result<(), Refusal>
    requires { at + length s.now < 65536 }
    ensures { checked result ≡ part_of atoms at 0 s.now }
{
    let mut least: u8 = 0;
    for (i, x) in s.iter().enumerate() {
        if atoms <= *x {
            return Err(Refusal::Atom(at + i));
        }
        if *x < least {
            return Err(Refusal::Order(at + i));
        }
        least = *x + 1;
    }
    Ok(())
}
