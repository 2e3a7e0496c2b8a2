// The numbers that a text's atoms have in the book.
ghost use Rattle.std.specs.Prelude.{◌≡◌};
ghost use Rattle.lparse.specs.Forming.{place_of};

use imported::TextAtom;

// How many of these atoms are smaller: the atom's number in the book, if they are the text's.
pub fn number_of(seen: &[u32], a: TextAtom) -> usize
    ensures { result ≡ place_of seen.now a }
{
    seen.iter().filter(|x| **x < a.0).count()
}
