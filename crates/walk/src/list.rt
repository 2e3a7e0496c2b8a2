// A list of shown atoms, one byte each, as a caller lends it.
ghost use Rattle.std.specs.Prelude.{◌≡◌};
ghost use Rattle.meaning.specs.Bits.{members};
ghost use Rattle.walk.specs.FindShown.{good_list};
ghost use Rattle.walk.specs.Search.{in_list};

use meaning::Bits;

// The list is strictly ascending, and each of its bytes is below the number of atoms.
pub fn is_good_list(list: &[u8], atoms: u8) -> bool
    ensures { result ≡ good_list atoms list.now }
{
    let mut least: u8 = 0;
    for n in list {
        if atoms <= *n {
            return false;
        }
        if *n < least {
            return false;
        }
        least = *n + 1;
    }
    true
}

// The atoms of the list as a set.
pub fn mask_of(list: &[u8]) -> Bits
    ensures { members result.w ≡ in_list list.now }
{
    let mut mask = Bits::EMPTY;
    for a in list {
        mask.put(*a);
    }
    mask
}
