// The names met so far, by their places in the text.
ghost use Rattle.std.specs.Prelude.{◌≡◌, ◌+◌, ◌≤◌, ◌<◌, set};
ghost use Rattle.words.specs.Names.{is_between, place_of, whose_of};

use crate::term::is_same;
use meaning::AtomNo;

// So many names; where each starts, and where it ends. The later places are 0. Two arrays, since
// `make` hands both out: an array of pairs would be taken apart there.
#[derive(Clone, Copy)]
pub struct Known {
    pub count: usize,
    pub from: [usize; 255],
    pub to: [usize; 255],
}

// The word stands in the text from one place to the other, if these are places of it.
#[tactic(auto, unfolding(crate::specs::Names::is_between, meaning::specs::Choice::ifb, meaning::specs::Choice::if_lt))]
fn stands_between<'a>(text: &'a [u8], from: usize, to: usize, word: &'a [u8]) -> bool
    ensures { result ≡ is_between text.now from to word.now }
{
    from <= to && to <= text.len() && is_same(&text[from..to], word)
}

// The first of the first n places at which the word stands in the text; n where there is none.
pub fn number_of<'a>(
    text: &'a [u8],
    n: usize,
    from: &'a [usize; 255],
    to: &'a [usize; 255],
    word: &'a [u8],
) -> usize
    requires { n ≤ 255 }
    ensures { (result ≡ place_of text.now n from.now to.now
        word.now) × (result ≤ n) }
{
    for i in 0..n {
        if stands_between(text, from[i], to[i], word) {
            return i;
        }
    }
    n
}

// One name more.
pub fn note(names: Known, from: usize, to: usize) -> Known
    requires { names.count < 255 }
    ensures { result ≡ record {
      count = names.count + 1;
      from = set names.from names.count from;
      to = set names.to names.count to;
    } }
{
    let mut more = names;
    more.from[names.count] = from;
    more.to[names.count] = to;
    more.count += 1;
    more
}

// Whose name the word is, by the places that making the book gave for so many atoms.
pub fn atom_named<'a>(
    text: &'a [u8],
    atoms: u8,
    from: &'a [usize; 255],
    to: &'a [usize; 255],
    word: &'a [u8],
) -> Option<AtomNo>
    ensures { result ≡ whose_of text.now atoms from.now to.now
        word.now }
{
    let n = atoms as usize;
    let i = number_of(text, n, from, to, word);
    if i < n {
        return Some(AtomNo(i as u8));
    }
    None
}
