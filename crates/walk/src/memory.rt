// Readings that were found to count, so that a later one that matches needs no search. A row has
// eight words: the shown atoms of the reading, and the rules that generate it. What was forgotten for
// want of room is searched for again.
ghost use Rattle.std.specs.Prelude.{◌≡◌, ◌+◌, ◌*◌, ◌/◌, ◌≤◌, ◌<◌, length, IfSome};
ghost use Rattle.meaning.specs.Bits.{members};
ghost use Rattle.book.specs.RuleRows.{row};
ghost use Rattle.walk.specs.Memory.{stored, kept_at};

use meaning::Bits;

// The words of half row k.
pub fn words_at(seen: &[u64], k: usize) -> Bits
    requires { k * 4 + 4 ≤ length seen.now }
    ensures { result.w ≡ row seen.now k }
{
    let at = k * 4;
    Bits {
        w: [seen[at], seen[at + 1], seen[at + 2], seen[at + 3]],
    }
}

// Which of the first n rows has the shown atoms `part`, if one is known to.
pub fn find_part(seen: &[u64], n: usize, part: Bits) -> Option<usize>
    ensures { IfSome result (λ k. (k < n) × (k < length seen.now / 8)
        × (members (row seen.now (k * 2)) ≡ members part.w)) }
{
    (0..n.min(seen.len() / 8)).find(|k| words_at(seen, *k * 2).w == part.w)
}

// Writes half row k.
fn store_words(seen: &mut [u64], k: usize, words: Bits)
    requires { k * 4 + 4 ≤ length seen.old }
    ensures { seen.new ≡ stored k words.w seen.old }
{
    let at = k * 4;
    let w = words.w;
    seen[at] = w[0];
    seen[at + 1] = w[1];
    seen[at + 2] = w[2];
    seen[at + 3] = w[3];
}

// Writes row k, if there is room for it.
pub fn keep(seen: &mut [u64], k: usize, part: Bits, on: Bits)
    ensures { seen.new ≡ kept_at k part.w on.w seen.old }
{
    if seen.len() / 8 <= k {
        return;
    }
    store_words(seen, k * 2, part);
    store_words(seen, k * 2 + 1, on);
}
