// The different atoms of a text, as they first appear: the first of two passes over the text, which
// finds all that is wrong with its format.
ghost use Rattle.std.specs.Prelude.{◌≡◌, List, [], ◌∷◌, ℕ, length};
ghost use Rattle.meaning.specs.Told.{Answered};
ghost use Rattle.imported.specs.declared.TextAtom.{TextAtom};
ghost use Rattle.lparse.specs.Collect.{told, collected, collect_of, Stands, Notes, atoms_said};

use crate::answer::Unimported;
use crate::due::{Due, Role, Said};
use crate::step::take_word;
use imported::TextAtom;

// Stores the atom behind the first n if it is new; how many there are then. More than 255 are
// counted as 256: so the array and the number stay apart, and are no slice.
fn note_atom(found: &mut [u32; 255], n: usize, a: TextAtom) -> usize
    requires { length found.old ≡ 255 }
    ensures { Notes (a ∷ []) n found.old result found.new }
{
    if 255 < n {
        return n;
    }
    if found[..n].contains(&a.0) {
        return n;
    }
    if n == 255 {
        return 256;
    }
    found[n] = a.0;
    n + 1
}

// Notes the atom that a word says.
fn note(found: &mut [u32; 255], n: usize, said: Said) -> usize
    requires { length found.old ≡ 255 }
    ensures { Notes (atoms_said said) n found.old result found.new }
{
    match said {
        Said::Nothing => n,
        Said::Choice => n,
        Said::Atom(a, _) => note_atom(found, n, a),
    }
}

// Copies the first n to the array lent, unless they are too many.
fn hand_over(found: &[u32; 255], n: usize, seen: &mut [u32]) -> Result<usize, Unimported>
    requires { (length found.now ≡ 255) × (length seen.old ≡ 255) }
    ensures { (l : List TextAtom) → Stands l n found.now →
        ◌≡◌ {A = Answered ℕ} (record { told = told result; buffer = seen.new })
        (collected l seen.old) }
{
    if 255 < n {
        return Err(Unimported::NoFit);
    }
    seen[..n].copy_from_slice(&found[..n]);
    Ok(n)
}

// The text's different atoms, as they first appear: how many stand in the array, or what is wrong with
// the text.
pub fn collect(text: &[u8], seen: &mut [u32; 255]) -> Result<usize, Unimported>
    ensures { ◌≡◌ {A = Answered ℕ} (record { told = told result; buffer = seen.new })
        (collect_of text.now seen.old) }
{
    let mut found = [0u32; 255];
    let mut n = 0;
    let mut due = Due::Number(Role::Kind);
    let mut at = 0;
    while let Some(word) = take_word(text, at, due)? {
        n = note(&mut found, n, word.said);
        due = word.next;
        at = word.end;
    }
    hand_over(&found, n, seen)
}
