// The names of a text's atoms: which atom has a number in the book, and what the table calls it.
ghost use Rattle.std.specs.Prelude.{◌≡◌};
ghost use Rattle.lparse.specs.Names.{whose_of, name_of, name_said};

use crate::due::{Due, Role, Said, Standing};
use crate::nth::{kth_found, kth_left};
use crate::numbering::number_of;
use crate::step::{Taken, take_word};
use imported::TextAtom;

// The first of these atoms whose number is n.
pub fn atom_at(seen: &[u32], n: usize) -> Option<TextAtom>
    ensures { result ≡ whose_of seen.now n }
{
    for x in seen {
        let a = TextAtom(*x);
        if number_of(seen, a) == n {
            return Some(a);
        }
    }
    None
}

// The name of the atom that a word says: its first byte, and its end.
#[tactic(auto, unfolding(crate::specs::Names::is_named, crate::specs::Names::in_table, imported::specs::Text::same_text, meaning::specs::Choice::ifb))]
fn name_said(word: Taken, a: TextAtom) -> Option<(usize, usize)>
    ensures { result ≡ name_said word.said a word.from word.end }
{
    match word.said {
        Said::Atom(c, Standing::Table) if a.0 == c.0 => Some((word.from, word.end)),
        _ => None,
    }
}

// The k-th name, counted from 0, that the table of a text in the format gives the atom: its first
// byte, and its end.
pub fn nth_name(text: &[u8], a: TextAtom, k: usize) -> Option<(usize, usize)>
    ensures { result ≡ name_of text.now a k }
{
    let mut found = None;
    let mut left = k;
    let mut due = Due::Number(Role::Kind);
    let mut at = 0;
    loop {
        match take_word(text, at, due) {
            Ok(Some(word)) => {
                let here = name_said(word, a);
                found = kth_found(found, here, left);
                left = kth_left(left, here);
                due = word.next;
                at = word.end;
            }
            Ok(None) => return found,
            Err(_) => return None,
        }
    }
}
