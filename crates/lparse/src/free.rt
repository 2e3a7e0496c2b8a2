// The heads of a text's choices, one by one: whose helper is it?
ghost use Rattle.std.specs.Prelude.{◌≡◌};
ghost use Rattle.lparse.specs.FreeHeads.{head_said, free_head_of};

use crate::due::{Due, Role, Said, Standing};
use crate::nth::{kth_found, kth_left};
use crate::step::take_word;
use imported::TextAtom;

// The head of a choice that a word says.
#[tactic(auto, unfolding(crate::specs::FreeHeads::head_said, crate::specs::FreeHeads::is_free, meaning::specs::Choice::ifb))]
fn head_said(said: Said) -> Option<TextAtom>
    ensures { result ≡ head_said said }
{
    match said {
        Said::Atom(a, Standing::Free) => Some(a),
        _ => None,
    }
}

// The j-th head of a choice, counted from 0 over all choices of a text in the format: the atom that
// the j-th helper behind the text's atoms is opposite to.
pub fn free_head(text: &[u8], j: usize) -> Option<TextAtom>
    ensures { result ≡ free_head_of text.now j }
{
    let mut found = None;
    let mut left = j;
    let mut due = Due::Number(Role::Kind);
    let mut at = 0;
    loop {
        match take_word(text, at, due) {
            Ok(Some(word)) => {
                let here = head_said(word.said);
                found = kth_found(found, here, left);
                left = kth_left(left, here);
                due = word.next;
                at = word.end;
            }
            Ok(None) => return found,
            Err(_) => return None,
        }
    }
}
