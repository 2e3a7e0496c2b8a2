// A whole text, read.
ghost use Rattle.std.specs.Prelude.{◌≡◌, length};
ghost use Rattle.book.specs.Format.{book_bytes};
ghost use Rattle.aspif.specs.Lining.{TextSeen};

use crate::outputs::read_outputs;
use crate::rules::read_rules;
use crate::scan::skip_text;
use book::{BOOK_BYTES, Making};

// Reads the text from its first byte to its last: the book that is made of its rules, and how many
// atoms it has.
pub fn read_text(text: &[u8], draft: &mut [u8; BOOK_BYTES]) -> Option<(Making, usize)>
    requires { length draft.old ≡ book_bytes }
    ensures { TextSeen text.now result draft.new }
{
    let started = skip_text(text, 0, b"asp 1 0 0\n")?;
    let rules = read_rules(text, started, draft);
    let outputs = read_outputs(text, rules.next);
    let end = skip_text(text, outputs.next, b"0\n")?;
    if end != text.len() {
        return None;
    }
    if outputs.count < rules.top {
        return None;
    }
    Some((rules.making, outputs.count))
}
