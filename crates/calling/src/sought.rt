// The atom of a grounder's text that has a name. The table may give one atom several names, and one
// name to several atoms: no atom is picked then. Helpers have no name.
use crate::described::name_in;
use crate::opened::Unasked;
use imported::TextAtom;
use lparse::atom_at;
use meaning::AtomNo;
use std::rt::Env;
use system::{PATH_ROOM, arg};

// Whether the word is a name that the table gives the atom. All of them are looked at, and there are
// fewer than the text has bytes.
fn has_name(text: &[u8], a: TextAtom, word: &[u8]) -> bool {
    for k in 0..text.len() {
        let Some(name) = name_in(text, a, k) else {
            return false;
        };
        if name == word {
            return true;
        }
    }
    false
}

// Whether the word names the book's atom n, which is one of the text.
fn is_named(text: &[u8], seen: &[u32], n: usize, word: &[u8]) -> bool {
    match atom_at(seen, n) {
        Some(a) => has_name(text, a, word),
        None => false,
    }
}

// Which of the text's atoms has the name. No book has more than 255 atoms.
fn sought(text: &[u8], seen: &[u32], word: &[u8]) -> Result<AtomNo, Unasked> {
    let mut found = Err(Unasked::Nobody);
    for (a, _) in (0..255u8).zip(seen) {
        if is_named(text, seen, a as usize, word) {
            if found.is_ok() {
                return Err(Unasked::Several);
            }
            found = Ok(AtomNo(a));
        }
    }
    found
}

// Which of the text's atoms has the name that an argument is; nobody where it is missing or too long.
pub fn asked_in(rt: &impl Env, i: usize, text: &[u8], seen: &[u32]) -> Result<AtomNo, Unasked> {
    let mut word = [0u8; PATH_ROOM];
    let n = arg(rt, i, &mut word);
    if n == 0 {
        return Err(Unasked::Nobody);
    }
    sought(text, seen, &word[..n])
}
