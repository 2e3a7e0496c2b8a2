// An atom as people are told it: by its number and, where the rules were handed over in words, by its
// name too. Names come as rows of 256 bytes, a row for each atom, each name with a zero behind it; no
// bytes where there are none.
ghost use Rattle.std.specs.Prelude.{◌≡◌};
ghost use Rattle.talk.specs.Names.{name_in};

use crate::line::Line;
use system::find;

// Room for a name and the zero behind it.
pub const NAME_ROOM: usize = 256;

// Room for the names of 255 atoms.
pub const NAMES_ROOM: usize = 65280;

// The name of the atom; no bytes where it has none.
pub fn name_of<'a>(names: &'a [u8], a: u8) -> &'a [u8]
    ensures { result.now ≡ name_in names.now a }
{
    let from = a as usize * 256;
    if names.len() < from + NAME_ROOM {
        return &names[..0];
    }
    let end = find(names, from, from + NAME_ROOM, 0);
    &names[from..end]
}

// The name and the number in brackets, or the word and the number where there is no name. What stands
// between name and number, `bracket`, is put as one text, so that a line without room for it has none
// of it.
fn put_atom(names: &[u8], a: u8, word: &[u8], bracket: &[u8], line: &mut Line) {
    let name = name_of(names, a);
    if name.is_empty() {
        line.text(word);
        return line.number(a as u64);
    }
    line.text(name);
    line.text(bracket);
    line.number(a as u64);
    line.text(b")");
}

// The atom as `anna (2)`, or by its number alone.
pub fn put_called(names: &[u8], a: u8, line: &mut Line) {
    put_atom(names, a, b"", b" (", line);
}

// The same in a sentence: `anna (atom 2)`, or `atom 2`.
pub fn put_subject(names: &[u8], a: u8, line: &mut Line) {
    put_atom(names, a, b"atom ", b" (atom ", line);
}
