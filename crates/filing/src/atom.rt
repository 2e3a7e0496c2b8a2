// The argument ATOM: a number, or, where the rules are in words or in a grounder's text, a name of theirs.
use crate::arguments::read_atom;
use calling::{Source, Unasked, source_at};
use meaning::AtomNo;
use std::rt::Env;
use system::{PATH_ROOM, arg};
use talk::{Line, print};

// Where ATOM stands, behind `--words` or `--text` and its file.
const PLACE: usize = 3;

// Whether the argument starts as a number does. No name in words does.
fn is_number(rt: &impl Env) -> bool {
    let mut word = [0u8; 80];
    let n = arg(rt, PLACE, &mut word);
    matches!(&word[..n], [b'0'..=b'9', ..])
}

// Says `bad atom: `, something, the argument and something more.
fn complain_of_name(rt: &(impl Env + Print), before: &[u8], behind: &[u8]) {
    let mut word = [0u8; PATH_ROOM];
    let n = arg(rt, PLACE, &mut word);
    let mut room = [0u8; 4608];
    let mut line = Line::new(&mut room);
    line.text(b"bad atom: ");
    line.text(before);
    line.name(&word[..n]);
    line.text(behind);
    line.text(b"\n");
    line.print(rt);
}

// Says that no atom has the name.
fn complain_of_nobody(rt: &(impl Env + Print)) {
    match source_at(rt, 1) {
        Source::Book => {}
        Source::Words => complain_of_name(rt, b"the words have no ", b""),
        Source::Text => complain_of_name(rt, b"the text has no ", b""),
    }
}

// Says that the argument is no number that an atom can have.
fn complain_of_number(rt: &impl Print) {
    print(rt, b"bad atom: ATOM is a number below 256\n");
}

// Whether the argument is the name of another atom than the one with this number.
fn is_of_another(number: u32, asked: Result<AtomNo, Unasked>) -> bool {
    match asked {
        Ok(atom) => atom.0 as u32 != number,
        Err(Unasked::Nobody) => false,
        Err(Unasked::Several) => true,
    }
}

// The atom whose number the argument says. A grounder's text may have names that are numbers: where the
// argument is also another atom's name, neither is picked. Where there is none a line tells so.
fn take_number(rt: &(impl Env + Print), asked: Result<AtomNo, Unasked>) -> Option<AtomNo> {
    let Some(number) = read_atom(rt) else {
        complain_of_number(rt);
        return None;
    };
    if is_of_another(number, asked) {
        complain_of_name(rt, b"", b" is one atom's number and another's name");
        return None;
    }
    let Ok(atom) = u8::try_from(number) else {
        complain_of_number(rt);
        return None;
    };
    Some(AtomNo(atom))
}

// The atom that the call is about: by its number or, where there are names, by its name, which was
// asked for as the text was read. Where there is none, or several have the name, a line says so.
pub fn take_atom(
    rt: &(impl Env + Print),
    names: &[u8],
    asked: Result<AtomNo, Unasked>,
) -> Option<AtomNo> {
    if names.is_empty() || is_number(rt) {
        return take_number(rt, asked);
    }
    match asked {
        Ok(atom) => return Some(atom),
        Err(Unasked::Nobody) => complain_of_nobody(rt),
        Err(Unasked::Several) => {
            complain_of_name(rt, b"several atoms have the name ", b": give the number");
        }
    }
    None
}
