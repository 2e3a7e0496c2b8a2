// What naming, clearing and contradicting answer, in one line.
use crate::against::explain_against;
use crate::arguments::{is_to_replace, paper_place};
use crate::giving_way::gives_way;
use meaning::{AtomNo, Claim, Kind};
use saving::{look_at, save_file, take_path};
use std::rt::{Env, Files};
use system::PATH_ROOM;
use talk::{Line, PAPER_ROOM, Refused, explain, explain_book, first_bytes, put_subject};
use writer::{Unwritten, write_claim};

// Saves the paper at the path where what stands there gives way, and gives whether it is saved.
fn save_at(
    rt: &(impl Env + Files + Print),
    path: &[u8],
    book: &[u8],
    claim: Claim,
    paper: &[u8],
) -> bool {
    let mut old = [0u8; PAPER_ROOM];
    let Ok(there) = look_at(rt, path, &mut old) else {
        return false;
    };
    let n = there.unwrap_or(0);
    gives_way(rt, path, book, claim, &old[..n], is_to_replace(rt, claim))
        && save_file(rt, path, there.is_some(), paper)
}

// Saves the paper in the file that its argument names.
fn save_paper(rt: &(impl Env + Files + Print), book: &[u8], claim: Claim, paper: &[u8]) -> bool {
    let mut path = [0u8; PATH_ROOM];
    match take_path(rt, paper_place(rt, claim), &mut path) {
        Some(n) => save_at(rt, &path[..n], book, claim, paper),
        None => false,
    }
}

// The claim that the paper proves.
fn put_claim(claim: Claim, names: &[u8], line: &mut Line) {
    match claim {
        Claim::About(Kind::Naming, atom) => {
            line.text(b"named: ");
            put_subject(names, atom.0, line);
            line.text(b" is certain");
        }
        Claim::About(Kind::Clearing, atom) => {
            line.text(b"cleared: ");
            put_subject(names, atom.0, line);
            line.text(b" is in no reading");
        }
        Claim::NoReading => line.text(b"shown: the book has no reading"),
    }
}

// Saves the paper, and says so where it could be saved.
fn tell_paper(
    rt: &(impl Env + Files + Print),
    book: &[u8],
    claim: Claim,
    tries: u32,
    names: &[u8],
    paper: &[u8],
) {
    if !save_paper(rt, book, claim, paper) {
        return;
    }
    let mut room = [0u8; 512];
    let mut line = Line::new(&mut room);
    put_claim(claim, names, &mut line);
    line.text(b"; paper: ");
    line.number(paper.len() as u64);
    line.text(b" bytes; tries: ");
    line.number(tries as u64);
    line.text(b"\n");
    line.print(rt);
}

// Writes why there is no paper. Where there are names, a refusal by a reading tells which. Where the
// claim is about no atom, no refusal says a kind or an atom.
fn tell_refused(
    rt: &impl Print,
    book: &[u8],
    claim: Claim,
    limit: u32,
    names: &[u8],
    why: Unwritten,
) {
    let (kind, atom) = match claim {
        Claim::About(kind, atom) => (kind, atom),
        Claim::NoReading => (Kind::Naming, AtomNo(0)),
    };
    match why {
        Unwritten::Book(refusal) => explain_book(rt, refusal, book),
        Unwritten::Fewer(_, rule) => explain(rt, Refused::from(why), kind, rule.0 as u64),
        Unwritten::Stopped(tries) => explain(rt, Refused::from(why), kind, tries as u64),
        Unwritten::NotCertain | Unwritten::NotClear if !names.is_empty() => {
            explain_against(rt, book, kind, atom, limit, names);
        }
        _ => explain(rt, Refused::from(why), kind, atom.0 as u64),
    }
}

// Asks the engine, and writes what it answers.
pub fn tell_named(
    rt: &(impl Env + Files + Print),
    book: &[u8],
    claim: Claim,
    limit: u32,
    names: &[u8],
    paper: &mut [u8],
) {
    match write_claim(book, claim, limit, paper) {
        Ok((tries, length)) => {
            tell_paper(rt, book, claim, tries, names, first_bytes(paper, length));
        }
        Err(why) => tell_refused(rt, book, claim, limit, names, why),
    }
}
