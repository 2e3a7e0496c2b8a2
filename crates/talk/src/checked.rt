// What the checker says of a paper, in a line for people.
use crate::line::Line;
use crate::name::put_subject;
use crate::refusals::Refused;
use crate::sentences::{explain_book, explain_paper};
use checker::{Rejected, check};
use meaning::{AtomNo, Claim, Kind};
use system::print;

fn accept_about(rt: &impl Print, kind: Kind, atom: AtomNo, names: &[u8]) {
    let mut room = [0u8; 512];
    let mut line = Line::new(&mut room);
    line.text(b"accepted: ");
    put_subject(names, atom.0, &mut line);
    match kind {
        Kind::Naming => line.text(b" is certain\n"),
        Kind::Clearing => line.text(b" is in no reading\n"),
    }
    line.print(rt);
}

fn accept(rt: &impl Print, claim: Claim, names: &[u8]) {
    match claim {
        Claim::About(kind, atom) => accept_about(rt, kind, atom, names),
        Claim::NoReading => print(rt, b"accepted: the book has no reading\n"),
    }
}

// Asks the checker, and writes what it answers.
pub fn tell_checked(rt: &impl Print, book: &[u8], names: &[u8], paper: &[u8]) {
    match check(book, paper) {
        Ok(claim) => accept(rt, claim, names),
        Err(Rejected::Book(why)) => explain_book(rt, why, book),
        Err(why) => explain_paper(rt, Refused::from(why), paper),
    }
}
