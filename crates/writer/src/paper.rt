// Writes a paper for a claim: the book first, then for a claim about an atom the walk to the first
// reading, then the paper.
ghost use Rattle.std.specs.Prelude.{◌≡◌, ◌<◌};
ghost use Rattle.meaning.specs.Told.{Answered};
ghost use Rattle.meaning.specs.Claim.{claimed};
ghost use Rattle.book.specs.ReadBook.{the_book};
ghost use Rattle.writer.specs.Write.{Handed, told, witnessed, unwitnessed, write_in, write_of};
ghost use Rattle.writer.specs.Write.{name_of, clear_of, contradict_of};

use crate::answer::{Unwritten, unproved};
use crate::draft::write_trailer;
use crate::hand_over::{finish, hand_over};
use crate::split::{Course, write_steps};
use book::ReadBook;
use meaning::{AtomNo, Claim, Colouring, Kind, PAPER_BYTES};
use walk::{Halt, first};

// A claim that stands on a reading: the walk to the first one, the paper's walk, and the witness of
// that reading, in a draft that is handed over when it is whole.
fn write_witnessed(
    book: &ReadBook,
    claim: Claim,
    limit: u32,
    paper: &mut [u8],
) -> Result<(u32, usize), Unwritten>
    requires { claimed claim < 255 }
    ensures { ◌≡◌ {A = Answered Handed}
        (record { told = told result; buffer = paper.new })
        (witnessed (the_book book.now) claim limit paper.old) }
{
    let mut row = [0u8; Colouring::ATOMS];
    let reading = first(*book, limit, &mut row);
    match reading.halt {
        Halt::Going => return Err(Unwritten::Fewer(reading.tries, reading.clash)),
        Halt::Limit => return Err(Unwritten::Stopped(limit)),
        Halt::Full => {}
    }
    let mut draft = [0u8; PAPER_BYTES];
    let steps = write_steps(book, claim, limit, &mut draft);
    match steps.course {
        Course::Limited => Err(Unwritten::Stopped(limit)),
        Course::Refuted => Err(unproved(claim)),
        Course::Writing => {
            let length = finish(book, claim, &row, &mut draft, steps.length);
            hand_over(steps.tries, &draft, length, paper)
        }
    }
}

// A claim that stands on no reading: the paper's walk, and the trailer just behind its steps.
fn write_unwitnessed(
    book: &ReadBook,
    claim: Claim,
    limit: u32,
    paper: &mut [u8],
) -> Result<(u32, usize), Unwritten>
    requires { claimed claim < 255 }
    ensures { ◌≡◌ {A = Answered Handed}
        (record { told = told result; buffer = paper.new })
        (unwitnessed (the_book book.now) claim limit paper.old) }
{
    let mut draft = [0u8; PAPER_BYTES];
    let walked = write_steps(book, claim, limit, &mut draft);
    match walked.course {
        Course::Limited => Err(Unwritten::Stopped(limit)),
        Course::Refuted => Err(unproved(claim)),
        Course::Writing => {
            let length = write_trailer(&mut draft, walked.length, claim, 0, walked.length);
            hand_over(walked.tries, &draft, length, paper)
        }
    }
}

// A claim about a good book: an atom that the book doesn't have is refused.
fn write_in(
    book: &ReadBook,
    claim: Claim,
    limit: u32,
    paper: &mut [u8],
) -> Result<(u32, usize), Unwritten>
    ensures { ◌≡◌ {A = Answered Handed}
        (record { told = told result; buffer = paper.new })
        (write_in (the_book book.now) claim limit paper.old) }
{
    match claim {
        Claim::About(_, atom) => {
            if book.shape.atoms <= atom.0 {
                return Err(Unwritten::NoAtom);
            }
            write_witnessed(book, claim, limit, paper)
        }
        Claim::NoReading => write_unwitnessed(book, claim, limit, paper),
    }
}

// Writes the engine's own paper for the claim to the front of the buffer, or says why not.
pub fn write_claim(
    book: &[u8],
    claim: Claim,
    limit: u32,
    paper: &mut [u8],
) -> Result<(u32, usize), Unwritten>
    ensures { ◌≡◌ {A = Answered Handed}
        (record { told = told result; buffer = paper.new })
        (write_of book.now claim limit paper.old) }
{
    let book = ReadBook::read(book)?;
    write_in(&book, claim, limit, paper)
}

// Writes the engine's own paper that the atom is certain to the front of the buffer, or says why
// not.
pub fn name(
    book: &[u8],
    atom: AtomNo,
    limit: u32,
    paper: &mut [u8],
) -> Result<(u32, usize), Unwritten>
    ensures { ◌≡◌ {A = Answered Handed}
        (record { told = told result; buffer = paper.new })
        (name_of book.now atom limit paper.old) }
{
    write_claim(book, Claim::About(Kind::Naming, atom), limit, paper)
}

// Writes the engine's own paper that the atom is in no reading to the front of the buffer, or says
// why not.
pub fn clear(
    book: &[u8],
    atom: AtomNo,
    limit: u32,
    paper: &mut [u8],
) -> Result<(u32, usize), Unwritten>
    ensures { ◌≡◌ {A = Answered Handed}
        (record { told = told result; buffer = paper.new })
        (clear_of book.now atom limit paper.old) }
{
    write_claim(book, Claim::About(Kind::Clearing, atom), limit, paper)
}

// Writes the engine's own paper that the book has no reading to the front of the buffer, or says
// why not.
pub fn contradict(book: &[u8], limit: u32, paper: &mut [u8]) -> Result<(u32, usize), Unwritten>
    ensures { ◌≡◌ {A = Answered Handed}
        (record { told = told result; buffer = paper.new })
        (contradict_of book.now limit paper.old) }
{
    write_claim(book, Claim::NoReading, limit, paper)
}
