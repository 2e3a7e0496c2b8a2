// Checks a paper against a book: the book first, then the paper's length, mark and trailer, then
// its steps, then its witness.
ghost use Rattle.std.specs.Prelude.{◌≡◌, ◌+◌, ◌≤◌, length};
ghost use Rattle.meaning.specs.Paper.{paper_bytes};
ghost use Rattle.book.specs.ReadBook.{the_book};
ghost use Rattle.checker.specs.Numbers.{told};
ghost use Rattle.checker.specs.Check.{steps_told, paper_of, check_of};

use crate::answer::Rejected;
use crate::branch::branch;
use crate::trailer::{Trailer, read_trailer};
use crate::witness::check_grounds;
use book::ReadBook;
use meaning::{Claim, Colouring};

// The steps from the empty colouring, then that nothing stands between them and the witness, then
// the witness.
fn check_steps(book: &ReadBook, paper: &[u8], trailer: Trailer) -> Result<Claim, Rejected>
    requires { (trailer.from + trailer.count + 6 ≡ length paper.now)
        × (length paper.now ≤ paper_bytes) }
    ensures { told result ≡ steps_told (the_book book.now) trailer.claim
        paper.now trailer.count trailer.from }
{
    let end = branch(book, paper, trailer, 0, Colouring::empty())?;
    if end != trailer.from {
        return Err(Rejected::Gap(end));
    }
    match check_grounds(book, paper, trailer) {
        Ok(()) => Ok(trailer.claim),
        Err(at) => Err(Rejected::Witness(at)),
    }
}

// A paper for a good book: its length, mark and trailer first, then its steps and its witness.
fn check_paper(book: &ReadBook, paper: &[u8]) -> Result<Claim, Rejected>
    ensures { told result ≡ paper_of (the_book book.now) paper.now }
{
    let trailer = read_trailer(book.shape.atoms, paper)?;
    check_steps(book, paper, trailer)
}

// The claim that the paper proves, or the first thing that is wrong with the book or the paper.
pub fn check(book: &[u8], paper: &[u8]) -> Result<Claim, Rejected>
    ensures { told result ≡ check_of book.now paper.now }
{
    let book = ReadBook::read(book)?;
    check_paper(&book, paper)
}
