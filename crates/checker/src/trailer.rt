// What a paper's last bytes say: its length, its mark and its trailer are read before its steps.
ghost use Rattle.std.specs.Prelude.{◌≡◌, ◌-◌, ◌≤◌, length, get_or};
ghost use Rattle.meaning.specs.Books.{Book};
ghost use Rattle.meaning.specs.Paper.{paper_bytes};
ghost use Rattle.book.specs.Format.{u16_at};
ghost use Rattle.checker.specs.Check.{stated, trailer_told, paper_of};
ghost use Rattle.checker.specs.Parts.{EndsAs};

use crate::answer::Rejected;
use book::{u16_at, wide};
use meaning::{AtomNo, Claim, Kind, Marked, PAPER_BYTES};

// The claim, how many rules the witness lists, and the byte that it starts at.
#[derive(Clone, Copy)]
pub struct Trailer {
    pub claim: Claim,
    pub count: usize,
    pub from: usize,
}

// The trailer's first byte fits the claim: the claimed atom is one of the book; or, where no atom is
// claimed, the byte is 0.
fn is_stated(atoms: u8, claim: Claim, byte: u8) -> bool
    ensures { result ≡ stated claim atoms byte }
{
    match claim {
        Claim::About(_, atom) => atom.0 < atoms,
        Claim::NoReading => byte == 0,
    }
}

// The trailer of a paper whose mark and atom make this claim, for a book with so many atoms.
fn read_claim(atoms: u8, paper: &[u8], claim: Claim) -> Result<Trailer, Rejected>
    requires { (6 ≤ length paper.now) × (length paper.now ≤ paper_bytes) }
    ensures { (b : Book) → b.atoms ≡ atoms → EndsAs b paper.now
        (trailer_told b claim paper.now
        (get_or paper.now (length paper.now - 5) 0)
        (u16_at paper.now (length paper.now - 4))) result }
{
    let len = paper.len();
    let byte = paper[len - 6];
    let count = wide(paper[len - 5]);
    let from = u16_at(paper, len - 4);
    if from + count + 6 != len {
        return Err(Rejected::Trailer(len - 4));
    }
    if !is_stated(atoms, claim, byte) {
        return Err(Rejected::Atom(len - 6));
    }
    Ok(Trailer { claim, count, from })
}

// The trailer of a paper for a book with so many atoms: the paper's length and its mark first.
pub fn read_trailer(atoms: u8, paper: &[u8]) -> Result<Trailer, Rejected>
    ensures { (b : Book) → b.atoms ≡ atoms
        → EndsAs b paper.now (paper_of b paper.now) result }
{
    let len = paper.len();
    if len < 6 || PAPER_BYTES < len {
        return Err(Rejected::Length);
    }
    match Kind::by_mark(paper[len - 2], paper[len - 1]) {
        Marked::Neither => Err(Rejected::Mark(len - 2)),
        Marked::NoReading => read_claim(atoms, paper, Claim::NoReading),
        Marked::Of(kind) => {
            let claim = Claim::About(kind, AtomNo(paper[len - 6]));
            read_claim(atoms, paper, claim)
        }
    }
}
