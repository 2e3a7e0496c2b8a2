// A draft whose steps came to their end becomes the paper.
ghost use Rattle.std.specs.Prelude.{◌≡◌, List, ℕ, ◌<◌, length};
ghost use Rattle.meaning.specs.Told.{Answered};
ghost use Rattle.meaning.specs.Paper.{paper_bytes};
ghost use Rattle.book.specs.ReadBook.{the_book};
ghost use Rattle.walk.specs.Page.{set_in};
ghost use Rattle.writer.specs.Draft.{Stands};
ghost use Rattle.writer.specs.PaperNeeds.{whole_paper};
ghost use Rattle.writer.specs.Write.{Handed, told, hand_over};

use crate::answer::Unwritten;
use crate::draft::write_trailer;
use crate::witness::write_witness;
use book::ReadBook;
use meaning::{Claim, Colouring, PAPER_BYTES};

// Writes the witness and the trailer behind the steps; the length of the whole paper.
pub fn finish(
    book: &ReadBook,
    claim: Claim,
    row: &[u8; Colouring::ATOMS],
    draft: &mut [u8; PAPER_BYTES],
    from: usize,
) -> usize
    requires { from < 65536 }
    ensures { (steps : List ℕ) → Stands steps from draft.old →
        Stands (whole_paper (the_book book.now) claim steps
        (set_in row.now)) result draft.new }
{
    let witness = write_witness(book, row, draft, from);
    write_trailer(draft, witness.length, claim, witness.count, from)
}

// Copies the paper of the first `n` bytes to the front of the buffer, or refuses it as too long for
// the buffer or for a paper.
pub fn hand_over(
    tries: u32,
    draft: &[u8; PAPER_BYTES],
    n: usize,
    paper: &mut [u8],
) -> Result<(u32, usize), Unwritten>
    requires { length draft.now ≡ paper_bytes }
    ensures { (whole : List ℕ) → Stands whole n draft.now →
        ◌≡◌ {A = Answered Handed} (record { told = told result; buffer = paper.new })
        (hand_over tries whole paper.old) }
{
    if paper.len() < n || PAPER_BYTES < n {
        return Err(Unwritten::TooLong);
    }
    paper[..n].copy_from_slice(&draft[..n]);
    Ok((tries, n))
}
