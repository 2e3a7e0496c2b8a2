// What is explained: a paper for a good book, with the names of the book's atoms.
ghost use Rattle.std.specs.Prelude.{◌≡◌, ◌+◌, ◌≤◌, length};
ghost use Rattle.meaning.specs.Paper.{paper_bytes};

use book::ReadBook;
use checker::Trailer;

// The trailer is the paper's own: the steps and the witness fill the bytes before it.
#[derive(Clone, Copy)]
pub struct Paper<'a> {
    pub book: ReadBook<'a>,
    pub names: &'a [u8],
    pub bytes: &'a [u8],
    pub trailer: Trailer,
    ghost fits: { (trailer.from + trailer.count + 6 ≡ length bytes.now)
        × (length bytes.now ≤ paper_bytes) },
}
