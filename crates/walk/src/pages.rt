// The next page of a listing of all readings.
ghost use Rattle.std.specs.Prelude.{◌≡◌, [], ◌/◌, Ok};
ghost use Rattle.meaning.specs.Choice.{if_eq};
ghost use Rattle.meaning.specs.Told.{success, Answered};
ghost use Rattle.book.specs.ReadBook.{the_book};
ghost use Rattle.walk.specs.Page.{PageEnd, told, ended_by, page_in, page_of};

use crate::page_answer::{NoPage, Page};
use crate::resume::resume;
use crate::tally::{Halt, Tally};
use crate::walk::walk;
use crate::wanted::Wanted;
use book::{ReadBook, RowedBook};
use closing::Choice;
use meaning::Colouring;

// The rows that the bytes have room for.
fn rows_in(atoms: u8, bytes: usize) -> usize
    ensures { result ≡ if_eq atoms 0 1 (bytes / atoms) }
{
    if atoms == 0 {
        1
    } else {
        bytes / atoms as usize
    }
}

// What a call's tally tells. Not one function with the k-th reading's: none of the three answers is shared.
fn tell(t: Tally) -> Page
    ensures { told (Ok result) ≡ success (ended_by t.halt (record { tally = t; out = [] })) }
{
    match t.halt {
        Halt::Going => Page::Last(t.tries, t.sets),
        Halt::Full => Page::Whole(t.tries),
        Halt::Limit => Page::Cut(t.sets),
    }
}

// The next page of a good book. Nobody is told the rule of a contradictory try, so its origin is left.
fn page_in(
    book: ReadBook,
    limit: u32,
    tries: u32,
    last: &[u8],
    out: &mut [u8],
) -> Result<Page, NoPage>
    ensures { ◌≡◌ {A = Answered PageEnd} (record { told = told result; buffer = out.new })
        (page_in (the_book book.entry) limit tries last.now out.old) }
{
    if out.len() < book.shape.atoms as usize {
        return Err(NoPage::NoRoom);
    }
    let wanted = Wanted {
        pass: 0,
        room: rows_in(book.shape.atoms, out.len()),
        limit,
    };
    let start = Tally {
        tries,
        ..Tally::START
    };
    let rowed = RowedBook::of(book);
    let mut origin = [0u64; 8];
    if tries == 0 {
        let t = walk(
            &rowed,
            Colouring::empty(),
            Choice::Nothing,
            &wanted,
            start,
            &mut origin,
            out,
        );
        return Ok(tell(t));
    }
    let t = resume(
        &rowed,
        Colouring::empty(),
        Choice::Nothing,
        last,
        &wanted,
        start,
        &mut origin,
        out,
    );
    Ok(tell(t))
}

// Writes the rows of the next readings to the buffer, as many as it has room for: the first ones
// where no try was made yet, else those behind the last row of the page before.
pub fn page(
    book: &[u8],
    limit: u32,
    tries: u32,
    last: &[u8],
    out: &mut [u8],
) -> Result<Page, NoPage>
    ensures { ◌≡◌ {A = Answered PageEnd} (record { told = told result; buffer = out.new })
        (page_of book.now limit tries last.now out.old) }
{
    page_in(ReadBook::read(book)?, limit, tries, last, out)
}
