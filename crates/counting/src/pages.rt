// The count of all answer sets of a book, page by page. Each page goes on where the one before
// ended, so that each try is made once; going down again to that place costs one closing a level,
// and a full page has made more closings than a walk has levels.
ghost use Rattle.std.specs.Prelude.{◌≡◌, ℕ, ◌/◌, length};
ghost use Rattle.meaning.specs.Choice.{if_eq};
ghost use Rattle.meaning.specs.Told.{Answered};
ghost use Rattle.book.specs.ReadBook.{the_book};
ghost use Rattle.counting.specs.Count.{told, count_in, count_of};
ghost use Rattle.counting.specs.SoFar.{SoFar, Comes};

use crate::answer::Uncounted;
use crate::column::add_page;
use crate::places::{copy_counts, keep_row};
use book::ReadBook;
use meaning::Colouring;
use walk::{Page, page};

// A page has room for 256 rows of 255 atoms.
const PAGE: usize = 65280;

// How a page of the count ends.
#[derive(Clone, Copy)]
pub enum Paged {
    // More pages may follow: all tries and all sets so far.
    More(u32, u32),
    // The walk has come to its end: all sets.
    All(u32),
    // One more try would pass the limit.
    Limited,
}

// How many rows a full page has; a book without atoms has one reading.
fn room_for(atoms: u8) -> u32
    ensures { result ≡ if_eq atoms 0 1 (65280 / atoms) }
{
    if atoms == 0 {
        return 1;
    }
    65280 / atoms as u32
}

// Counts the next page. Its last row, where it is full, is the one to go on behind.
fn count_page(
    book: &ReadBook,
    limit: u32,
    tries: u32,
    sets: u32,
    last: &mut [u8],
    tallies: &mut [u32],
) -> Paged
    requires { SoFar (the_book book.now) limit sets tries last.old tallies.old }
    ensures { Comes (the_book book.now) limit tries result
        last.new tallies.new }
{
    let atoms = book.shape.atoms as usize;
    let mut rows = [0u8; PAGE];
    match page(book.bytes, limit, tries, last, &mut rows) {
        Ok(Page::Whole(made)) => {
            let full = room_for(book.shape.atoms);
            add_page(&rows, atoms, full, tallies);
            let end = full as usize * atoms;
            keep_row(&rows, end - atoms, atoms, last);
            Paged::More(made, sets + full)
        }
        Ok(Page::Last(_, count)) => {
            add_page(&rows, atoms, count, tallies);
            Paged::All(sets + count)
        }
        Ok(Page::Cut(_)) => Paged::Limited,
        // The book is good and has room for a row, so this does not come.
        Err(_) => Paged::Limited,
    }
}

// Counts a good book. The lent array is written where all pages are counted.
fn count_in(book: &ReadBook, limit: u32, counts: &mut [u32]) -> Result<u32, Uncounted>
    requires { length counts.old ≡ 255 }
    ensures { ◌≡◌ {A = Answered ℕ} (record { told = told result; buffer = counts.new })
        (count_in (the_book book.now) limit counts.old) }
{
    let atoms = book.shape.atoms as usize;
    let mut tallies = [0u32; Colouring::ATOMS];
    let mut last = [0u8; Colouring::ATOMS];
    let mut tries = 0;
    let mut sets = 0;
    loop {
        match count_page(book, limit, tries, sets, &mut last[..atoms], &mut tallies) {
            Paged::More(made, met) => {
                tries = made;
                sets = met;
            }
            Paged::All(met) => {
                copy_counts(&tallies, atoms, counts);
                return Ok(met);
            }
            Paged::Limited => return Err(Uncounted::Stopped(limit)),
        }
    }
}

// Counts the answer sets of the book, and for each atom those that hold it, within so many tries of
// the whole walk: how many sets there are, and in the array in how many of them each atom stands.
pub fn count(
    book: &[u8],
    limit: u32,
    counts: &mut [u32; Colouring::ATOMS],
) -> Result<u32, Uncounted>
    ensures { ◌≡◌ {A = Answered ℕ} (record { told = told result; buffer = counts.new })
        (count_of book.now limit counts.old) }
{
    let read = ReadBook::read(book)?;
    count_in(&read, limit, counts)
}
