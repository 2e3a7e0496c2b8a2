// The whole listing, page by page. Each page goes on where the one before ended, so that each try
// is made once; going down again to that place costs one closing a level.
ghost use Rattle.std.specs.Prelude.{◌≡◌, ◌-◌, ◌*◌, ◌≤◌, [], ◌++◌, length, take, drop, Err};
ghost use Rattle.book.specs.Format.{book_in, ReadAs};
ghost use Rattle.walk.specs.Page.{told, room_in, page_of};
ghost use Rattle.walk.specs.Listing.{SameRow};
ghost use Rattle.listing.specs.Following.{refusal_of, atoms_only, Follows, Shown};

use crate::page::print_page;
use book::{Shape, read_book};
use meaning::Colouring;
use talk::{Line, Refused, put_refused, put_size};
use walk::{NoPage, Page, page};

// The tries of a listing, and of each book of a table.
pub const LIMIT: u32 = 1000000;

// How a listing ended, with the readings that it listed.
#[derive(Clone, Copy)]
enum End {
    // All of them, and all tries.
    Ended(u64, u32),
    // Those up to the limit: one more try would pass it.
    Stopped(u64),
}

// What a page makes of a listing.
#[derive(Clone, Copy)]
enum Step {
    // Another page follows: the readings listed and the tries made so far.
    Goes(u64, u32),
    Done(End),
}

// Writes `WORD SETS tries TRIES` and the line end.
fn print_counts(rt: &impl Print, word: &[u8], sets: u64, tries: u32, line_end: u8) {
    let mut room = [0u8; 128];
    let mut line = Line::new(&mut room);
    line.text(word);
    line.text(b" ");
    line.number(sets);
    line.text(b" tries ");
    line.number(tries as u64);
    line.byte(line_end);
    line.print(rt);
}

// Writes `refused NUMBER PLACE`, or `refused NUMBER` where there is no place, and the line end.
fn print_refused(rt: &impl Print, refused: Refused, line_end: u8) {
    let mut room = [0u8; 128];
    let mut line = Line::new(&mut room);
    put_refused(refused, &mut line);
    line.byte(line_end);
    line.print(rt);
}

// Writes `rules R atoms A` and the line end: the first line of a listing.
fn print_start(rt: &impl Print, shape: Shape, line_end: u8) {
    let mut room = [0u8; 128];
    let mut line = Line::new(&mut room);
    put_size(shape, &mut line);
    line.byte(line_end);
    line.print(rt);
}

// How many rows a full page has; a book without atoms has one reading.
fn room_for(bytes: usize, atoms: usize) -> usize
    ensures { result ≡ room_in (atoms_only atoms) bytes }
{
    if atoms == 0 {
        return 1;
    }
    bytes / atoms
}

// Copies the last of so many rows, which the next page goes on behind. The bytes past the row's
// atoms stay as they were.
fn keep_row(rows: &[u8], count: usize, atoms: usize, last: &mut [u8])
    requires { (1 ≤ count) × (count * atoms ≤ length rows.now) × (length rows.now ≤ 65280)
        × (atoms ≤ length last.old) }
    ensures { last.new ≡ take atoms (drop ((count - 1) * atoms) rows.now)
        ++ drop atoms last.old }
{
    let from = (count - 1) * atoms;
    last[..atoms].copy_from_slice(&rows[from..from + atoms]);
}

// Why no page can be had.
fn refused_page(why: NoPage) -> Refused
    ensures { told (Err why) ≡ refusal_of result }
{
    match why {
        NoPage::Book(why) => Refused::from(why),
        NoPage::NoRoom => Refused::plain(8),
    }
}

// Writes the next page, and keeps its last row where another follows. What it writes is the rows of
// the page that is promised, by their comment; how the listing stands then is promised.
fn list_page(
    rt: &impl Print,
    book: &[u8],
    atoms: usize,
    line_end: u8,
    names: &[u8],
    before: u64,
    tries: u32,
    rows: &mut [u8],
    last: &mut [u8],
) -> Result<Step, Refused>
    requires { (atoms ≤ 255) × (atoms ≤ length rows.old) × (length rows.old ≤ 65280)
        × (before ≤ 1000000) × (atoms ≤ length last.old)
        × SameRow (drop atoms last.old) [] }
    ensures rows_after { rows.new ≡ (page_of book.now 1000000 tries
        last.old rows.old).buffer }
    ensures follows { Follows atoms before (length rows.old)
        (page_of book.now 1000000 tries last.old rows.old)
        last.new result }
{
    match page(book, LIMIT, tries, last, rows) {
        Ok(Page::Whole(more)) => {
            let count = room_for(rows.len(), atoms);
            print_page(rt, rows, atoms, count as u64, before, line_end, names);
            keep_row(rows, count, atoms, last);
            Ok(Step::Goes(before + count as u64, more))
        }
        Ok(Page::Last(all, count)) => {
            print_page(rt, rows, atoms, count as u64, before, line_end, names);
            Ok(Step::Done(End::Ended(before + count as u64, all)))
        }
        Ok(Page::Cut(count)) => {
            print_page(rt, rows, atoms, count as u64, before, line_end, names);
            Ok(Step::Done(End::Stopped(before + count as u64)))
        }
        Err(why) => Err(refused_page(why)),
    }
}

// Writes the readings of a good book, and gives how many they are and the tries. A page of 65,280
// bytes has room for 256 rows of 255 atoms. Each full page has a try for each of its rows at least,
// so the listing comes to an end.
// No `ReadBook`: the proof that all readings are shown needs the bytes in the slice to be bytes, which
// isn't known of a field.
fn list_pages(
    rt: &impl Print,
    book: &[u8],
    shape: Shape,
    line_end: u8,
    names: &[u8],
) -> Result<End, Refused>
    requires { ReadAs book.now shape }
    ensures { Shown (book_in book.now) 1000000 result }
{
    let atoms = shape.atoms as usize;
    let mut rows = [0u8; 65280];
    let mut last = [0u8; Colouring::ATOMS];
    let mut before: u64 = 0;
    let mut tries: u32 = 0;
    loop {
        match list_page(
            rt, book, atoms, line_end, names, before, tries, &mut rows, &mut last,
        )? {
            Step::Goes(sets, more) => {
                before = sets;
                tries = more;
            }
            Step::Done(end) => return Ok(end),
        }
    }
}

// Writes the first line of a good book's listing and its readings, and gives how it ended.
fn list_book(rt: &impl Print, book: &[u8], line_end: u8, names: &[u8]) -> Result<End, Refused> {
    let shape = read_book(book)?;
    print_start(rt, shape, line_end);
    list_pages(rt, book, shape, line_end, names)
}

// Writes what the program `readings` prints for the book, with `line_end` at the end of each line, and
// with names where there are any.
pub fn list(rt: &impl Print, book: &[u8], line_end: u8, names: &[u8]) {
    match list_book(rt, book, line_end, names) {
        Ok(End::Ended(sets, tries)) => print_counts(rt, b"end", sets, tries, line_end),
        Ok(End::Stopped(sets)) => print_counts(rt, b"stopped", sets, LIMIT, line_end),
        Err(refused) => print_refused(rt, refused, line_end),
    }
}
