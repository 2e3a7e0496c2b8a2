// Reads one record, and all of them.
ghost use Rattle.std.specs.Prelude.{◌≡◌, ◌+◌, ◌*◌, ◌<◌, ◌≤◌, length};
ghost use Rattle.book.specs.Format.{record_of, length_of, records_of, book_bytes};
ghost use Rattle.book.specs.Checks.{checked};

use crate::number::{u16_at, wide};
use crate::part::check_part;
use crate::refusal::Refusal;

// The record that starts the part, which goes on to the index; `at` is the part's place in the
// book.
pub fn check_record(part: &[u8], atoms: u8, at: usize) -> Result<(), Refusal>
    requires { at + length part.now < 65536 }
    ensures { checked result ≡ record_of atoms at part.now }
{
    if part.len() < 3 {
        return Err(Refusal::Record(at));
    }
    let p = wide(part[1]);
    let n = wide(part[2]);
    if 16 < p {
        return Err(Refusal::Record(at));
    }
    if 16 < n {
        return Err(Refusal::Record(at));
    }
    let mid = 3 + p;
    let end = mid + n;
    if part.len() < end {
        return Err(Refusal::Record(at));
    }
    if atoms <= part[0] {
        return Err(Refusal::Atom(at));
    }
    check_part(&part[3..mid], atoms, at + 3)?;
    check_part(&part[mid..end], atoms, at + mid)
}

// The length of a record that was found fine.
pub fn record_length(part: &[u8]) -> usize
    requires { 3 ≤ length part.now }
    ensures { result ≡ length_of part.now }
{
    3 + wide(part[1]) + wide(part[2])
}

// All records, each as the part of the book from its own start to the index, and each where its
// index entry says.
pub fn check_records(book: &[u8], atoms: u8, index: usize, rules: usize) -> Result<(), Refusal>
    requires { (index + 2 * rules + 6 ≡ length book.now) × (length book.now ≤ book_bytes) }
    ensures { checked result ≡ records_of rules book.now atoms index 0 0 }
{
    let mut start = 0;
    for rule in 0..rules {
        let entry = index + 2 * rule;
        if u16_at(book, entry) != start {
            return Err(Refusal::Entry(entry));
        }
        check_record(&book[start..index], atoms, start)?;
        start += record_length(&book[start..index]);
    }
    if start != index {
        return Err(Refusal::Entry(index));
    }
    Ok(())
}
