// A book made rule by rule in a lent array that any book fits in. A rule's parts are handed over as
// tables, so that they come out ascending, each atom once. Rules that pass the format's limits are
// not stored; that they did is kept to the end.
ghost use Rattle.std.specs.Prelude.{◌≡◌, true, false, List, [], ◌∷◌, ◌++◌, ℕ, ◌+◌, ◌≤◌, ◌<◌, ◌%◌, ◌/◌, length, get_or, drop};
ghost use Rattle.meaning.specs.Books.{Rule};
ghost use Rattle.book.specs.Format.{book_bytes};
ghost use Rattle.book.specs.Writing.{atom_bytes, record_bytes, index_bytes};
ghost use Rattle.book.specs.Making.{listed, rule_by, takes, Puts, Made, Adds, Finished};

use crate::number::wide;
use crate::{BOOK_BYTES, BOOK_MARK};
use meaning::{AtomNo, Colouring};

// How many bytes and rules were made, and whether all rules kept the limits.
#[derive(Clone, Copy)]
pub struct Making {
    pub length: usize,
    pub rules: usize,
    pub fits: bool,
}

impl Making {
    pub const NOTHING: Making = Making {
        length: 0,
        rules: 0,
        fits: true,
    };

    // No rule is made yet, whatever the draft holds.
    pub fn nothing() -> Making
        ensures { (draft : List ℕ) → length draft ≡ book_bytes → Made [] result draft }
    {
        Making::NOTHING
    }

    // A rule passed the limits.
    pub fn passed(self) -> Making
        ensures { result ≡ record { length = self.length; rules = self.rules; fits = false } }
    {
        Making {
            fits: false,
            ..self
        }
    }
}

// How many atoms the table has.
pub fn count_atoms(table: &[bool; Colouring::ATOMS]) -> usize
    ensures { result ≡ length (listed table.now) }
{
    let mut n = 0;
    for said in table {
        if *said {
            n += 1;
        }
    }
    n
}

// Writes one byte at `at`; where it ends.
fn write_byte(draft: &mut [u8; BOOK_BYTES], at: usize, byte: u8) -> usize
    requires { at < book_bytes }
    ensures { Puts (byte ∷ []) at draft.old result draft.new }
{
    draft[at] = byte;
    at + 1
}

// Writes a number as two bytes from byte `at` on, the low byte first; where they end.
fn write_number(draft: &mut [u8; BOOK_BYTES], at: usize, number: usize) -> usize
    requires { (at + 2 ≤ book_bytes) × (number < 65536) }
    ensures { Puts (number % 256 ∷ (number / 256 ∷ [])) at
        draft.old result draft.new }
{
    let low = write_byte(draft, at, (number % 256) as u8);
    write_byte(draft, low, (number / 256) as u8)
}

// Writes the table's atoms from byte `at` on; where they end.
fn write_atoms(draft: &mut [u8; BOOK_BYTES], at: usize, table: &[bool; Colouring::ATOMS]) -> usize
    requires { at + length (listed table.now) ≤ book_bytes }
    ensures { Puts (atom_bytes (listed table.now)) at
        draft.old result draft.new }
{
    let mut n = at;
    for (a, said) in table.iter().enumerate() {
        if *said {
            n = write_byte(draft, n, a as u8);
        }
    }
    n
}

// Writes a rule's record from byte `at` on; where it ends.
fn write_record<'a>(
    draft: &mut [u8; BOOK_BYTES],
    at: usize,
    head: AtomNo,
    pos: &'a [bool; Colouring::ATOMS],
    neg: &'a [bool; Colouring::ATOMS],
) -> usize
    requires { (at + 35 ≤ book_bytes) × (length (listed pos.now) ≤ 16)
        × (length (listed neg.now) ≤ 16) }
    ensures { Puts (record_bytes (rule_by head pos.now neg.now)) at
        draft.old result draft.new }
{
    let headed = write_byte(draft, at, head.0);
    let first = write_byte(draft, headed, count_atoms(pos) as u8);
    let second = write_byte(draft, first, count_atoms(neg) as u8);
    let middle = write_atoms(draft, second, pos);
    write_atoms(draft, middle, neg)
}

// A rule of this head and of parts with p and n atoms fits behind those that were made. A book's
// first 254 records have at most 8,890 bytes; that the length is asked too spares a `requires`.
fn has_room(m: Making, head: AtomNo, p: usize, n: usize) -> bool
    ensures { result ≡ takes m head.0 p n }
{
    if 255 <= m.rules {
        return false;
    }
    if 8891 <= m.length {
        return false;
    }
    if 255 <= head.0 {
        return false;
    }
    if 16 < p {
        return false;
    }
    n <= 16
}

// Adds the rule of the head and the two tables, or keeps that it passes the limits.
pub fn add_rule<'a>(
    draft: &mut [u8; BOOK_BYTES],
    m: Making,
    head: AtomNo,
    pos: &'a [bool; Colouring::ATOMS],
    neg: &'a [bool; Colouring::ATOMS],
) -> Making
    ensures { Adds (rule_by head pos.now neg.now ∷ []) m
        draft.old result draft.new }
{
    if !m.fits {
        return m;
    }
    if !has_room(m, head, count_atoms(pos), count_atoms(neg)) {
        return m.passed();
    }
    Making {
        length: write_record(draft, m.length, head, pos, neg),
        rules: m.rules + 1,
        fits: true,
    }
}

// How long the record at `start` is: it says so itself.
fn size_at(draft: &[u8; BOOK_BYTES], start: usize) -> usize
    requires { start + 3 ≤ book_bytes }
    ensures { (result ≡ 3 + get_or draft.now (start + 1) 0
        + get_or draft.now (start + 2) 0) × (result < 65536) }
{
    3 + wide(draft[start + 1]) + wide(draft[start + 2])
}

// Writes the index behind the records; where it ends.
fn write_index(draft: &mut [u8; BOOK_BYTES], m: Making) -> usize
    requires { (m.fits ≡ true) × ((l : List Rule) × Made l m draft.old) }
    ensures { (l : List Rule) → Made l m draft.old →
        Puts (index_bytes 0 l) m.length draft.old result draft.new }
{
    let mut at = m.length;
    let mut start = 0;
    for _rule in 0..m.rules {
        at = write_number(draft, at, start);
        start += size_at(draft, start);
    }
    at
}

// Writes index and trailer behind the records; the book's length.
pub fn finish_book(draft: &mut [u8; BOOK_BYTES], m: Making, atoms: u8) -> usize
    requires { (m.fits ≡ true) × ((l : List Rule) × Made l m draft.old) }
    ensures { (l : List Rule) → Made l m draft.old →
        Finished (record { atoms = atoms; rules = l }) result draft.new }
{
    let indexed = write_index(draft, m);
    let first = write_byte(draft, indexed, atoms);
    let second = write_byte(draft, first, m.rules as u8);
    let third = write_number(draft, second, m.length);
    let low = write_byte(draft, third, BOOK_MARK[0]);
    write_byte(draft, low, BOOK_MARK[1])
}

// Copies the bytes to the front of the buffer; the bytes behind them stay.
pub fn copy_front(bytes: &[u8], out: &mut [u8])
    requires { length bytes.now ≤ length out.old }
    ensures { out.new ≡
        bytes.now ++ drop (length bytes.now) out.old }
{
    out[..bytes.len()].copy_from_slice(bytes);
}
