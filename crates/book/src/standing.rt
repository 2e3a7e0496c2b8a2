// Where each atom of a good book stands: for each atom the set of rules with that head, the set of
// rules with it among their positive atoms, and among their negative ones. 768 rows of four words: row
// a for the rules with head a, row 256 + a for those with a among their positive atoms, row 512 + a
// among the negative ones. What a row says is said of any rows; `RowedBook` has those of its book.
ghost use Rattle.std.specs.Prelude.{◌≡◌, ◌+◌, ◌<◌, ◌≤◌, length};
ghost use Rattle.meaning.specs.Books.{rule, rule_no};
ghost use Rattle.meaning.specs.Bits.{one};
ghost use Rattle.book.specs.ReadBook.{the_book};
ghost use Rattle.book.specs.RuleRows.{row, sets, entered, in_part, in_rows};

use crate::number::wide;
use crate::read::ReadBook;
use meaning::{AtomNo, Bits, RuleNo};

// The rules with that head.
pub fn head_row(rows: &[u64; 3072], a: AtomNo) -> Bits
    ensures { result.w ≡ row rows.now a.0 }
{
    row_at(rows, wide(a.0))
}

// The rules with that atom among their positive ones.
pub fn pos_row(rows: &[u64; 3072], a: AtomNo) -> Bits
    ensures { result.w ≡ row rows.now (256 + a.0) }
{
    row_at(rows, 256 + wide(a.0))
}

// The rules with that atom among their negative ones.
pub fn neg_row(rows: &[u64; 3072], a: AtomNo) -> Bits
    ensures { result.w ≡ row rows.now (512 + a.0) }
{
    row_at(rows, 512 + wide(a.0))
}

// Row k, in a set by value.
fn row_at(rows: &[u64; 3072], k: usize) -> Bits
    requires { k < 768 }
    ensures { result.w ≡ row rows.now k }
{
    let at = k * 4;
    Bits {
        w: [rows[at], rows[at + 1], rows[at + 2], rows[at + 3]],
    }
}

// Enters the rule in the rows of its head and of its body's atoms.
pub fn enter_rule(book: &ReadBook, r: u8, rows: &mut [u64; 3072])
    requires { (r < book.now.shape.rules) × (length rows.old ≡ 3072) }
    ensures { (sets rows.new ≡
        entered r (in_rows (rule (the_book book.now) (rule_no r))) (sets rows.old))
        × (length rows.new ≡ 3072) }
{
    enter(rows, wide(book.head(RuleNo(r)).0), r);
    enter_part(rows, 256, book.positives(RuleNo(r)), r);
    enter_part(rows, 512, book.negatives(RuleNo(r)), r);
}

// Enters the rule in the row `first` + a of each atom a of the part.
fn enter_part(rows: &mut [u64; 3072], first: usize, part: &[u8], r: u8)
    requires { (first ≤ 512) × (length rows.old ≡ 3072) }
    ensures { (sets rows.new ≡
        entered r (in_part first part.now) (sets rows.old))
        × (length rows.new ≡ 3072) }
{
    for a in part {
        enter(rows, first + wide(*a), r);
    }
}

// Enters the rule in row k.
fn enter(rows: &mut [u64; 3072], k: usize, r: u8)
    requires { (k < 768) × (length rows.old ≡ 3072) }
    ensures { (sets rows.new ≡ entered r (one k) (sets rows.old))
        × (length rows.new ≡ 3072) }
{
    let n = wide(r);
    let at = k * 4 + n / 64;
    rows[at] |= 1u64 << (n % 64);
}
