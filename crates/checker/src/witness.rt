// The witness: the on rules of one answer set, in a grounded order; none where the claim is that
// there is no answer set.
ghost use Rattle.std.specs.Prelude.{◌≡◌, ◌||◌, [], ◌+◌, ◌<◌, ◌≤◌, length};
ghost use Rattle.meaning.specs.Books.{rule, every_rule};
ghost use Rattle.meaning.specs.Paper.{fails, paper_bytes};
ghost use Rattle.meaning.specs.Bits.{listed};
ghost use Rattle.meaning.specs.Written.{of};
ghost use Rattle.book.specs.ReadBook.{the_book};
ghost use Rattle.book.specs.Tables.{atoms_in, Below};
ghost use Rattle.checker.specs.Witness.{order_of, blocked_of, witness_verdict, grounds_verdict};
ghost use Rattle.checker.specs.Parts.{verdict};

use crate::list::with_rules;
use crate::trailer::Trailer;
use book::{ReadBook, every_in, some_in, wide};
use meaning::{Bits, Claim, Colouring, RuleNo};

// Each byte in turn: its number, repetition and positive atoms. The list starts at byte `from` of
// the paper.
fn check_order(book: &ReadBook, list: &[u8], from: usize) -> Result<(), usize>
    requires { from + length list.now < 65536 }
    ensures { verdict result ≡
        order_of (the_book book.now) from [] list.now }
{
    let mut before = Bits::EMPTY;
    let mut headed = [false; Colouring::ATOMS];
    for (i, &n) in list.iter().enumerate() {
        if book.shape.rules <= n || before.has(n) || !every_in(book.positives(RuleNo(n)), &headed) {
            return Err(from + i);
        }
        before.put(n);
        headed[wide(book.head(RuleNo(n)).0)] = true;
    }
    Ok(())
}

// Each byte once more: no negative atom of its rule is in the table.
fn check_unblocked(
    book: &ReadBook,
    list: &[u8],
    from: usize,
    headed: &[bool; Colouring::ATOMS],
) -> Result<(), usize>
    requires { Below book.now.shape.rules list.now
        × (from + length list.now < 65536) }
    ensures { verdict result ≡
        blocked_of (the_book book.now) (atoms_in headed.now) from
        list.now }
{
    for (i, &n) in list.iter().enumerate() {
        if book.is_blocked(RuleNo(n), headed) {
            return Err(from + i);
        }
    }
    Ok(())
}

// The rule has a positive atom outside the table or a negative atom in it.
fn fails_in(book: &ReadBook, r: RuleNo, headed: &[bool; Colouring::ATOMS]) -> bool
    requires { r.0 < book.now.shape.rules }
    ensures { result ≡
        fails (atoms_in headed.now) (rule (the_book book.now) r) }
{
    !every_in(book.positives(r), headed) || some_in(book.negatives(r), headed)
}

// Every rule that is not listed fails.
fn rest_fails(book: &ReadBook, set: &Bits, headed: &[bool; Colouring::ATOMS]) -> bool
    ensures { result ≡ every_rule (the_book book.now)
        (λ r. of (listed set.now.w) r
        || fails (atoms_in headed.now) (rule (the_book book.now) r)) }
{
    for r in 0..book.shape.rules {
        if !set.has(r) && !fails_in(book, RuleNo(r), headed) {
            return false;
        }
    }
    true
}

// The whole witness: its order, its negative atoms, then the rules that it doesn't list.
pub fn check_witness(book: &ReadBook, paper: &[u8], trailer: Trailer) -> Result<(), usize>
    requires { (trailer.from + trailer.count + 6 ≡ length paper.now)
        × (length paper.now ≤ paper_bytes) }
    ensures { verdict result ≡ witness_verdict (the_book book.now) paper.now
        trailer.from trailer.count }
{
    let from = trailer.from;
    let end = from + trailer.count;
    check_order(book, &paper[from..end], from)?;
    let all = with_rules(Bits::empty(), &paper[from..end]);
    let mut headed = [false; Colouring::ATOMS];
    book.heads_of(&all, &mut headed);
    check_unblocked(book, &paper[from..end], from, &headed)?;
    if !rest_fails(book, &all, &headed) {
        return Err(paper.len() - 6);
    }
    Ok(())
}

// What the claim asks behind the steps: a witness, or that nothing is listed.
pub fn check_grounds(book: &ReadBook, paper: &[u8], trailer: Trailer) -> Result<(), usize>
    requires { (trailer.from + trailer.count + 6 ≡ length paper.now)
        × (length paper.now ≤ paper_bytes) }
    ensures { verdict result ≡ grounds_verdict trailer.claim (the_book book.now)
        paper.now trailer.from trailer.count }
{
    match trailer.claim {
        Claim::About(_, _) => check_witness(book, paper, trailer),
        Claim::NoReading if trailer.count != 0 => Err(trailer.from),
        Claim::NoReading => Ok(()),
    }
}
