// The joined book, laid out in a draft.
ghost use Rattle.std.specs.Prelude.{◌≡◌, [], ◌∷◌, map, ℕ, ◌+◌, ◌-◌, ◌<◌, ◌≤◌, length, Ok};
ghost use Rattle.meaning.specs.Sets.{some};
ghost use Rattle.meaning.specs.Books.{atom_no, rule, same_atom};
ghost use Rattle.meaning.specs.Joined.{up_atom, up_rule, joined};
ghost use Rattle.book.specs.Format.{book_bytes};
ghost use Rattle.book.specs.ReadBook.{the_book};
ghost use Rattle.book.specs.Tables.{atom_table, Below};
ghost use Rattle.book.specs.Making.{Adds, Finished};
ghost use Rattle.crews.specs.Join.{laid_of};

use crate::answer::Unjoined;
use book::{BOOK_BYTES, Making, ReadBook, add_rule, finish_book, wide};
use meaning::{AtomNo, Colouring, RuleNo};

// Writes the part's atoms, moved up, over whatever the table held.
fn move_part(part: &[u8], up: u8, table: &mut [bool; Colouring::ATOMS])
    requires { Below (255 - up) part.now }
    ensures { table.new ≡
        atom_table (λ a. some (λ d. same_atom (up_atom up d) a) (map atom_no part.now)) }
{
    *table = [false; Colouring::ATOMS];
    for a in part {
        table[wide(*a) + wide(up)] = true;
    }
}

// Adds a rule of a good book, its atoms moved up.
fn add_moved(draft: &mut [u8; BOOK_BYTES], m: Making, book: &ReadBook, r: RuleNo, up: u8) -> Making
    requires { (r.0 < book.now.shape.rules) × (up + book.now.shape.atoms ≤ 255) }
    ensures { Adds (up_rule up (rule (the_book book.now) r) ∷ []) m
        draft.old result draft.new }
{
    let mut pos = [false; Colouring::ATOMS];
    let mut neg = [false; Colouring::ATOMS];
    move_part(book.positives(r), up, &mut pos);
    move_part(book.negatives(r), up, &mut neg);
    let a = book.head(r).0;
    add_rule(draft, m, AtomNo(up + a), &pos, &neg)
}

// Adds the rules of a good book, their atoms moved up.
fn add_book(draft: &mut [u8; BOOK_BYTES], m: Making, book: &ReadBook, up: u8) -> Making
    requires { up + book.now.shape.atoms ≤ 255 }
    ensures { Adds (map (up_rule up) (the_book book.now).rules) m
        draft.old result draft.new }
{
    let mut n = m;
    for r in 0..book.shape.rules {
        n = add_moved(draft, n, book, RuleNo(r), up);
    }
    n
}

// Writes the joined book to the front of the draft; its length.
fn join_in(first: &ReadBook, second: &ReadBook, draft: &mut [u8; BOOK_BYTES]) -> usize
    requires { (first.now.shape.atoms + second.now.shape.atoms ≤ 255)
        × (first.now.shape.rules + second.now.shape.rules ≤ 255)
        × (length draft.old ≡ book_bytes) }
    ensures { Finished (joined (the_book first.now) (the_book second.now))
        result draft.new }
{
    let day = add_book(draft, Making::nothing(), first, 0);
    let night = add_book(draft, day, second, first.shape.atoms);
    finish_book(draft, night, first.shape.atoms + second.shape.atoms)
}

// Writes the joined book to the front of the draft, if it is within the limits and the room; its
// length. This comes before either book is searched.
pub fn lay_out(
    first: &ReadBook,
    second: &ReadBook,
    room: usize,
    draft: &mut [u8; BOOK_BYTES],
) -> Result<usize, Unjoined>
    requires { length draft.old ≡ book_bytes }
    ensures { (result ≡
        laid_of (the_book first.now) (the_book second.now) room)
        × ((n : ℕ) → result ≡ Ok n → Finished
        (joined (the_book first.now) (the_book second.now)) n
        draft.new) }
{
    if 255 < wide(first.shape.atoms) + wide(second.shape.atoms) {
        return Err(Unjoined::TooMany);
    }
    if 255 < wide(first.shape.rules) + wide(second.shape.rules) {
        return Err(Unjoined::TooMany);
    }
    let n = join_in(first, second, draft);
    if room < n {
        return Err(Unjoined::NoRoom);
    }
    Ok(n)
}
