// The conditions of the steps that speak of one rule or of the claim, on the colouring as it
// stands. Tables of atoms are made for the step, so that a condition asks of an atom in one step.
ghost use Rattle.std.specs.Prelude.{◌≡◌, ◌&&◌, ◌<◌};
ghost use Rattle.meaning.specs.Sets.{some, some_below};
ghost use Rattle.meaning.specs.Books.{rule_no, rule};
ghost use Rattle.meaning.specs.Colours.{heads, all_in, may_on, uncoloured};
ghost use Rattle.meaning.specs.Claim.{shown, ended};
ghost use Rattle.meaning.specs.Bits.{listed};
ghost use Rattle.meaning.specs.Written.{of, lent};
ghost use Rattle.book.specs.ReadBook.{the_book};

use book::ReadBook;
use meaning::{AtomNo, Bits, Claim, Colouring, Kind, RuleNo};

// 41: each positive atom is the head of an on rule, and for each negative atom all rules with that
// head are off.
pub fn may_go_on<'a>(book: &ReadBook, r: RuleNo, on: &'a Bits, off: &'a Bits) -> bool
    requires { r.0 < book.now.shape.rules }
    ensures { result ≡
        may_on (the_book book.now) (lent (listed on.now.w) (listed off.now.w)) r }
{
    let mut headed = [false; Colouring::ATOMS];
    book.heads_of(on, &mut headed);
    let mut lost = [false; Colouring::ATOMS];
    book.lost_in(off, &mut lost);
    book.goes_on(r, &headed, &lost)
}

// 42: some negative atom is the head of an on rule.
pub fn may_go_off(book: &ReadBook, r: RuleNo, on: &Bits) -> bool
    requires { r.0 < book.now.shape.rules }
    ensures { result ≡ some (heads (the_book book.now) (of (listed on.now.w)))
        (rule (the_book book.now) r).neg }
{
    let mut headed = [false; Colouring::ATOMS];
    book.heads_of(on, &mut headed);
    book.is_blocked(r, &headed)
}

// 53: the rule has no colour.
pub fn is_uncoloured<'a>(r: RuleNo, on: &'a Bits, off: &'a Bits) -> bool
    ensures { result ≡ uncoloured (lent (listed on.now.w) (listed off.now.w)) r }
{
    !on.has(r.0) && !off.has(r.0)
}

// Some rule is in both sets.
pub fn is_clashing<'a>(rules: u8, on: &'a Bits, off: &'a Bits) -> bool
    ensures { result ≡ some_below rules (λ n.
        of (listed on.now.w) (rule_no n) && of (listed off.now.w) (rule_no n)) }
{
    let both = on.intersection(*off);
    both.meets(Bits::below(rules))
}

// The atom is the head of a rule of the set.
pub fn is_head(book: &ReadBook, a: AtomNo, set: &Bits) -> bool
    ensures { result ≡ heads (the_book book.now) (of (listed set.now.w)) a }
{
    for r in 0..book.shape.rules {
        if set.has(r) && book.head(RuleNo(r)) == a {
            return true;
        }
    }
    false
}

// All rules with the atom as head are in the set.
pub fn is_lost(book: &ReadBook, a: AtomNo, set: &Bits) -> bool
    ensures { result ≡ all_in (the_book book.now) (of (listed set.now.w)) a }
{
    let others = Bits::below(book.shape.rules).difference(*set);
    !is_head(book, a, &others)
}

// The claim is shown: an on rule has the claimed atom as head, or all rules with it as head are off.
// That the book has no reading is shown by no colouring.
fn is_shown<'a>(book: &ReadBook, claim: Claim, on: &'a Bits, off: &'a Bits) -> bool
    ensures { result ≡
        shown (the_book book.now) claim (lent (listed on.now.w) (listed off.now.w)) }
{
    match claim {
        Claim::About(kind, atom) => match kind {
            Kind::Naming => is_head(book, atom, on),
            Kind::Clearing => is_lost(book, atom, off),
        },
        Claim::NoReading => false,
    }
}

// 45: some rule is in both sets, or the claim is shown.
pub fn is_ended<'a>(book: &ReadBook, claim: Claim, on: &'a Bits, off: &'a Bits) -> bool
    ensures { result ≡
        ended (the_book book.now) claim (lent (listed on.now.w) (listed off.now.w)) }
{
    is_clashing(book.shape.rules, on, off) || is_shown(book, claim, on, off)
}
