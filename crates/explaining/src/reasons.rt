// Why a step may be made: by which rule an atom holds, or which rules it has lost. Reasons say what
// the checker has found to be so; which rules they name is tested, not proved.
ghost use Rattle.std.specs.Prelude.{◌<◌};

use crate::paper::Paper;
use book::ReadBook;
use checker::{is_head, is_lost};
use meaning::{AtomNo, Bits, RuleNo};
use talk::{Line, count_rules, put_subject};

// The lowest rule of the set with the atom as head; R where there is none: it is only printed, and R is
// printed then.
fn lowest_of(book: &ReadBook, a: AtomNo, set: &Bits) -> u8 {
    for r in 0..book.shape.rules {
        if set.has(r) && book.head(RuleNo(r)) == a {
            return r;
        }
    }
    book.shape.rules
}

// That the atom holds, and by which of the on rules.
pub fn put_held(paper: &Paper, a: AtomNo, on: &Bits, line: &mut Line) {
    put_subject(paper.names, a.0, line);
    line.text(b" holds by rule ");
    line.number(lowest_of(&paper.book, a, on) as u64);
}

// The numbers of the rules with the atom as head, each behind a comma where it is not the first.
fn put_rules_of(book: &ReadBook, a: AtomNo, line: &mut Line) {
    let mut joint: &[u8] = b"";
    for r in 0..book.shape.rules {
        if book.head(RuleNo(r)) == a {
            line.text(joint);
            line.number(r as u64);
            joint = b", ";
        }
    }
}

// That so many rules are off, or that the step's own list puts them off.
fn put_off(count: usize, is_listing: bool, line: &mut Line) {
    line.text(match (is_listing, count) {
        (true, 1) => b" is off or goes off here".as_slice(),
        (true, _) => b" are off or go off here".as_slice(),
        (false, 1) => b" is off".as_slice(),
        (false, _) => b" are off".as_slice(),
    });
}

// That the atom is left without a rule, and which rules it had.
pub fn put_left(paper: &Paper, a: AtomNo, is_listing: bool, line: &mut Line) {
    let count = count_rules(&paper.book, a);
    put_subject(paper.names, a.0, line);
    if count == 0 {
        line.text(b" has no rule");
        return;
    }
    line.text(b" is left without a rule: ");
    put_rules_of(&paper.book, a, line);
    put_off(count, is_listing, line);
}

// Why a rule goes on: each positive atom holds, and each negative one is left without a rule. A colon
// stands before the first reason, a semicolon before every other.
pub fn put_why_on(paper: &Paper, r: RuleNo, on: &Bits, line: &mut Line)
    requires { r.0 < paper.now.book.shape.rules }
{
    let mut joint: &[u8] = b": ";
    for a in paper.book.positives(r) {
        line.text(joint);
        put_held(paper, AtomNo(*a), on, line);
        joint = b"; ";
    }
    for a in paper.book.negatives(r) {
        line.text(joint);
        put_left(paper, AtomNo(*a), false, line);
        joint = b"; ";
    }
}

// Why a rule goes off, where a negative atom holds: the first that does.
pub fn put_blocked(paper: &Paper, r: RuleNo, on: &Bits, line: &mut Line)
    requires { r.0 < paper.now.book.shape.rules }
{
    let mut atoms = paper.book.negatives(r).iter().map(|a| AtomNo(*a));
    if let Some(a) = atoms.find(|a| is_head(&paper.book, *a, on)) {
        put_held(paper, a, on, line);
    }
}

// Why a rule goes off, where a positive atom is left without a rule: the first that is. Gives whether
// there is one. `gone` has the rules that are off and those that a step lists.
pub fn put_starved(paper: &Paper, r: RuleNo, gone: &Bits, is_listing: bool, line: &mut Line) -> bool
    requires { r.0 < paper.now.book.shape.rules }
{
    let mut atoms = paper.book.positives(r).iter().map(|a| AtomNo(*a));
    let Some(a) = atoms.find(|a| is_lost(&paper.book, *a, gone)) else {
        return false;
    };
    put_left(paper, a, is_listing, line);
    true
}
