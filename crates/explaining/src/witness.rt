// The witness of a paper, told where it is right: its reading, each listed rule with those listed
// before it, and why each other rule fails. The listed rules are on, all others off, so that the
// reasons are those of steps.
ghost use Rattle.std.specs.Prelude.{◌+◌, ◌<◌, length};
ghost use Rattle.book.specs.Tables.{Below};

use crate::lines::{LINE_ROOM, end_line, put_about, put_start};
use crate::paper::Paper;
use crate::reasons::{put_blocked, put_starved};
use crate::tell::tell_on;
use checker::{check_witness, with_rules};
use meaning::{Bits, Claim, Colouring, RuleNo};
use talk::{Line, put_subject};

// The atoms that the table has, each behind a comma where it is not the first, or that there is none.
fn put_members(names: &[u8], headed: &[bool], line: &mut Line) {
    if !headed.contains(&true) {
        line.text(b"no atom");
    }
    let mut joint: &[u8] = b"";
    for (a, is_member) in (0..255u8).zip(headed) {
        if *is_member {
            line.text(joint);
            put_subject(names, a, line);
            joint = b", ";
        }
    }
}

// The reading: the heads of the listed rules. The line has room for 255 names.
fn tell_reading(rt: &impl Print, paper: &Paper, on: &Bits) {
    let mut headed = [false; Colouring::ATOMS];
    paper.book.heads_of(on, &mut headed);
    let atoms = paper.book.shape.atoms as usize;
    let mut room = [0u8; 73728];
    let mut line = Line::new(&mut room);
    put_start(0, paper.trailer.from, &mut line);
    line.text(b"the witness: a reading with ");
    put_members(paper.names, &headed[..atoms], &mut line);
    end_line(rt, &mut line);
}

// Each listed rule, with the rules listed before it on. The list starts at byte `from`.
fn tell_listed(rt: &impl Print, paper: &Paper, from: usize, list: &[u8])
    requires { Below paper.now.book.shape.rules list.now
        × (from + length list.now < 65536) }
{
    let mut before = Bits::EMPTY;
    for (i, r) in list.iter().enumerate() {
        tell_on(rt, paper, 0, from + i, RuleNo(*r), &before);
        before.put(*r);
    }
}

// A rule that is not listed, and why it fails.
fn tell_other<'a>(rt: &impl Print, paper: &Paper, at: usize, r: RuleNo, on: &'a Bits, off: &'a Bits)
    requires { r.0 < paper.now.book.shape.rules }
{
    let mut room = [0u8; LINE_ROOM];
    let mut line = Line::new(&mut room);
    put_about(paper, 0, at, r, b" off: ", &mut line);
    line.text(b": ");
    if !put_starved(paper, r, off, false, &mut line) {
        put_blocked(paper, r, on, &mut line);
    }
    end_line(rt, &mut line);
}

// Every rule that is not listed.
fn tell_others<'a>(rt: &impl Print, paper: &Paper, at: usize, on: &'a Bits, off: &'a Bits) {
    for r in 0..paper.book.shape.rules {
        if !on.has(r) {
            tell_other(rt, paper, at, RuleNo(r), on, off);
        }
    }
}

// The witness that lists these rules from byte `from` on.
fn tell_witness(rt: &impl Print, paper: &Paper, from: usize, list: &[u8])
    requires { Below paper.now.book.shape.rules list.now
        × (from + length list.now < 65536) }
{
    let on = with_rules(Bits::empty(), list);
    let off = Bits::below(paper.book.shape.rules).difference(on);
    tell_reading(rt, paper, &on);
    tell_listed(rt, paper, from, list);
    tell_others(rt, paper, from + list.len(), &on, &off);
}

// The witness of a claim about an atom, where the checker finds it right.
fn explain_witness(rt: &impl Print, paper: &Paper) {
    let from = paper.trailer.from;
    let end = from + paper.trailer.count;
    if let Ok(()) = check_witness(&paper.book, paper.bytes, paper.trailer) {
        tell_witness(rt, paper, from, &paper.bytes[from..end]);
    }
}

// What stands behind the steps: a witness; nothing where the claim is that there is no reading.
pub fn explain_grounds(rt: &impl Print, paper: &Paper) {
    if let Claim::About(_, _) = paper.trailer.claim {
        explain_witness(rt, paper);
    }
}
