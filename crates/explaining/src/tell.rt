// The lines of each step of a paper that may be made.
ghost use Rattle.std.specs.Prelude.{◌<◌};
ghost use Rattle.book.specs.Tables.{Below};

use crate::lines::{LINE_ROOM, deeper, end_line, put_about, put_numbered, put_start};
use crate::paper::Paper;
use crate::reasons::{put_blocked, put_held, put_left, put_starved, put_why_on};
use checker::{is_clashing, with_rules};
use meaning::{Bits, Claim, Kind, RuleNo};
use talk::Line;

// 41: the rule, and why it goes on.
pub fn tell_on(rt: &impl Print, paper: &Paper, depth: usize, at: usize, r: RuleNo, on: &Bits)
    requires { r.0 < paper.now.book.shape.rules }
{
    let mut room = [0u8; LINE_ROOM];
    let mut line = Line::new(&mut room);
    put_about(paper, depth, at, r, b" on: ", &mut line);
    put_why_on(paper, r, on, &mut line);
    end_line(rt, &mut line);
}

// 42: the rule, and the negative atom that holds.
pub fn tell_off(rt: &impl Print, paper: &Paper, depth: usize, at: usize, r: RuleNo, on: &Bits)
    requires { r.0 < paper.now.book.shape.rules }
{
    let mut room = [0u8; LINE_ROOM];
    let mut line = Line::new(&mut room);
    put_about(paper, depth, at, r, b" off: ", &mut line);
    line.text(b": ");
    put_blocked(paper, r, on, &mut line);
    end_line(rt, &mut line);
}

// A rule of a 55's list, and the positive atom that is left without a rule. `gone` has the rules that
// are off and those of the list.
fn tell_starved(rt: &impl Print, paper: &Paper, depth: usize, at: usize, r: RuleNo, gone: &Bits)
    requires { r.0 < paper.now.book.shape.rules }
{
    let mut room = [0u8; LINE_ROOM];
    let mut line = Line::new(&mut room);
    put_about(paper, depth, at, r, b" off: ", &mut line);
    line.text(b": ");
    put_starved(paper, r, gone, true, &mut line);
    end_line(rt, &mut line);
}

// 55: the rules of its list, which go off together, in a line for each.
pub fn tell_list(rt: &impl Print, paper: &Paper, depth: usize, at: usize, list: &[u8], off: &Bits)
    requires { Below paper.now.book.shape.rules list.now }
{
    let gone = with_rules(*off, list);
    for r in list {
        tell_starved(rt, paper, depth, at, RuleNo(*r), &gone);
    }
}

// 53: the rule; and, one level further in, that it is on first.
pub fn tell_split(rt: &impl Print, paper: &Paper, depth: usize, at: usize, r: RuleNo)
    requires { r.0 < paper.now.book.shape.rules }
{
    let mut room = [0u8; LINE_ROOM];
    let mut line = Line::new(&mut room);
    put_about(paper, depth, at, r, b" on, or off: ", &mut line);
    end_line(rt, &mut line);
    tell_case(rt, deeper(depth), at, b"first, rule ", r, b" on");
}

// The start of one of the two cases of the split at byte `at`.
fn tell_case(rt: &impl Print, depth: usize, at: usize, before: &[u8], r: RuleNo, behind: &[u8]) {
    let mut room = [0u8; 256];
    let mut line = Line::new(&mut room);
    put_start(depth, at, &mut line);
    put_numbered(before, r, behind, &mut line);
    end_line(rt, &mut line);
}

// The start of the second case.
pub fn tell_second(rt: &impl Print, depth: usize, at: usize, r: RuleNo) {
    tell_case(rt, depth, at, b"now rule ", r, b" off");
}

// Why the claim is shown: the atom holds, or is left without a rule. That there is no reading is
// shown by no colouring.
fn put_shown(paper: &Paper, on: &Bits, line: &mut Line) {
    match paper.trailer.claim {
        Claim::About(Kind::Naming, atom) => put_held(paper, atom, on, line),
        Claim::About(Kind::Clearing, atom) => put_left(paper, atom, false, line),
        Claim::NoReading => {}
    }
}

// The lowest rule that is on and off.
fn put_clash<'a>(on: &'a Bits, off: &'a Bits, line: &mut Line) {
    let both = on.intersection(*off);
    line.text(b"rule ");
    line.number(both.next_in(0) as u64);
    line.text(b" is on and off, so no reading is here");
}

// 45: why the branch ends.
pub fn tell_end<'a>(
    rt: &impl Print,
    paper: &Paper,
    depth: usize,
    at: usize,
    on: &'a Bits,
    off: &'a Bits,
) {
    let mut room = [0u8; LINE_ROOM];
    let mut line = Line::new(&mut room);
    put_start(depth, at, &mut line);
    line.text(b"end: ");
    if is_clashing(paper.book.shape.rules, on, off) {
        put_clash(on, off, &mut line);
    } else {
        put_shown(paper, on, &mut line);
    }
    end_line(rt, &mut line);
}
