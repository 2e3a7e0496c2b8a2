// How a line begins and ends: as far in as its case is deep, with the byte that it tells of.
ghost use Rattle.std.specs.Prelude.{◌<◌};

use crate::paper::Paper;
use meaning::RuleNo;
use talk::{Line, put_rule};

// Room for a rule, for a reason for each of its 32 atoms, each with a name, and for the numbers of
// 255 rules.
pub const LINE_ROOM: usize = 24576;

// No line stands further in than so many levels: a paper may have 255.
const DEEPEST: usize = 20;

// One level further in.
pub fn deeper(depth: usize) -> usize {
    if depth < DEEPEST {
        return depth + 1;
    }
    depth
}

// Four blanks for each level, the byte and a colon.
pub fn put_start(depth: usize, at: usize, line: &mut Line) {
    for _ in 0..depth {
        line.text(b"    ");
    }
    line.number(at as u64);
    line.text(b": ");
}

// The rule's number between two words.
pub fn put_numbered(before: &[u8], r: RuleNo, behind: &[u8], line: &mut Line) {
    line.text(before);
    line.number(r.0 as u64);
    line.text(behind);
}

// The start of a line about a rule: its number, what is said of it, and the rule.
pub fn put_about(paper: &Paper, depth: usize, at: usize, r: RuleNo, word: &[u8], line: &mut Line)
    requires { r.0 < paper.now.book.shape.rules }
{
    put_start(depth, at, line);
    put_numbered(b"rule ", r, word, line);
    put_rule(&paper.book, r, paper.names, line);
}

// Writes the line, with its end.
pub fn end_line(rt: &impl Print, line: &mut Line) {
    line.text(b"\n");
    line.print(rt);
}
