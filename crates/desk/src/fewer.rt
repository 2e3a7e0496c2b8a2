// Number 11, as finding, naming and clearing tell it.
use crate::numbers::put_two;
use meaning::RuleNo;
use talk::Line;

// `fewer TRIES SETS RULE`: the rule of the last contradictory try, or 255.
pub fn put_fewer(tries: u32, sets: u32, rule: RuleNo, out: &mut Line) {
    put_two(b"fewer ", tries as u64, sets as u64, out);
    out.text(b" ");
    out.number(rule.0 as u64);
}
