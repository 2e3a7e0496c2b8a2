// The rules that are settled before any choice, and those that wait for one.
use book::ReadBook;
use meaning::RuleNo;
use talk::{Line, print, show_rule};

// Writes a line for each rule, with a word for its colour, or that there is none. The bytes are those
// that closing's `settle` promises to write.
pub fn show_rules(rt: &impl Print, book: &ReadBook, bytes: &[u8; 510], names: &[u8]) {
    if book.shape.rules == 0 {
        print(rt, b"no rules\n");
    }
    for r in 0..book.shape.rules {
        let word: &[u8] = match bytes[r as usize] {
            0 => b" off",
            1 => b" on",
            _ => b" open",
        };
        show_rule(rt, book, RuleNo(r), word, names);
    }
}

// Writes how many rules are settled, which is so where the byte says a colour, and that this names and
// clears nobody.
pub fn show_settled(rt: &impl Print, bytes: &[u8]) {
    let settled = bytes.iter().filter(|byte| **byte < 2).count();
    let mut room = [0u8; 128];
    let mut line = Line::new(&mut room);
    line.text(b"settled ");
    line.number(settled as u64);
    line.text(b" of ");
    line.number(bytes.len() as u64);
    line.text(b" rules: nobody is named or cleared without a paper\n");
    line.print(rt);
}
