// A word and one number or two, as several answers have them.
use talk::Line;

// The word, which ends in a space, and the two numbers.
pub fn put_two(word: &[u8], first: u64, second: u64, out: &mut Line) {
    out.text(word);
    out.number(first);
    out.text(b" ");
    out.number(second);
}

// `limit L`: more than this many tries are needed.
pub fn put_limit(tries: u32, out: &mut Line) {
    out.text(b"limit ");
    out.number(tries as u64);
}
