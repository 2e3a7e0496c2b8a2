// Whether two names differ so little that one may be a slip of the pen for the other: only in case or
// in signs, or, these apart, in one letter. Digits count: `a1` and `a2` are two names.
use talk::{Line, common};

#[derive(Clone, Copy)]
pub enum Likeness {
    // The names differ by more.
    Far,
    // They differ only in case or signs.
    Signs,
    // They differ only in one letter, which is another one or is missing.
    Letter,
}

// The letters and digits of the name, in lower case.
fn put_small(name: &[u8], line: &mut Line) {
    for x in name {
        if x.is_ascii_alphanumeric() {
            line.byte(x.to_ascii_lowercase());
        }
    }
}

// Whether they differ in one letter only, of two that are equally long.
fn is_changed(one: &[u8], other: &[u8]) -> bool {
    let i = common(one, other);
    match (&one[i..], &other[i..]) {
        ([x, one @ ..], [y, other @ ..]) => {
            x.is_ascii_lowercase() && y.is_ascii_lowercase() && one == other
        }
        _ => false,
    }
}

// Whether the longer one has one letter more, and else they are the same.
fn is_missing(short: &[u8], long: &[u8]) -> bool {
    let i = common(short, long);
    match &long[i..] {
        [x, rest @ ..] => x.is_ascii_lowercase() && &short[i..] == rest,
        [] => false,
    }
}

// How much two names differ that are in lower case and without signs.
fn compare(one: &[u8], other: &[u8]) -> Likeness {
    if one == other {
        return Likeness::Signs;
    }
    if is_changed(one, other) || is_missing(one, other) || is_missing(other, one) {
        return Likeness::Letter;
    }
    Likeness::Far
}

// How much two names differ.
pub fn compare_names(one: &[u8], other: &[u8]) -> Likeness {
    let mut room = [0u8; 64];
    let mut first = Line::new(&mut room);
    let mut more = [0u8; 64];
    let mut second = Line::new(&mut more);
    put_small(one, &mut first);
    put_small(other, &mut second);
    compare(first.as_slice(), second.as_slice())
}
