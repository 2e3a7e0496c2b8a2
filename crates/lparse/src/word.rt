// The words of a text.
ghost use Rattle.std.specs.Prelude.{◌≡◌, ◌≤◌, length};
ghost use Rattle.lparse.specs.Words.{parting, ends, turned, start_of, end_of};

// How the byte before left a word: outside quotes, inside them, or behind a backslash there.
#[derive(Clone, Copy)]
pub enum Quote {
    Outside,
    Inside,
    Behind,
}

// Spaces and line ends part words.
#[tactic(auto, unfolding(crate::specs::Words::parting, meaning::specs::Choice::ifb, meaning::specs::Choice::if_eq))]
fn parts(x: u8) -> bool
    ensures { result ≡ parting x }
{
    x == b'\n' || x == b' '
}

// The byte does not belong to the word any more: a line end, or a space outside quotes.
#[tactic(auto, unfolding(crate::specs::Words::ends, crate::specs::Words::outside, meaning::specs::Choice::ifb, meaning::specs::Choice::if_eq))]
fn ends_word(q: Quote, x: u8) -> bool
    ensures { result ≡ ends q x }
{
    x == b'\n' || x == b' ' && matches!(q, Quote::Outside)
}

// What the byte, which belongs to the word, leaves behind.
#[tactic(auto, unfolding(crate::specs::Words::turned, meaning::specs::Choice::ifb, meaning::specs::Choice::if_eq))]
fn turn(q: Quote, x: u8) -> Quote
    ensures { result ≡ turned q x }
{
    match (q, x) {
        (Quote::Outside, b'"') => Quote::Inside,
        (Quote::Inside, b'"') => Quote::Outside,
        (Quote::Inside, b'\\') => Quote::Behind,
        (Quote::Behind, _) => Quote::Inside,
        _ => q,
    }
}

// Where the next word starts, from `at` on; the length where there is none.
pub fn word_start(text: &[u8], at: usize) -> usize
    requires { at ≤ length text.now }
    ensures { (result ≡ start_of text.now at) × (result ≤ length text.now) }
{
    let rest = &text[at..];
    at + rest.iter().position(|x| !parts(*x)).unwrap_or(rest.len())
}

// Where the word that starts there ends.
pub fn word_end(text: &[u8], start: usize) -> usize
    requires { start ≤ length text.now }
    ensures { (result ≡ end_of text.now start) × (result ≤ length text.now) }
{
    let mut q = Quote::Outside;
    for i in start..text.len() {
        let x = text[i];
        if ends_word(q, x) {
            return i;
        }
        q = turn(q, x);
    }
    text.len()
}
