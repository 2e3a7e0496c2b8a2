// The words of a text and the ends of its lines.
ghost use Rattle.std.specs.Prelude.{◌≡◌, ◌≤◌, length};
ghost use Rattle.words.specs.Words.{blank, parting, start_of, end_of, token_at};

#[derive(Clone, Copy)]
pub enum Token {
    // A word, from its first byte to its end.
    Word(usize, usize),
    // The end of a line: the place of its last byte.
    Line(usize),
    // The end of the text, which ends its last line.
    End,
}

// Spaces, tabs and the byte that some editors write before a line's end part words.
#[tactic(auto, unfolding(crate::specs::Words::blank, meaning::specs::Choice::if_eq, meaning::specs::Choice::ifb))]
fn is_blank(x: u8) -> bool
    ensures { result ≡ blank x }
{
    matches!(x, b' ' | b'\t' | b'\r')
}

// The byte does not belong to a word.
#[tactic(auto, unfolding(crate::specs::Words::parting, meaning::specs::Choice::ifb))]
fn is_parting(x: u8) -> bool
    ensures { result ≡ parting x }
{
    is_blank(x) || x == b'\n'
}

// Where the next word or line's end is, from `at` on; the length where there is none.
fn start_of(text: &[u8], at: usize) -> usize
    requires { at ≤ length text.now }
    ensures { (result ≡ start_of text.now at) × (result ≤ length text.now) }
{
    let rest = &text[at..];
    at + rest
        .iter()
        .position(|x| !is_blank(*x))
        .unwrap_or(rest.len())
}

// Where the word that starts there ends.
fn end_of(text: &[u8], start: usize) -> usize
    requires { start ≤ length text.now }
    ensures { (result ≡ end_of text.now start) × (result ≤ length text.now) }
{
    let rest = &text[start..];
    start
        + rest
            .iter()
            .position(|x| is_parting(*x))
            .unwrap_or(rest.len())
}

// The next word or line's end, from `at` on.
pub fn next_token(text: &[u8], at: usize) -> Token
    requires { at ≤ length text.now }
    ensures { result ≡ token_at text.now at }
{
    let start = start_of(text, at);
    if text.len() <= start {
        return Token::End;
    }
    if text[start] == b'\n' {
        return Token::Line(start);
    }
    Token::Word(start, end_of(text, start))
}
