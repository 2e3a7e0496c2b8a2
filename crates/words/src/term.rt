// What a word is, by its bytes alone.
ghost use Rattle.std.specs.Prelude.{◌≡◌};
ghost use Rattle.meaning.specs.Sets.{every};
ghost use Rattle.words.specs.Names.{same_bytes};
ghost use Rattle.words.specs.Terms.{in_range, name_byte, spelled, plain_term, term_of};

#[derive(Clone, Copy)]
pub enum Term {
    If,
    And,
    Not,
    Unless,
    Or,
    // `atoms:`
    Atoms,
    // A word that starts with `#`.
    Remark,
    Name,
    // None of these.
    Other,
}

// A letter, a digit, or one of the three signs that a name may have.
#[tactic(auto, unfolding(crate::specs::Terms::name_byte, crate::specs::Terms::in_range, meaning::specs::Choice::ifb, meaning::specs::Choice::if_lt, meaning::specs::Choice::if_eq))]
fn is_name_byte(x: u8) -> bool
    ensures { result ≡ name_byte x }
{
    matches!(x, b'a'..=b'z' | b'A'..=b'Z' | b'0'..=b'9' | b'_' | b'-' | b'\'')
}

fn are_name_bytes(word: &[u8]) -> bool
    ensures { result ≡ every name_byte word.now }
{
    word.iter().all(|x| is_name_byte(*x))
}

// 1 to 64 bytes of a name, no digit first.
#[tactic(auto, unfolding(crate::specs::Terms::spelled, crate::specs::Terms::in_range, meaning::specs::Choice::ifb, meaning::specs::Choice::if_lt, meaning::specs::Choice::if_eq))]
fn is_spelled(word: &[u8]) -> bool
    ensures { result ≡ spelled word.now }
{
    0 < word.len() && word.len() <= 64 && !word[0].is_ascii_digit() && are_name_bytes(word)
}

// The word has these bytes.
pub fn is_same<'a>(word: &'a [u8], other: &'a [u8]) -> bool
    ensures { result ≡ same_bytes word.now other.now }
{
    word == other
}

// A word with no meaning of its own.
#[tactic(auto, unfolding(crate::specs::Terms::plain_term, meaning::specs::Choice::ifb, meaning::specs::Choice::if_eq))]
fn plain_term(word: &[u8]) -> Term
    ensures { result ≡ plain_term word.now }
{
    match word {
        [b'#', ..] => Term::Remark,
        _ if is_spelled(word) => Term::Name,
        _ => Term::Other,
    }
}

#[tactic(auto, unfolding(crate::specs::Terms::term_of, meaning::specs::Choice::ifb))]
pub fn term_of(word: &[u8]) -> Term
    ensures { result ≡ term_of word.now }
{
    if is_same(word, b"if") {
        return Term::If;
    }
    if is_same(word, b"and") {
        return Term::And;
    }
    if is_same(word, b"not") {
        return Term::Not;
    }
    if is_same(word, b"unless") {
        return Term::Unless;
    }
    if is_same(word, b"or") {
        return Term::Or;
    }
    if is_same(word, b"atoms:") {
        return Term::Atoms;
    }
    plain_term(word)
}
