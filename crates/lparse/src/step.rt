// One word of a text is taken where something is due.
ghost use Rattle.std.specs.Prelude.{◌≡◌, ◌≤◌, length};
ghost use Rattle.lparse.specs.Reading.{signed, on_sign, on_digits, move_of, at_end, step_of, step_at};

use crate::due::{Due, Misplaced, Role, Said, Standing, on_number};
use crate::word::{word_end, word_start};
use decimal::read_digits;

// A word that was taken.
#[derive(Clone, Copy)]
pub struct Taken {
    // What is due behind it.
    pub next: Due,
    pub said: Said,
    // Its first byte, and its end.
    pub from: usize,
    pub end: usize,
}

// Why no word was taken.
#[derive(Clone, Copy)]
pub enum Unread {
    // The first byte of a word that cannot stand there, or the length where a word is missing.
    Format(usize),
    // The first byte of a rule type that is not read.
    Kind(usize),
}

// The word is B and that sign.
#[tactic(auto, unfolding(crate::specs::Reading::signed, meaning::specs::Choice::ifb, meaning::specs::Choice::if_eq))]
fn is_signed(word: &[u8], sign: u8) -> bool
    ensures { result ≡ signed word.now sign }
{
    word.len() == 2 && word[0] == b'B' && word[1] == sign
}

// The word is due as B+ or B-, and this role behind it.
#[tactic(auto, unfolding(crate::specs::Reading::on_sign, meaning::specs::Choice::ifb))]
fn on_sign(word: &[u8], sign: u8, next: Role) -> Result<(Due, Said), Misplaced>
    ensures { result ≡ on_sign word.now sign next }
{
    if is_signed(word, sign) {
        return Ok((Due::Number(next), Said::Nothing));
    }
    Err(Misplaced::Format)
}

// The word is due as a number.
#[tactic(auto, unfolding(crate::specs::Reading::on_value))]
fn on_digits(word: &[u8], role: Role) -> Result<(Due, Said), Misplaced>
    ensures { result ≡ on_digits role word.now }
{
    match read_digits(word, 4294967295) {
        Some(n) => on_number(role, n as u32),
        None => Err(Misplaced::Format),
    }
}

// What a word does where something is due.
#[tactic(auto, unfolding(crate::specs::Reading::move_of))]
fn on_word(word: &[u8], due: Due) -> Result<(Due, Said), Misplaced>
    ensures { result ≡ move_of due word.now }
{
    match due {
        Due::Number(role) => on_digits(word, role),
        Due::Name(a) => Ok((Due::Number(Role::Table), Said::Atom(a, Standing::Table))),
        Due::PlusWord => on_sign(word, b'+', Role::Plus),
        Due::MinusWord => on_sign(word, b'-', Role::Minus),
        Due::End => Err(Misplaced::Format),
    }
}

// What is found where there is no word: only at the end nothing is missing.
#[tactic(auto, unfolding(crate::specs::Reading::at_end, crate::specs::Reading::whole, meaning::specs::Choice::ifb))]
fn at_end(due: Due, length: usize) -> Result<Option<Taken>, Unread>
    ensures { result ≡ at_end due length }
{
    match due {
        Due::End => Ok(None),
        _ => Err(Unread::Format(length)),
    }
}

// What the move of a word says in all, with the word's first byte and its end.
#[tactic(auto, unfolding(crate::specs::Reading::step_of))]
fn stepped(
    m: Result<(Due, Said), Misplaced>,
    from: usize,
    end: usize,
) -> Result<Option<Taken>, Unread>
    ensures { result ≡ step_of m from end }
{
    match m {
        Ok((next, said)) => Ok(Some(Taken {
            next,
            said,
            from,
            end,
        })),
        Err(Misplaced::Format) => Err(Unread::Format(from)),
        Err(Misplaced::Kind) => Err(Unread::Kind(from)),
    }
}

// The next word of the text, from `at` on; none where the text is at its end, and may be.
pub fn take_word(text: &[u8], at: usize, due: Due) -> Result<Option<Taken>, Unread>
    requires { at ≤ length text.now }
    ensures { result ≡ step_at text.now at due }
{
    let start = word_start(text, at);
    if start == text.len() {
        return at_end(due, start);
    }
    let end = word_end(text, start);
    stepped(on_word(&text[start..end], due), start, end)
}
