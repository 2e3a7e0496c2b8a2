// One word, or one line's end, is taken.
ghost use Rattle.std.specs.Prelude.{◌≡◌, true, ◌≤◌, ◌<◌, length};
ghost use Rattle.book.specs.Making.{Adds};
ghost use Rattle.words.specs.declared.step.Fate.TheVariants.{Goes};
ghost use Rattle.words.specs.Progress.{
  known_by,
  weighed,
  acted,
  halted,
  worded,
  closed_by,
  lined_by,
  Lined,
  goes_on,
  Able,
  Along,
};

use crate::decision::{Act, Misplaced, decide};
use crate::due::{Due, Ended, end_line, move_of};
use crate::known::{Known, note, number_of};
use crate::opened::{Open, place};
use crate::term::term_of;
use crate::token::{Token, next_token};
use book::{BOOK_BYTES, Making, add_rule};

// How reading stands: it goes on, it is done, or it was refused at a place.
#[derive(Clone, Copy)]
pub enum Fate {
    Goes,
    Done,
    Refused(Misplaced, usize),
}

// How far a text was read, and what it said so far.
#[derive(Clone, Copy)]
pub struct Reading {
    pub fate: Fate,
    pub at: usize,
    pub due: Due,
    pub fixed: bool,
    pub names: Known,
    pub rule: Open,
    pub making: Making,
}

// Reading is not over.
#[tactic(auto, unfolding(crate::specs::Progress::goes_on))]
pub fn goes_on(fate: Fate) -> bool
    ensures { result ≡ goes_on fate }
{
    matches!(fate, Fate::Goes)
}

// Whether the word may stand there.
fn weigh<'a>(text: &'a [u8], word: &'a [u8], r: Reading) -> Result<(Due, Act), Misplaced>
    requires { r.names.count ≤ 255 }
    ensures { result ≡ weighed text.now word.now r }
{
    let names = r.names;
    let a = number_of(text, names.count, &names.from, &names.to, word);
    let m = move_of(r.due, term_of(word));
    decide(m, r.rule, r.fixed, r.making.rules, names.count, a)
}

// The names with the name of number a, which may be new.
#[tactic(auto, unfolding(crate::specs::Progress::known_by, meaning::specs::Choice::ifb, meaning::specs::Choice::if_lt))]
fn know(names: Known, a: usize, from: usize, to: usize) -> Known
    requires { a < 255 }
    ensures { result ≡ known_by names a from to }
{
    if a < names.count {
        names
    } else {
        note(names, from, to)
    }
}

// What is done with a word that may stand there.
#[tactic(auto, unfolding(crate::specs::Progress::acted))]
fn take(r: Reading, due: Due, act: Act, from: usize, to: usize) -> Reading
    requires { Able r.names.count act }
    ensures { result ≡ acted r due act from to }
{
    let on = Reading {
        fate: Fate::Goes,
        at: to,
        due,
        ..r
    };
    match act {
        Act::Nothing => on,
        Act::Fix => Reading { fixed: true, ..on },
        Act::Note => Reading {
            names: note(r.names, from, to),
            ..on
        },
        Act::Stand(standing, a) => Reading {
            names: know(r.names, a, from, to),
            rule: place(r.rule, standing, a),
            ..on
        },
    }
}

// Reading is over.
fn stop(r: Reading, fate: Fate) -> Reading
    ensures { result ≡ halted r fate }
{
    Reading { fate, ..r }
}

// The word from one place to the other.
fn take_word(text: &[u8], r: Reading, from: usize, to: usize) -> Reading
    requires { (from ≤ to) × (to ≤ length text.now) × (r.names.count ≤ 255) }
    ensures { result ≡ worded text.now r from to }
{
    match weigh(text, &text[from..to], r) {
        Ok((due, act)) => take(r, due, act, from, to),
        Err(why) => stop(r, Fate::Refused(why, from)),
    }
}

// The rule that a line's end closes is made.
fn close_rule(draft: &mut [u8; BOOK_BYTES], ended: Ended, m: Making, rule: Open) -> Making
    ensures { Adds (closed_by ended rule) m draft.old result draft.new }
{
    match ended {
        Ended::Nothing => m,
        Ended::Rule => add_rule(draft, m, rule.head, &rule.pos, &rule.neg),
        Ended::Missing => m,
    }
}

// The next line, unless a word is missing.
#[tactic(auto, unfolding(crate::specs::Progress::lined_by))]
fn pass_line(
    ended: Ended,
    r: Reading,
    place: usize,
    at: usize,
    fate: Fate,
    making: Making,
) -> Reading
    ensures { result ≡ lined_by ended r place at fate making }
{
    match ended {
        Ended::Nothing | Ended::Rule => Reading {
            fate,
            at,
            due: Due::Line,
            making,
            ..r
        },
        Ended::Missing => stop(r, Fate::Refused(Misplaced::Form, place)),
    }
}

// A line's end at that place; the next line starts at `at`.
fn take_line(
    draft: &mut [u8; BOOK_BYTES],
    r: Reading,
    place: usize,
    at: usize,
    fate: Fate,
) -> Reading
    ensures { Lined r place at fate draft.old result draft.new }
{
    let ended = end_line(r.due);
    let m = close_rule(draft, ended, r.making, r.rule);
    pass_line(ended, r, place, at, fate, m)
}

// The next word or line's end of the text.
pub fn step(text: &[u8], draft: &mut [u8; BOOK_BYTES], r: Reading) -> Reading
    requires { Along text.now r draft.old × (r.fate ≡ Goes) }
    ensures { Along text.now result draft.new
        × (goes_on result.fate ≡ true → r.at < result.at) }
{
    let at = r.at;
    let length = text.len();
    match next_token(text, at) {
        Token::Word(from, to) => take_word(text, r, from, to),
        Token::Line(place) => take_line(draft, r, place, place + 1, Fate::Goes),
        Token::End => take_line(draft, r, length, length, Fate::Done),
    }
}
