// Why a text is refused, for people: number, place, line and column, the word that stands there, and
// what is wrong with it.
use crate::place::{is_listing, word_at};
use talk::{Line, print};
use words::{Unworded, column_of, line_of};

// Writes the line of a refusal: number and place, with whose place it is where that must be said, line
// and column, the word that stands there, and what is wrong with it.
fn explain_word(rt: &impl Print, number: u8, text: &[u8], place: usize, whose: &[u8], why: &[u8]) {
    let mut room = [0u8; 512];
    let mut line = Line::new(&mut room);
    line.text(b"refused ");
    line.number(number as u64);
    line.text(b" at ");
    line.number(place as u64);
    line.text(whose);
    line.text(b": line ");
    line.number(line_of(text, place) as u64);
    line.text(b", column ");
    line.number(column_of(text, place) as u64);
    line.text(b": ");
    line.name(word_at(text, place));
    line.text(why);
    line.text(b"\n");
    line.print(rt);
}

// What is wrong with a word that cannot stand there, or that is missing.
fn explain_form(rt: &impl Print, text: &[u8], place: usize, whose: &[u8]) {
    let why = if word_at(text, place).is_empty() {
        b"a word is missing".as_slice()
    } else {
        b" cannot stand here".as_slice()
    };
    explain_word(rt, 40, text, place, whose, why);
}

// What is wrong with a name: it is listed twice, or not at all.
fn explain_name(rt: &impl Print, text: &[u8], place: usize, whose: &[u8]) {
    let why = if is_listing(text, place) {
        b" is listed twice".as_slice()
    } else {
        b" is not in the list of atoms".as_slice()
    };
    explain_word(rt, 41, text, place, whose, why);
}

// Writes why the text is refused, in one line. `whose` says which book it is, where there are two.
pub fn explain_words(rt: &impl Print, text: &[u8], why: Unworded, whose: &[u8]) {
    let many = b" is one too many: up to 255 names, 255 rules, and 16 atoms of each kind in a rule";
    match why {
        Unworded::Form(place) => explain_form(rt, text, place, whose),
        Unworded::Name(place) => explain_name(rt, text, place, whose),
        Unworded::TooMany(place) => explain_word(rt, 42, text, place, whose, many),
        Unworded::NoRoom => print(rt, b"refused 43: the buffer is shorter than the book\n"),
    }
}
