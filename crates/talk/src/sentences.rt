// Refusals for people: the number, the place, and what is wrong in a sentence, in one line. The
// sentences stand in one table, by number.
use crate::hints::{put_hint_of_book, put_hint_of_paper};
use crate::line::Line;
use crate::refusals::Refused;
use book::Refusal;
use meaning::Kind;

// Text, a number and more text.
fn put_about(text: &[u8], n: u64, more: &[u8], line: &mut Line) {
    line.text(text);
    line.number(n);
    line.text(more);
}

// That there is no reading, in a call for a paper of this kind, and the rule that clashed last.
fn put_no_reading(kind: Kind, rule: u64, line: &mut Line) {
    let so = match kind {
        Kind::Naming => b"the book has no reading: nothing is certain; rule ".as_slice(),
        Kind::Clearing => b"the book has no reading: nobody is cleared; rule ".as_slice(),
    };
    put_about(so, rule, b" clashed last", line);
}

// What is wrong with a text that a grounder wrote, or one for other solvers: 30 to 35.
fn put_text_sentence(number: u8, line: &mut Line) {
    let size = b"the book would have over 255 atoms, over 255 rules or over 16 atoms in a part";
    match number {
        30 => line.text(b"the text is not in Lparse's format"),
        31 => line.text(b"a rule of a type that is not read"),
        34 => line.text(b"the text is not one that exporting writes"),
        32 | 35 => line.text(size),
        _ => {}
    }
}

// What is wrong with a paper, or with the call for one of this kind: 9 to 27, and 38. `about` is the atom,
// the rule or the number of tries that the sentence speaks of.
fn put_paper_sentence(number: u8, kind: Kind, about: u64, line: &mut Line) {
    let nothing = b" tries: this says nothing about anyone";
    let long = b"the paper has over 60,000 bytes: this says nothing about anyone";
    let mark = b"the paper's last two bytes are none of 50 46, 50 43 and 50 4e";
    let form = b"the step is malformed, or it passes into the witness";
    let gap = b"bytes stand between the last step and the witness";
    let reading = b"the book has a reading: it does not contradict itself";
    match number {
        9 => put_about(b"stopped after ", about, nothing, line),
        11 => put_no_reading(kind, about, line),
        12 => put_about(b"a reading lacks atom ", about, b": nobody is named", line),
        13 => put_about(b"the book has no atom ", about, b"", line),
        14 => line.text(long),
        18 => put_about(
            b"a reading holds atom ",
            about,
            b": nobody is cleared",
            line,
        ),
        20 => line.text(b"the paper has under 6 or over 60,000 bytes"),
        21 => line.text(mark),
        22 => line.text(b"the paper's witness does not end at its trailer"),
        23 => line.text(b"the book has no such atom as the paper claims"),
        24 => line.text(form),
        25 => line.text(b"the step's condition does not hold"),
        26 => line.text(gap),
        27 => line.text(b"the witness is wrong"),
        38 => line.text(reading),
        _ => put_text_sentence(number, line),
    }
}

// What is wrong, by number.
fn put_sentence(number: u8, kind: Kind, about: u64, line: &mut Line) {
    match number {
        1 => line.text(b"the book has under 6 or over 9,441 bytes"),
        2 => line.text(b"the book's last two bytes are not 52 42"),
        3 => line.text(b"the book's index does not end at its trailer"),
        4 => line.text(b"the rules do not follow each other up to the index"),
        5 => line.text(b"a rule is cut short or has over 16 atoms in a part"),
        6 => line.text(b"an atom is not below the book's atom count"),
        7 => line.text(b"the atoms of a part do not ascend"),
        17 => line.text(b"over 255 atoms or rules together"),
        19 => line.text(b"the buffer is shorter than the joined book"),
        _ => put_paper_sentence(number, kind, about, line),
    }
}

// The number, and the place behind the word where there is one.
fn put_number_and_place(refused: Refused, word: &[u8], line: &mut Line) {
    line.text(b"refused ");
    line.number(refused.number as u64);
    if let Some(place) = refused.place {
        line.text(word);
        line.number(place as u64);
    }
}

// `refused NUMBER PLACE`, or `refused NUMBER` where there is no place: as software is told.
pub fn put_refused(refused: Refused, line: &mut Line) {
    put_number_and_place(refused, b" ", line);
}

// `refused NUMBER at PLACE: SENTENCE`, or `refused NUMBER: SENTENCE` where there is no place. Before
// the colon stands whose it is, where that must be said.
fn put_explained(refused: Refused, whose: &[u8], kind: Kind, about: u64, line: &mut Line) {
    put_number_and_place(refused, b" at ", line);
    line.text(whose);
    line.text(b": ");
    put_sentence(refused.number, kind, about, line);
}

// Writes the line of a refusal of a call for a paper of this kind. `about` is the atom, the rule or
// the number of tries that the sentence speaks of.
pub fn explain(rt: &impl Print, refused: Refused, kind: Kind, about: u64) {
    let mut room = [0u8; 256];
    let mut line = Line::new(&mut room);
    put_explained(refused, b"", kind, about, &mut line);
    line.text(b"\n");
    line.print(rt);
}

// Writes why the bytes are no book, with a hint where they look like something else. `whose` says
// which book it is, behind the place, where there are two.
pub fn explain_book_of(rt: &impl Print, why: Refusal, whose: &[u8], book: &[u8]) {
    let mut room = [0u8; 256];
    let mut line = Line::new(&mut room);
    put_explained(Refused::from(why), whose, Kind::Naming, 0, &mut line);
    put_hint_of_book(book, &mut line);
    line.text(b"\n");
    line.print(rt);
}

// The same of the one book that there is.
pub fn explain_book(rt: &impl Print, why: Refusal, book: &[u8]) {
    explain_book_of(rt, why, b"", book);
}

// Writes why a text that a grounder wrote is refused, which speaks of no claim. `whose` says of which
// book it is the text, where there are two.
pub fn explain_text_of(rt: &impl Print, refused: Refused, whose: &[u8]) {
    let mut room = [0u8; 256];
    let mut line = Line::new(&mut room);
    put_explained(refused, whose, Kind::Naming, 0, &mut line);
    line.text(b"\n");
    line.print(rt);
}

// Writes why the paper is refused, with a hint where its bytes look like something else.
pub fn explain_paper(rt: &impl Print, refused: Refused, paper: &[u8]) {
    let mut room = [0u8; 256];
    let mut line = Line::new(&mut room);
    put_explained(refused, b"", Kind::Naming, 0, &mut line);
    put_hint_of_paper(paper, &mut line);
    line.text(b"\n");
    line.print(rt);
}
