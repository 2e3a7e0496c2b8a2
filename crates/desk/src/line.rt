// One line: a command and its words, which are parted by one space.
use crate::buffers::Buffers;
use crate::find::{Way, answer_find};
use crate::levelsk::answer_levels;
use crate::paper_check::answer_check;
use crate::paper_name::{answer_contradict, answer_name};
use crate::readings::answer_readings;
use crate::settled::answer_settled;
use crate::solver_text::{answer_aspif, answer_unaspif};
use crate::some_shown::answer_shown;
use crate::table::answer_table;
use crate::text_import::answer_lparse;
use crate::two_books::{answer_join, answer_log};
use crate::words_text::answer_words;
use meaning::Kind;
use talk::{Line, first_word, other_words, print};

// Puts the answer to a command about one book at the end of out; none where the command is none of
// these or its words are not right.
fn answer_of_book(
    command: &[u8],
    words: &[u8],
    book: &mut [u8],
    room: &mut [u8],
    out: &mut Line,
) -> Option<()> {
    match command {
        b"find" => answer_find(words, Way::Fixed, book, room, out),
        b"nomore" => answer_find(words, Way::Nomore, book, room, out),
        b"name" => answer_name(words, Kind::Naming, book, room, out),
        b"clear" => answer_name(words, Kind::Clearing, book, room, out),
        b"contradict" => answer_contradict(words, book, room, out),
        b"check" => answer_check(words, book, room, out),
        b"levels" => answer_settled(words, book, room, out),
        b"levelsk" => answer_levels(words, book, room, out),
        _ => None,
    }
}

// Puts the answer to the line at the end of out, where it is a command of one answer; none where it is
// none. What is no book alone, another book, a text or a list, is read into the other buffer.
fn answer_command(
    line: &[u8],
    book: &mut [u8],
    other: &mut [u8],
    room: &mut [u8],
    out: &mut Line,
) -> Option<()> {
    let command = first_word(line);
    let words = other_words(line);
    match command {
        b"join" => answer_join(words, book, other, room, out),
        b"log" => answer_log(words, book, other, room, out),
        b"lparse" => answer_lparse(words, other, room, out),
        b"aspif" => answer_aspif(words, book, room, out),
        b"unaspif" => answer_unaspif(words, other, room, out),
        b"words" => answer_words(words, other, room, out),
        b"shown" => answer_shown(words, book, other, room, out),
        _ => answer_of_book(command, words, book, room, out),
    }
}

// Writes the answer to the line at once, or `bad line`.
fn answer_at_once(rt: &impl Print, line: &[u8], buffers: &mut Buffers) {
    let mut out = Line::new(buffers.out);
    match answer_command(line, buffers.book, buffers.other, buffers.room, &mut out) {
        Some(()) => {
            out.text(b"\n");
            out.print(rt);
        }
        None => print(rt, b"bad line\n"),
    }
}

// Writes the answer to the line: at once, but for `readings` and `table`, which go in pieces.
pub fn answer_line(rt: &impl Print, line: &[u8], buffers: &mut Buffers) {
    match first_word(line) {
        b"readings" => answer_readings(rt, other_words(line), buffers.book),
        b"table" => answer_table(rt, line, buffers.book),
        _ => answer_at_once(rt, line, buffers),
    }
}
