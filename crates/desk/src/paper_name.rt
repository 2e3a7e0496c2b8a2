// `name ATOM L ROOM BOOK` and `clear ATOM L ROOM BOOK`: the paper that names or clears the atom, each
// of its two walks within L tries, in a buffer of ROOM bytes. Answers `paper TRIES LENGTH PAPER`,
// `fewer TRIES 0 RULE`, `limit L` or `refused NUMBER [PLACE]`.
// `contradict L ROOM BOOK`: the paper that the book has no reading; it never answers `fewer`.
use crate::call::read_call;
use crate::fewer::put_fewer;
use crate::given::read_given;
use crate::numbers::{put_limit, put_two};
use meaning::{AtomNo, Claim, Kind};
use talk::{Line, Refused, first_bytes, first_word, other_words, put_refused, read_number};
use writer::{Unwritten, write_claim};

// Asks the engine, and puts what it answers.
fn tell_named(book: &[u8], claim: Claim, limit: u32, paper: &mut [u8], out: &mut Line) {
    match write_claim(book, claim, limit, paper) {
        Ok((tries, length)) => {
            put_two(b"paper ", tries as u64, length as u64, out);
            out.text(b" ");
            out.bytes(first_bytes(paper, length));
        }
        Err(Unwritten::Fewer(tries, rule)) => put_fewer(tries, 0, rule, out),
        Err(Unwritten::Stopped(tries)) => put_limit(tries, out),
        Err(why) => put_refused(Refused::from(why), out),
    }
}

// Answers the command; none where its words are not right.
pub fn answer_name(
    words: &[u8],
    kind: Kind,
    book: &mut [u8],
    room: &mut [u8],
    out: &mut Line,
) -> Option<()> {
    let call = read_call(words, book, room)?;
    let numbers = call.numbers;
    let atom = AtomNo(u8::try_from(numbers.first).ok()?);
    let claim = Claim::About(kind, atom);
    let paper = &mut room[..numbers.size];
    tell_named(&book[..call.count], claim, numbers.limit, paper, out);
    Some(())
}

// The same of `contradict`, which has no atom.
pub fn answer_contradict(
    words: &[u8],
    book: &mut [u8],
    room: &mut [u8],
    out: &mut Line,
) -> Option<()> {
    let limit = read_number(first_word(words))?;
    let given = read_given(other_words(words), book, room)?;
    let paper = &mut room[..given.size];
    tell_named(&book[..given.count], Claim::NoReading, limit, paper, out);
    Some(())
}
