// `join ROOM BOOK BOOK` and `log L1 L2 ROOM BOOK BOOK`: the two books joined in a buffer of ROOM bytes.
// `join` answers `book BOOK`; `log` searches each book within its own limit and answers `both BOOK`,
// `none-in-first BOOK`, `none-in-second BOOK` or `none-in-either BOOK` by which have a reading, or
// `limit L`. Both answer `book1 refused NUMBER PLACE`, `book2 refused NUMBER PLACE` or
// `refused NUMBER`.
ghost use Rattle.std.specs.Prelude.{IfSome};
ghost use Rattle.system.specs.Counts.{IsPrefixLen};

use crate::given::{put_made, read_size};
use crate::numbers::put_limit;
use book::Refusal;
use crews::{Logged, Unlogged, join, log};
use talk::{
    Line, Refused, first_bytes, first_word, other_words, put_refused, read_bytes, read_number,
};

// As many bytes of a second book are taken as of a first.
const LONGEST: usize = 16384;

// What the words say: ROOM, and how many bytes each book has.
#[derive(Clone, Copy)]
struct Two {
    size: usize,
    first: usize,
    second: usize,
}

// Reads ROOM and the two books, each into its buffer from byte 0 on; none where the words are not
// right.
fn read_two(words: &[u8], book: &mut [u8], other: &mut [u8], room: &[u8]) -> Option<Two>
    ensures { IfSome result (λ it. IsPrefixLen it.first book.new
        × IsPrefixLen it.second other.new × IsPrefixLen it.size room.now) }
{
    let size = read_size(words, room)?;
    let books = other_words(words);
    let first = read_bytes(first_word(books), book)?;
    let second = read_bytes(other_words(books), other)?;
    if LONGEST < second {
        return None;
    }
    Some(Two {
        size,
        first,
        second,
    })
}

// Which book is refused, and why.
fn put_whose(word: &[u8], why: Refusal, out: &mut Line) {
    out.text(word);
    put_refused(Refused::from(why), out);
}

// The joined book, which stands at the start of the room, behind which of the two have a reading.
fn put_logged(answer: Logged, room: &[u8], out: &mut Line) {
    match answer {
        Logged::Both(n) => put_made(b"both ", first_bytes(room, n), out),
        Logged::NoneInFirst(n) => put_made(b"none-in-first ", first_bytes(room, n), out),
        Logged::NoneInSecond(n) => put_made(b"none-in-second ", first_bytes(room, n), out),
        Logged::NoneInEither(n) => put_made(b"none-in-either ", first_bytes(room, n), out),
    }
}

// Why there is no log.
fn put_unlogged(why: Unlogged, out: &mut Line) {
    match why {
        Unlogged::Stopped(tries) => put_limit(tries, out),
        Unlogged::First(why) => put_whose(b"book1 ", why, out),
        Unlogged::Second(why) => put_whose(b"book2 ", why, out),
        Unlogged::TooMany => put_refused(Refused::plain(17), out),
        Unlogged::NoRoom => put_refused(Refused::plain(19), out),
    }
}

// Answers `join`; none where the command's words are not right.
pub fn answer_join(
    words: &[u8],
    book: &mut [u8],
    other: &mut [u8],
    room: &mut [u8],
    out: &mut Line,
) -> Option<()> {
    let two = read_two(words, book, other, room)?;
    let room = &mut room[..two.size];
    match join(&book[..two.first], &other[..two.second], room) {
        Ok(n) => put_made(b"book ", first_bytes(room, n), out),
        Err(why) => put_unlogged(Unlogged::from(why), out),
    }
    Some(())
}

// The same of `log`.
pub fn answer_log(
    words: &[u8],
    book: &mut [u8],
    other: &mut [u8],
    room: &mut [u8],
    out: &mut Line,
) -> Option<()> {
    let limit = read_number(first_word(words))?;
    let others = other_words(words);
    let other_limit = read_number(first_word(others))?;
    let two = read_two(other_words(others), book, other, room)?;
    let room = &mut room[..two.size];
    match log(
        &book[..two.first],
        &other[..two.second],
        limit,
        other_limit,
        room,
    ) {
        Ok(logged) => put_logged(logged, room, out),
        Err(why) => put_unlogged(why, out),
    }
    Some(())
}
