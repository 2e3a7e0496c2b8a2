// `find K L ROOM BOOK`: the K-th reading, within L tries, in a buffer of ROOM bytes. Answers
// `set TRIES a b c`, `fewer TRIES SETS RULE`, `limit L` or `refused NUMBER [PLACE]`.
// `nomore K L ROOM BOOK`: the same by the no_mo_re way of choosing, over a walk of its own.
use crate::call::read_call;
use crate::fewer::put_fewer;
use crate::numbers::put_limit;
use book::read_book;
use listing::put_set;
use talk::{Line, Refused, first_bytes, put_refused};
use walk::Unfound;

// Which walk is asked: the fixed one, or the no_mo_re way's own.
#[derive(Clone, Copy)]
pub enum Way {
    Fixed,
    Nomore,
}

// What is answered where no reading is given.
pub fn put_unfound(why: Unfound, out: &mut Line) {
    match why {
        Unfound::Fewer(tries, sets, rule) => put_fewer(tries, sets, rule, out),
        Unfound::Stopped(tries) => put_limit(tries, out),
        Unfound::Book(why) => put_refused(Refused::from(why), out),
        Unfound::NoRoom => put_refused(Refused::plain(8), out),
        Unfound::NoNumber => put_refused(Refused::plain(15), out),
        Unfound::NoList => put_refused(Refused::plain(16), out),
    }
}

// Asks the engine that goes that way.
fn ask(way: Way, book: &[u8], k: u32, limit: u32, answer: &mut [u8]) -> Result<u32, Unfound> {
    match way {
        Way::Fixed => walk::find(book, k, limit, answer),
        Way::Nomore => nomore::find(book, k, limit, answer),
    }
}

// Puts what the engine told; the answer is the buffer that it was lent, where the set of a good book
// then stands.
pub fn put_found(book: &[u8], told: Result<u32, Unfound>, answer: &[u8], out: &mut Line) {
    match told {
        Ok(tries) => {
            out.text(b"set ");
            out.number(tries as u64);
            if let Ok(shape) = read_book(book) {
                put_set(first_bytes(answer, shape.atoms as usize), out);
            }
        }
        Err(why) => put_unfound(why, out),
    }
}

// Answers the command; none where its words are not right.
pub fn answer_find(
    words: &[u8],
    way: Way,
    book: &mut [u8],
    room: &mut [u8],
    out: &mut Line,
) -> Option<()> {
    let call = read_call(words, book, room)?;
    let book = &book[..call.count];
    let numbers = call.numbers;
    let answer = &mut room[..numbers.size];
    let told = ask(way, book, numbers.first, numbers.limit, answer);
    put_found(book, told, answer, out);
    Some(())
}
