// `shown K L ROOM SHOWN BOOK`: the K-th reading where only the atoms of the list SHOWN are shown, one
// byte each. Answers as `find` does.
use crate::call::{behind_numbers, read_numbers};
use crate::find::put_found;
use talk::{Line, first_word, other_words, read_bytes};
use walk::find_shown;

// The longest list that is taken.
const LIST: usize = 4096;

// Answers the command; none where its words are not right.
pub fn answer_shown(
    words: &[u8],
    book: &mut [u8],
    other: &mut [u8],
    room: &mut [u8],
    out: &mut Line,
) -> Option<()> {
    let numbers = read_numbers(words, room)?;
    let others = behind_numbers(words);
    let m = read_bytes(first_word(others), other)?;
    if LIST < m {
        return None;
    }
    let n = read_bytes(other_words(others), book)?;
    let book = &book[..n];
    let answer = &mut room[..numbers.size];
    let told = find_shown(book, numbers.first, numbers.limit, &other[..m], answer);
    put_found(book, told, answer, out);
    Some(())
}
