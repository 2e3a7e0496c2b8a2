// `readings BOOK`: what the program `readings` prints, each line end as `|`.
use listing::list;
use talk::{print, read_bytes};

// Answers the command, or that its words are not right.
pub fn answer_readings(rt: &impl Print, words: &[u8], book: &mut [u8]) {
    let Some(n) = read_bytes(words, book) else {
        print(rt, b"bad line\n");
        return;
    };
    list(rt, &book[..n], b'|', b"");
    print(rt, b"\n");
}
