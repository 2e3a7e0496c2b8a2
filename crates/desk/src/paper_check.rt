// `check BOOK PAPER`: answers `certain ATOM`, `clear ATOM`, `none` or `refused NUMBER PLACE`.
use checker::check;
use meaning::{Claim, Kind};
use talk::{Line, Refused, first_word, other_words, put_refused, read_bytes};

// The kind of claim that holds, and its atom; or that there is no reading.
fn put_claim(claim: Claim, out: &mut Line) {
    match claim {
        Claim::About(kind, atom) => {
            match kind {
                Kind::Naming => out.text(b"certain "),
                Kind::Clearing => out.text(b"clear "),
            }
            out.number(atom.0 as u64);
        }
        Claim::NoReading => out.text(b"none"),
    }
}

// Answers the command; none where its words are not right. The paper is read into the room.
pub fn answer_check(words: &[u8], book: &mut [u8], room: &mut [u8], out: &mut Line) -> Option<()> {
    let n = read_bytes(first_word(words), book)?;
    let m = read_bytes(other_words(words), room)?;
    match check(&book[..n], &room[..m]) {
        Ok(claim) => put_claim(claim, out),
        Err(why) => put_refused(Refused::from(why), out),
    }
    Some(())
}
