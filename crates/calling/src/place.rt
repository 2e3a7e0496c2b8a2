// What stands at a place of a text: its word, and whether its line lists names.
use talk::first_bytes;
use words::column_of;

// The most bytes of a word that are shown: one more than a name may have.
const MOST_SHOWN: usize = 65;

// Whether the byte parts words.
fn is_blank(x: u8) -> bool {
    matches!(x, b' ' | b'\t' | b'\r' | b'\n')
}

// The bytes from a place on; none where the text ends before it.
fn rest<'a>(text: &'a [u8], from: usize) -> &'a [u8] {
    text.get(from..).unwrap_or(b"")
}

// The word that stands at the place, as far as it is shown; no bytes where there is none.
pub fn word_at<'a>(text: &'a [u8], place: usize) -> &'a [u8] {
    let there = rest(text, place);
    let shown = there.iter().take(MOST_SHOWN);
    first_bytes(there, shown.take_while(|x| !is_blank(**x)).count())
}

// Whether the first word of the bytes is `atoms:`.
fn starts_a_list(line: &[u8]) -> bool {
    let blanks = line.iter().take_while(|x| is_blank(**x)).count();
    word_at(line, blanks) == b"atoms:".as_slice()
}

// Whether the line of the place is one that lists names.
pub fn is_listing(text: &[u8], place: usize) -> bool {
    let start = place
        .saturating_add(1)
        .saturating_sub(column_of(text, place));
    starts_a_list(rest(text, start))
}
