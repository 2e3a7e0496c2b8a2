// `table BOOK BOOK ..`, also with no book: what the program `table` prints, without names, the words
// parted by spaces and each line end as `|`. `?` stands for a name that can't be opened.
use tabling::{Layout, MOST_BOOKS, Table};
use talk::{print, read_bytes};

const LAYOUT: Layout = Layout {
    separator: b' ',
    line_end: b'|',
    has_names: false,
};

// Whether the word says a book, or is `?`.
fn is_right(word: &[u8], book: &mut [u8]) -> bool {
    word == b"?".as_slice() || read_bytes(word, book).is_some()
}

// Whether each word behind the command is right.
fn are_right(line: &[u8], book: &mut [u8]) -> bool {
    for word in line.split(|x| *x == b' ').skip(1) {
        if !is_right(word, book) {
            return false;
        }
    }
    true
}

// Takes the turn of the book that the word says.
fn with_word(rt: &impl Print, table: Table, word: &[u8], book: &mut [u8]) -> Table {
    match read_bytes(word, book) {
        Some(n) => table.with_book(rt, Some(&book[..n]), b"", LAYOUT),
        None => table.with_book(rt, None, b"", LAYOUT),
    }
}

// Writes the table of the words.
fn print_words(rt: &impl Print, line: &[u8], book: &mut [u8]) {
    let mut table = Table::START;
    for word in line.split(|x| *x == b' ').skip(1) {
        table = with_word(rt, table, word, book);
    }
    table.end(rt, LAYOUT);
}

// Whether there are more words behind the command than a table has books.
fn are_too_many(line: &[u8]) -> bool {
    line.split(|x| *x == b' ')
        .skip(1 + MOST_BOOKS)
        .next()
        .is_some()
}

// Answers the command, or that its words are not right.
pub fn answer_table(rt: &impl Print, line: &[u8], book: &mut [u8]) {
    if !are_right(line, book) {
        print(rt, b"bad line\n");
    } else if are_too_many(line) {
        print(rt, b"refused 36|\n");
    } else {
        print_words(rt, line, book);
        print(rt, b"\n");
    }
}
