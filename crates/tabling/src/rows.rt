// A table, book by book.
use crate::line::{Layout, print_book, print_totals, print_without};
use counting::{Line, Totals, Turn, take_turn};
use listing::LIMIT;
use meaning::Colouring;

// The most books of a table: with more names it is refused, 36.
pub const MOST_BOOKS: usize = 64;

// How many books there were, which of them have no answer sets, and the totals.
#[derive(Clone, Copy)]
pub struct Table {
    books: u8,
    without: [bool; 64],
    totals: Totals,
}

impl Table {
    // No book yet.
    pub const START: Table = Table {
        books: 0,
        without: [false; 64],
        totals: Totals::NOTHING,
    };

    // Writes the line of the next book. A book behind the last that a table has changes nothing.
    fn with_turn(
        self,
        rt: &impl Print,
        turn: Turn,
        counts: &[u32; Colouring::ATOMS],
        name: &[u8],
        layout: Layout,
    ) -> Table {
        let book = self.books as usize;
        if MOST_BOOKS <= book {
            return self;
        }
        let line = turn.line;
        print_book(rt, self.books as u64 + 1, name, line, counts, layout);
        let mut without = self.without;
        without[book] = matches!(line, Line::Without);
        Table {
            books: self.books + 1,
            without,
            totals: turn.totals,
        }
    }

    // Takes the turn of the next book and writes its line; none where its name could not be opened
    // and read.
    pub fn with_book(
        self,
        rt: &impl Print,
        book: Option<&[u8]>,
        name: &[u8],
        layout: Layout,
    ) -> Table {
        let mut counts = [0u32; Colouring::ATOMS];
        let bytes = book.unwrap_or(b"");
        let turn = take_turn(book.is_some(), bytes, LIMIT, self.totals, &mut counts);
        self.with_turn(rt, turn, &counts, name, layout)
    }

    // Writes the line of a text of which no book was made, for which this number stands.
    pub fn with_refused(self, rt: &impl Print, number: u8, name: &[u8], layout: Layout) -> Table {
        let counts = [0u32; Colouring::ATOMS];
        let turn = Turn {
            line: Line::Refused(number),
            totals: self.totals,
        };
        self.with_turn(rt, turn, &counts, name, layout)
    }

    // Writes the last two lines.
    pub fn end(self, rt: &impl Print, layout: Layout) {
        print_without(rt, &self.without, layout);
        print_totals(rt, self.totals, layout);
    }
}
