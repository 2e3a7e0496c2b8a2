// What a call for the next page of a listing answers.
ghost use Rattle.std.specs.Prelude.{◌≡◌};
ghost use Rattle.walk.specs.declared.page_answer.NoPage.TheVariants.{Book};

use book::Refusal;

#[derive(Clone, Copy)]
pub enum Page {
    // The buffer is full of rows: all tries so far. More readings may follow.
    Whole(u32),
    // The walk has come to its end: all tries, and the rows of this last page.
    Last(u32, u32),
    // One more try would pass the limit: so many rows stand in the buffer.
    Cut(u32),
}

// Why there is no page.
#[derive(Clone, Copy)]
pub enum NoPage {
    // 1 to 7: the book is refused.
    Book(Refusal),
    // 8: the buffer has fewer bytes than the book has atoms.
    NoRoom,
}

impl From<Refusal> for NoPage {
    ghost from_gives = { λ why r. r ≡ Book why };

    fn from(why: Refusal) -> NoPage {
        NoPage::Book(why)
    }
}
