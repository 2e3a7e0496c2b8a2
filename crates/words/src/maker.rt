// The book made of a text in words.
ghost use Rattle.std.specs.Prelude.{◌≡◌, false, List, [], ℕ, length};
ghost use Rattle.book.specs.Format.{book_bytes};
ghost use Rattle.book.specs.Making.{Made};
ghost use Rattle.words.specs.declared.step.Fate.TheVariants.{Goes};
ghost use Rattle.words.specs.Reading.{start};
ghost use Rattle.words.specs.Make.{told_book, unworded, Answer, make_of};
ghost use Rattle.words.specs.Progress.{reading_of, goes_on, Along};

use crate::answer::Unworded;
use crate::decision::Misplaced;
use crate::due::Due;
use crate::known::Known;
use crate::opened::Open;
use crate::step::{Fate, Reading, goes_on, step};
use book::{BOOK_BYTES, Making, copy_front, finish_book};
use meaning::AtomNo;

// Nothing was read yet.
fn begin() -> Reading
    ensures { (result ≡ reading_of Goes 0 result.making start)
        × ((draft : List ℕ) → length draft ≡ book_bytes → Made [] result.making draft) }
{
    let making = Making::nothing();
    let names = Known {
        count: 0,
        from: [0; 255],
        to: [0; 255],
    };
    let rule = Open {
        head: AtomNo(0),
        pos: [false; 255],
        neg: [false; 255],
    };
    Reading {
        fate: Fate::Goes,
        at: 0,
        due: Due::Line,
        fixed: false,
        names,
        rule,
        making,
    }
}

// Reads the text to its end, or to the word at which it is refused; the rules are made in the draft.
fn read_text(text: &[u8], draft: &mut [u8; BOOK_BYTES]) -> Reading
    requires { length draft.old ≡ book_bytes }
    ensures { Along text.now result draft.new
        × (goes_on result.fate ≡ false) }
{
    let mut r = begin();
    loop {
        let next = step(text, draft, r);
        if !goes_on(next.fate) {
            return next;
        }
        r = next;
    }
}

// The refusal of a word that starts there, or of a line that ends there.
fn unworded(why: Misplaced, place: usize) -> Unworded
    ensures { result ≡ unworded why place }
{
    match why {
        Misplaced::Form => Unworded::Form(place),
        Misplaced::Name => Unworded::Name(place),
        Misplaced::TooMany => Unworded::TooMany(place),
    }
}

// Writes the book of the text to the front of the buffer, and where each atom's name starts and ends
// to the other two; or says why not.
pub fn make(
    text: &[u8],
    out: &mut [u8],
    from: &mut [usize; 255],
    to: &mut [usize; 255],
) -> Result<usize, Unworded>
    ensures { ◌≡◌ {A = Answer} (record {
      told = told_book result;
      book = out.new;
      from = from.new;
      to = to.new;
    })
        (make_of text.now out.old from.old to.old) }
{
    let mut draft = [0u8; BOOK_BYTES];
    let r = read_text(text, &mut draft);
    match r.fate {
        // Never: reading is over.
        Fate::Goes => Err(Unworded::NoRoom),
        Fate::Refused(why, place) => Err(unworded(why, place)),
        Fate::Done => {
            let n = finish_book(&mut draft, r.making, r.names.count as u8);
            if out.len() < n {
                return Err(Unworded::NoRoom);
            }
            copy_front(&draft[0..n], out);
            let starts = r.names.from;
            let ends = r.names.to;
            *from = starts;
            *to = ends;
            Ok(n)
        }
    }
}
