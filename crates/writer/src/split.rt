// The paper's walk: a branch and, behind its split, the branches with the rule on and those with
// the rule off. Each branch is one try.
ghost use Rattle.std.specs.Prelude.{◌≡◌, ◌<◌, ◌≤◌, length};
ghost use Rattle.meaning.specs.Paper.{paper_bytes};
ghost use Rattle.meaning.specs.Claim.{claimed};
ghost use Rattle.meaning.specs.Written.{written, pair};
ghost use Rattle.book.specs.ReadBook.{the_book};
ghost use Rattle.writer.specs.Branches.{branches};
ghost use Rattle.writer.specs.Scan.{Progress, scan};
ghost use Rattle.writer.specs.Draft.{Stage};
ghost use Rattle.writer.specs.Write.{paper_walk};

use crate::branch::write_branch;
use crate::step::Tip;
use book::ReadBook;
use meaning::{Claim, Colouring, PAPER_BYTES, Side};

#[derive(Clone, Copy)]
pub enum Course {
    Writing,
    // One more branch would pass the limit.
    Limited,
    // A branch was left unsettled.
    Refuted,
}

// The tries and the draft's length so far, and whether the walk goes on.
#[derive(Clone, Copy)]
pub struct Drafted {
    pub tries: u32,
    pub length: usize,
    pub course: Course,
}

// Writes the branch that starts with the colouring c, then those with its split's rule on, then
// those with it off, each from the colouring at the split.
pub fn write_branches(
    book: &ReadBook,
    claim: Claim,
    c: Colouring,
    limit: u32,
    p: Drafted,
    draft: &mut [u8; PAPER_BYTES],
) -> Drafted
    requires { claimed claim < 255 }
    ensures { (s : Progress) → Stage p draft.old s → s.tries ≤ limit →
        Stage result draft.new
        (scan limit s (branches (the_book book.now) claim (pair (written c)))) }
{
    let Course::Writing = p.course else {
        return p;
    };
    if limit <= p.tries {
        return Drafted {
            course: Course::Limited,
            ..p
        };
    }
    let here = write_branch(book, claim, c, draft, p.length);
    let written = Drafted {
        tries: p.tries + 1,
        length: here.length,
        course: Course::Writing,
    };
    match here.tip {
        Tip::Ended => written,
        Tip::Unsettled => Drafted {
            course: Course::Refuted,
            ..written
        },
        Tip::Parted(r) => {
            let d = here.colours;
            let first = write_branches(book, claim, d.with(Side::On, r), limit, written, draft);
            write_branches(book, claim, d.with(Side::Off, r), limit, first, draft)
        }
    }
}

// The paper's walk: all branches from the empty colouring, from the front of the draft.
pub fn write_steps(
    book: &ReadBook,
    claim: Claim,
    limit: u32,
    draft: &mut [u8; PAPER_BYTES],
) -> Drafted
    requires { (claimed claim < 255)
        × (length draft.old ≡ paper_bytes) }
    ensures { Stage result draft.new
        (paper_walk (the_book book.now) claim limit) }
{
    let start = Drafted {
        tries: 0,
        length: 0,
        course: Course::Writing,
    };
    write_branches(book, claim, Colouring::empty(), limit, start, draft)
}
