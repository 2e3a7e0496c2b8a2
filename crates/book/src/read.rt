// A book that was read as good: its bytes and its shape belong together, and with them goes that they do.
// It hands out its rules in place, and nothing is checked again.
ghost use Rattle.std.specs.Prelude.{◌≡◌, ◌&&◌, ◌<◌, IfOk};
ghost use Rattle.meaning.specs.Sets.{every, some};
ghost use Rattle.meaning.specs.Books.{rule};
ghost use Rattle.meaning.specs.Bits.{listed};
ghost use Rattle.meaning.specs.Written.{of};
ghost use Rattle.meaning.specs.Colours.{heads, all_in};
ghost use Rattle.book.specs.Numbers.{told};
ghost use Rattle.book.specs.Format.{read_of, told_of, ReadAs};
ghost use Rattle.book.specs.Writing.{atom_bytes};
ghost use Rattle.book.specs.Tables.{atoms_in, atom_table, said_by};
ghost use Rattle.book.specs.Places.{RuleAt};

use crate::conditions::{every_in, some_in};
use crate::number::{u16_at, wide};
use crate::reader::{Shape, read_book};
use crate::refusal::Refusal;
use meaning::{AtomNo, Bits, Colouring, RuleNo};

#[derive(Clone, Copy)]
pub struct ReadBook<'a> {
    pub bytes: &'a [u8],
    pub shape: Shape,
    ghost read_as: { ReadAs bytes.now shape },
    ghost small: { (shape.atoms < 256) × (shape.rules < 256) },
}

impl<'a> ReadBook<'a> {
    ghost use Rattle.book.specs.ReadBook.{the_book, shape_in};

    // The book, if the bytes are a good one; else the first thing that is wrong.
    pub fn read(bytes: &'a [u8]) -> Result<ReadBook<'a>, Refusal>
        ensures tells { told (shape_in result) ≡ told_of (read_of bytes.now) }
        ensures bytes { IfOk result (λ b. b.bytes.now ≡ bytes.now) }
    {
        let shape = read_book(bytes)?;
        Ok(ReadBook { bytes, shape })
    }

    // Where the record of rule r starts.
    fn start_of(&self, r: RuleNo) -> usize
        requires { r.0 < self.now.shape.rules }
        ensures { RuleAt self.now.bytes.now result (rule (the_book self.now) r) }
    {
        u16_at(self.bytes, self.shape.index + 2 * wide(r.0))
    }

    // The head of rule r.
    pub fn head(&self, r: RuleNo) -> AtomNo
        requires { r.0 < self.now.shape.rules }
        ensures { result ≡ (rule (the_book self.now) r).head }
    {
        let start = self.start_of(r);
        AtomNo(self.bytes[start])
    }

    // The positive atoms of rule r, one byte each, as the part of the book that holds them.
    pub fn positives(&self, r: RuleNo) -> &'a [u8]
        requires { r.0 < self.now.shape.rules }
        ensures { result.now ≡ atom_bytes (rule (the_book self.now) r).pos }
    {
        let start = self.start_of(r);
        let p = wide(self.bytes[start + 1]);
        let first = start + 3;
        let end = first + p;
        &self.bytes[first..end]
    }

    // The negative atoms of rule r, likewise.
    pub fn negatives(&self, r: RuleNo) -> &'a [u8]
        requires { r.0 < self.now.shape.rules }
        ensures { result.now ≡ atom_bytes (rule (the_book self.now) r).neg }
    {
        let start = self.start_of(r);
        let p = wide(self.bytes[start + 1]);
        let n = wide(self.bytes[start + 2]);
        let first = start + 3 + p;
        let end = first + n;
        &self.bytes[first..end]
    }

    // The rule goes on: each positive atom is in the one table and each negative atom in the other.
    pub fn goes_on<'t>(
        &self,
        r: RuleNo,
        headed: &'t [bool; Colouring::ATOMS],
        lost: &'t [bool; Colouring::ATOMS],
    ) -> bool
        requires { r.0 < self.now.shape.rules }
        ensures { result ≡
            (every (atoms_in headed.now) (rule (the_book self.now) r).pos
            && every (atoms_in lost.now) (rule (the_book self.now) r).neg) }
    {
        every_in(self.positives(r), headed) && every_in(self.negatives(r), lost)
    }

    // The rule goes off: some negative atom is in the table.
    pub fn is_blocked(&self, r: RuleNo, headed: &[bool; Colouring::ATOMS]) -> bool
        requires { r.0 < self.now.shape.rules }
        ensures { result ≡
            some (atoms_in headed.now) (rule (the_book self.now) r).neg }
    {
        some_in(self.negatives(r), headed)
    }

    // The rule goes off: some positive atom has all its rules off.
    pub fn is_starved(&self, r: RuleNo, off: &Bits) -> bool
        requires { r.0 < self.now.shape.rules }
        ensures { result ≡
            some (all_in (the_book self.now) (of (listed off.now.w)))
            (rule (the_book self.now) r).pos }
    {
        let body = self.positives(r);
        let mut starved = false;
        'atoms: for a in body {
            for q in 0..self.shape.rules {
                if !off.has(q) {
                    if self.head(RuleNo(q)) == AtomNo(*a) {
                        continue 'atoms;
                    }
                }
            }
            starved = true;
            break 'atoms;
        }
        starved
    }

    // Writes the heads of the rules of the set over whatever the table held.
    pub fn heads_of(&self, set: &Bits, out: &mut [bool; Colouring::ATOMS])
        ensures { out.new ≡
            atom_table (heads (the_book self.now) (of (listed set.now.w))) }
    {
        self.fill(set, true, out);
    }

    // Writes the atoms all of whose rules are in the set over whatever the table held. An atom with no
    // rule counts.
    pub fn lost_in(&self, set: &Bits, out: &mut [bool; Colouring::ATOMS])
        ensures { out.new ≡
            atom_table (all_in (the_book self.now) (of (listed set.now.w))) }
    {
        self.fill(set, false, out);
    }

    // Writes `said` for each atom that is the head of a rule that is in the set, or, where `said` is
    // false, of one that is not; and the opposite for every other atom.
    fn fill(&self, set: &Bits, said: bool, out: &mut [bool; Colouring::ATOMS])
        ensures { out.new ≡
            atom_table (said_by said (the_book self.now) (of (listed set.now.w))) }
    {
        *out = [!said; Colouring::ATOMS];
        for r in 0..self.shape.rules {
            if set.has(r) == said {
                let a = wide(self.head(RuleNo(r)).0);
                out[a] = said;
            }
        }
    }
}
