// Sets of 256 bits in four words.
//
// What each operation gives is said of the set that the words stand for, a test of all numbers. A set
// that is asked at a place that varies is lent; all else takes it by value.
ghost use Rattle.std.specs.Prelude.{◌≡◌, true, ◌*◌, ◌<◌, not, set};
ghost use Rattle.meaning.specs.Sets.{every_below, some_below};
ghost use Rattle.meaning.specs.Books.{rule_no};
ghost use Rattle.meaning.specs.Bits.{none, below, plus, less, both, implied, bit, members, listed, Lowers, NextIn, OnesBelow};
ghost use Rattle.meaning.specs.Written.{of};

// Bit i % 64 of word i / 64 says whether i is in the set.
#[derive(Clone, Copy)]
pub struct Bits {
    pub w: [u64; 4],
}

impl Bits {
    pub const EMPTY: Bits = Bits { w: [0; 4] };

    pub fn empty() -> Bits
        ensures { members result.w ≡ none }
    {
        Bits::EMPTY
    }

    // The numbers below n.
    pub fn below(n: u8) -> Bits
        ensures { members result.w ≡ below n }
    {
        Bits {
            w: [ones(n, 0), ones(n, 64), ones(n, 128), ones(n, 192)],
        }
    }

    // Tried for the three as one closure at each word, and the proof didn't close.
    pub fn union(self, other: Bits) -> Bits
        ensures { members result.w ≡ plus (members self.w) (members other.w) }
    {
        let a = self.w;
        let b = other.w;
        Bits {
            w: [a[0] | b[0], a[1] | b[1], a[2] | b[2], a[3] | b[3]],
        }
    }

    pub fn intersection(self, other: Bits) -> Bits
        ensures { members result.w ≡ both (members self.w) (members other.w) }
    {
        let a = self.w;
        let b = other.w;
        Bits {
            w: [a[0] & b[0], a[1] & b[1], a[2] & b[2], a[3] & b[3]],
        }
    }

    pub fn difference(self, other: Bits) -> Bits
        ensures { members result.w ≡ less (members self.w) (members other.w) }
    {
        let a = self.w;
        let b = other.w;
        Bits {
            w: [a[0] & !b[0], a[1] & !b[1], a[2] & !b[2], a[3] & !b[3]],
        }
    }

    // Every member is a member of the other.
    pub fn is_within(self, other: Bits) -> bool
        ensures { result ≡
            every_below 256 (implied (members self.w) (members other.w)) }
    {
        self.difference(other).is_empty()
    }

    // Some member is a member of the other.
    pub fn meets(self, other: Bits) -> bool
        ensures { result ≡ some_below 256 (both (members self.w) (members other.w)) }
    {
        !self.intersection(other).is_empty()
    }

    // No number is a member.
    fn is_empty(self) -> bool
        ensures { not result ≡ some_below 256 (members self.w) }
    {
        let a = self.w;
        a[0] | a[1] | a[2] | a[3] == 0
    }

    pub fn has(&self, i: u8) -> bool
        ensures { result ≡ of (listed self.now.w) (rule_no i) }
    {
        let at = i as usize;
        (self.w[at / 64] >> (at % 64)) % 2 == 1
    }

    pub fn put(&mut self, i: u8)
        ensures { listed self.new.w ≡ set (listed self.old.w) i true }
    {
        let at = i as usize;
        self.w[at / 64] |= 1u64 << (at % 64);
    }

    // Puts every member of the other set in.
    pub fn join(&mut self, other: Bits)
        ensures { members self.new.w ≡ plus (members self.old.w) (members other.w) }
    {
        *self = self.union(other);
    }

    // The lowest member that is at least `from`, or 256. The loop over a set is
    // `let mut r = set.next_in(0); while r < 256 { .. r = set.next_in(r + 1); }`.
    pub fn next_in(&self, from: usize) -> usize
        ensures { NextIn (members self.now.w) from result }
    {
        if 256 <= from {
            return 256;
        }
        let k = from / 64;
        let x = self.w[k] >> (from % 64);
        if x != 0 {
            return from + trailing(x) as usize;
        }
        self.next_word(k + 1)
    }

    // The lowest member of the words from word `first` on, or 256.
    fn next_word(&self, first: usize) -> usize
        ensures { NextIn (members self.now.w) (first * 64) result }
    {
        for k in first..4 {
            let x = self.w[k];
            if x != 0 {
                return k * 64 + trailing(x) as usize;
            }
        }
        256
    }
}

// The bits, of the 64 numbers from `from` on, of those that are below n.
fn ones(n: u8, from: u8) -> u64
    ensures { OnesBelow n from result }
{
    if n <= from {
        return 0;
    }
    let k = n - from;
    if 64 <= k {
        return 0xFFFF_FFFF_FFFF_FFFF;
    }
    (1u64 << k) - 1
}

// The lowest bit of a word that has one.
fn trailing(x: u64) -> u8
    requires { 0 < x }
    ensures { (result < 64) × Lowers (bit x) result }
{
    u64::trailing_zeros(x) as u8
}
