// The arguments: BOOKFILE ATOM PAPERFILE [LIMIT] [--replace], or without ATOM where the paper is about
// none; --words WORDSFILE or --text TEXTFILE in the place of BOOKFILE shifts the others by one.
ghost use Rattle.std.specs.Prelude.{◌<◌, ◌≤◌};

use calling::shift;
use meaning::Claim;
use saving::is_replacing;
use std::rt::Env;
use system::{arg, arg_count};
use talk::read_number;

// The tries of each walk where no limit is given.
const LIMIT: u32 = 1000000;

// How many arguments must be there with a BOOKFILE, the program's own name among them.
pub const WITH_ATOM: usize = 4;

pub const WITHOUT_ATOM: usize = 3;

// How many must be there in a call for a paper with this claim.
fn must_be(rt: &impl Env, claim: Claim) -> usize
    ensures { 0 < result }
{
    match claim {
        Claim::About(_, _) => WITH_ATOM + shift(rt),
        Claim::NoReading => WITHOUT_ATOM + shift(rt),
    }
}

// Where PAPERFILE stands: it is the last of those.
pub fn paper_place(rt: &impl Env, claim: Claim) -> usize {
    must_be(rt, claim) - 1
}

// Whether such a call says `--replace`.
pub fn is_to_replace(rt: &impl Env, claim: Claim) -> bool {
    is_replacing(rt, must_be(rt, claim))
}

// Whether there are as many arguments as there may be.
pub fn is_right(rt: &impl Env, must: usize) -> bool
    requires { must ≤ 4 }
{
    let must = must + shift(rt);
    match arg_count(rt).checked_sub(must) {
        Some(0 | 1) => true,
        Some(2) => is_replacing(rt, must),
        _ => false,
    }
}

// The number that an argument says.
fn number_argument(rt: &impl Env, i: usize) -> Option<u32> {
    let mut word = [0u8; 16];
    let n = arg(rt, i, &mut word);
    read_number(&word[..n])
}

pub fn read_atom(rt: &impl Env) -> Option<u32> {
    number_argument(rt, 2 + shift(rt))
}

// The limit that the arguments give, behind those that must be there.
pub fn read_limit(rt: &impl Env, claim: Claim) -> Option<u32> {
    let must = must_be(rt, claim);
    match arg_count(rt).saturating_sub(must) {
        0 => Some(LIMIT),
        1 if is_replacing(rt, must) => Some(LIMIT),
        _ => number_argument(rt, must),
    }
}
