// The arguments: FIRSTBOOK SECONDBOOK BOOKFILE [L1 L2] [--replace]. In the place of each of the first
// two may stand --words WORDSFILE or --text TEXTFILE, which shifts the others by one.
ghost use Rattle.std.specs.Prelude.{◌≤◌};

use calling::shift_at;
use saving::is_replacing;
use std::rt::Env;
use system::{arg, arg_count};
use talk::read_number;

// The tries of each search where no limits are given.
const LIMIT: u32 = 1000000;

// The place of the first book.
pub const FIRST: usize = 1;

// The place of the second book.
pub fn second(rt: &impl Env) -> usize
    ensures { result ≤ 3 }
{
    2 + shift_at(rt, FIRST)
}

// How far the arguments behind the two books are shifted.
fn shift(rt: &impl Env) -> usize
    ensures { result ≤ 2 }
{
    shift_at(rt, FIRST) + shift_at(rt, second(rt))
}

// The place of BOOKFILE.
pub fn saved(rt: &impl Env) -> usize {
    3 + shift(rt)
}

// Whether the call says `--replace`, behind the three files.
pub fn is_to_replace(rt: &impl Env) -> bool {
    is_replacing(rt, 4 + shift(rt))
}

// Whether there are as many arguments as there may be: the three files, and both limits or none.
pub fn is_right(rt: &impl Env) -> bool {
    let count = arg_count(rt);
    let must = 4 + shift(rt);
    if is_to_replace(rt) {
        return count == must + 1 || count == must + 3;
    }
    count == must || count == must + 2
}

// The limit that stands so many places behind the three files, of a call that is right.
pub fn read_limit(rt: &impl Env, behind: usize) -> Option<u32>
    requires { behind ≤ 1 }
{
    let from = 4 + shift(rt);
    if arg_count(rt) < from + 2 {
        return Some(LIMIT);
    }
    let mut word = [0u8; 16];
    let n = arg(rt, from + behind, &mut word);
    read_number(&word[..n])
}
