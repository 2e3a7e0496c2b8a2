// What a program's arguments say of the file that it saves.
ghost use Rattle.std.specs.Prelude.{IfSome};
ghost use Rattle.system.specs.Counts.{IsPrefixLen};

use std::env::FillError;
use std::rt::Env;
use system::{arg, arg_count};
use talk::print;

// Whether the last argument is `--replace`. `must` arguments stand before it, the program's own
// name among them.
pub fn is_replacing(rt: &impl Env, must: usize) -> bool {
    let count = arg_count(rt);
    if count <= must {
        return false;
    }
    let mut word = [0u8; 16];
    let n = arg(rt, count - 1, &mut word);
    &word[..n] == b"--replace".as_slice()
}

// Whether there are `must` arguments, and behind them at most `--replace`.
pub fn is_right(rt: &impl Env, must: usize) -> bool {
    match arg_count(rt).checked_sub(must) {
        Some(0) => true,
        Some(1) => is_replacing(rt, must),
        _ => false,
    }
}

// Puts the path that an argument names at the start of out, and gives its length; none where it is too
// long: a line says so. A missing argument names the path of no bytes.
pub fn take_path(rt: &(impl Env + Print), i: usize, out: &mut [u8]) -> Option<usize>
    ensures { IfSome result (λ n. IsPrefixLen n out.new) }
{
    match rt.arg(i, out) {
        Ok(n) => Some(n),
        Err(FillError::NotPresent) => Some(0),
        Err(FillError::TooLong) => {
            print(rt, b"bad file: its name is too long\n");
            None
        }
    }
}
