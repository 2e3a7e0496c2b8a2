// A text that is read from a file.
ghost use Rattle.std.specs.Prelude.{◌<◌, length, IfSome};

use std::rt::{Env, Files};
use system::{PATH_ROOM, arg};
use talk::{complain, read_argument};

// Room for the longest text that is taken, and one byte more, so that a longer one is told and not
// cut.
pub const TEXT_ROOM: usize = 200001;

// Reads the text that an argument names. Where it cannot be read, or is longer than what is taken, a
// line says so.
pub fn read_text<'a>(
    rt: &(impl Env + Files + Print),
    i: usize,
    room: &'a mut [u8],
) -> Option<&'a [u8]>
    ensures { IfSome result (λ t. length t.now < length room.old) }
{
    let n = read_argument(rt, i, room)?;
    if n < room.len() {
        return Some(&room[..n]);
    }
    let mut path = [0u8; PATH_ROOM];
    let m = arg(rt, i, &mut path);
    complain(rt, &path[..m], b"it has over 200,000 bytes");
    None
}
