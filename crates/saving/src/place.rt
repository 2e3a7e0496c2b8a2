// What stands where a file is to be saved. A link, a pipe, a device or a folder never gives way,
// nor does a file that may not be written.
ghost use Rattle.std.specs.Prelude.{◌≡◌, IfOk, IfSome, None};
ghost use Rattle.system.specs.Counts.{IsPrefixLen};

use std::fs::OpenFile;
use std::io::{Error, ErrorKind, Read, Seek, SeekFrom};
use std::rt::Files;
use system::{PATH_ROOM, is_link, open_update, read_full};
use talk::complain;

// Something stands there that never gives way; a line has said so.
#[derive(Clone, Copy)]
pub struct Forbidden;

// Says in a line why the system did not let a file be written.
pub fn complain_of_writing(rt: &impl Print, path: &[u8], error: Error) {
    match error.kind() {
        ErrorKind::NotFound | ErrorKind::NotADirectory => {
            complain(rt, path, b"there is no such folder");
        }
        ErrorKind::PermissionDenied | ErrorKind::ReadOnlyFilesystem => {
            complain(rt, path, b"it may not be written");
        }
        ErrorKind::IsADirectory => complain(rt, path, b"it is a folder"),
        _ => complain(rt, path, b"it cannot be written"),
    }
}

// Reads the open file from its start. A pipe has no end to go to; a file of which less was read
// than there is may hold anything behind that.
fn read_there(
    rt: &impl Print,
    file: &mut (impl Read + Seek),
    path: &[u8],
    out: &mut [u8],
) -> Result<usize, Forbidden>
    ensures { IfOk result (λ n. IsPrefixLen n out.new) }
{
    let Ok(end) = file.seek(SeekFrom::End(0)) else {
        complain(rt, path, b"it is no regular file");
        return Err(Forbidden);
    };
    let _ = file.seek(SeekFrom::Start(0));
    let (Ok(n) | Err(n)) = read_full(file, out);
    if n < out.len() && n as u64 != end {
        complain(rt, path, b"it cannot be read");
        return Err(Forbidden);
    }
    Ok(n)
}

// Reads what stands at the path, as far as there is room for it, and gives how many of its bytes stand
// at the start of the buffer; none where there is no file, so that one can be made. The file is opened
// for writing too, which does not wait where it is a pipe. Where it never gives way a line says so.
pub fn look_at(
    rt: &(impl Files + Print),
    path: &[u8],
    out: &mut [u8],
) -> Result<Option<usize>, Forbidden>
    ensures { IfOk result (λ there. IfSome there (λ n. IsPrefixLen n out.new)) }
{
    if PATH_ROOM <= path.len() {
        complain(rt, path, b"its name is too long");
        return Err(Forbidden);
    }
    if is_link(rt, path) {
        complain(rt, path, b"it is a link");
        return Err(Forbidden);
    }
    match open_update(rt, path) {
        Ok(mut file) => Ok(Some(read_there(rt, &mut file, path, out)?)),
        Err(error) if error.kind() == ErrorKind::NotFound => Ok(None),
        Err(error) => {
            complain_of_writing(rt, path, error);
            Err(Forbidden)
        }
    }
}

// Whether the open file is a regular one. The system is asked to cut it at the length that it has,
// which it does for regular files only.
fn is_cut(file: &mut (impl Seek + OpenFile)) -> bool {
    match file.seek(SeekFrom::End(0)) {
        Ok(size) => file.set_len(size).is_ok(),
        Err(_) => false,
    }
}

// Whether the path is that of a regular file.
pub fn is_regular(rt: &impl Files, path: &[u8]) -> bool {
    match open_update(rt, path) {
        Ok(mut file) => is_cut(&mut file),
        Err(_) => false,
    }
}
