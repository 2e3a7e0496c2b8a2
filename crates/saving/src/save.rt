// Saving a file whole or not at all: the bytes go to a new file beside it, which then takes its
// name. Whatever fails, a file that was there before stays as it was.
ghost use Rattle.std.specs.Prelude.{◌≡◌, ◌+◌, ◌≤◌, length, take};
ghost use Rattle.system.specs.Counts.{IsPrefixLen};
ghost use Rattle.saving.specs.NewName.{new_name};

use crate::place::{complain_of_writing, is_regular};
use std::fs::OpenFile;
use std::io::{Error, ErrorKind, Write};
use std::rt::Files;
use system::{PATH_ROOM, create, remove, rename};
use talk::complain;

// Puts the path and `.new` at the start of out, and gives how many bytes that is.
fn put_new_name(path: &[u8], out: &mut [u8]) -> usize
    requires { length path.now + 4 ≤ length out.old }
    ensures out_after { take result out.new ≡ new_name path.now }
    ensures prefix_len { IsPrefixLen result out.new }
{
    let n = path.len();
    out[..n].copy_from_slice(path);
    out[n..n + 4].copy_from_slice(b".new");
    n + 4
}

// Writes all bytes and waits until they are on the disk, and gives whether that went well.
fn write_whole(file: &mut (impl Write + OpenFile), bytes: &[u8]) -> bool {
    let is_written = file.write_all(bytes).is_ok();
    let is_kept = file.sync_all().is_ok();
    is_written && is_kept
}

// Says in a line why the new file cannot be made.
fn complain_of_making(rt: &impl Print, path: &[u8], new: &[u8], error: Error) {
    if error.kind() == ErrorKind::AlreadyExists {
        let why = b"a program that was ended left it, or one is writing it; remove it if none runs";
        complain(rt, new, why);
        return;
    }
    complain_of_writing(rt, path, error);
}

// Makes the new file, writes all bytes to it and closes it, and gives whether it was written whole;
// none where it cannot be made: a line says so.
fn write_new(rt: &(impl Files + Print), path: &[u8], new: &[u8], bytes: &[u8]) -> Option<bool> {
    match create(rt, new) {
        Ok(mut file) => Some(write_whole(&mut file, bytes)),
        Err(error) => {
            complain_of_making(rt, path, new, error);
            None
        }
    }
}

// Writes the bytes to the new file, which then takes the path's name.
fn replace(rt: &(impl Files + Print), path: &[u8], new: &[u8], bytes: &[u8]) -> bool {
    let Some(is_whole) = write_new(rt, path, new, bytes) else {
        return false;
    };
    if is_whole && rename(rt, new, path).is_ok() {
        return true;
    }
    let _ = remove(rt, new);
    complain(rt, path, b"it cannot be written");
    false
}

// Saves the bytes at the path, and gives whether that went well; where it did not a line says so.
// `is_there` tells whether a file stands there that gives way.
pub fn save_file(rt: &(impl Files + Print), path: &[u8], is_there: bool, bytes: &[u8]) -> bool {
    if PATH_ROOM < path.len() {
        complain(rt, path, b"its name is too long");
        return false;
    }
    if is_there && !is_regular(rt, path) {
        complain(rt, path, b"it is no regular file");
        return false;
    }
    let mut name = [0u8; 4100];
    let m = put_new_name(path, &mut name);
    replace(rt, path, &name[..m], bytes)
}
