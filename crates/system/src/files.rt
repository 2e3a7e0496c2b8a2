// Files by name. A name is bytes, as an argument has them; std takes names that are UTF-8 alone, so
// any other is refused as one that names no file.
use std::fs::OpenOptions;
use std::io::ErrorKind;
use std::rt::Files;
use std::{fs, io};

// Room for the longest name that the system takes, and the zero behind it.
pub const PATH_ROOM: usize = 4096;

// The name as text.
fn text_of(path: &[u8]) -> io::Result<&str> {
    std::str::from_utf8(path).map_err(|_| io::Error::from(ErrorKind::InvalidFilename))
}

// Opens the file for reading.
pub fn open_read<R: Files>(rt: &R, path: &[u8]) -> io::Result<R::File> {
    OpenOptions::new().read(true).open(rt, text_of(path)?)
}

// Opens the file for reading and writing, and leaves its bytes as they are.
pub fn open_update<R: Files>(rt: &R, path: &[u8]) -> io::Result<R::File> {
    OpenOptions::new()
        .read(true)
        .write(true)
        .open(rt, text_of(path)?)
}

// Makes a new file for writing. Where something has the name already it fails.
pub fn create<R: Files>(rt: &R, path: &[u8]) -> io::Result<R::File> {
    OpenOptions::new()
        .write(true)
        .create_new(true)
        .open(rt, text_of(path)?)
}

// Whether a link has the name.
pub fn is_link(rt: &impl Files, path: &[u8]) -> bool {
    let Ok(text) = text_of(path) else {
        return false;
    };
    fs::symlink_metadata(rt, text).is_ok_and(|found| found.is_symlink())
}

// Gives the file another name, in the place of what has that name.
pub fn rename(rt: &impl Files, from: &[u8], to: &[u8]) -> io::Result<()> {
    fs::rename(rt, text_of(from)?, text_of(to)?)
}

pub fn remove(rt: &impl Files, path: &[u8]) -> io::Result<()> {
    fs::remove_file(rt, text_of(path)?)
}
