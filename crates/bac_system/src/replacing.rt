//! Files that are written whole: a new file takes the place of the one at a path once all of it is on the disk.
use std::fs::{FileType, OpenOptions};
use std::hash::{BuildHasher, RandomState};
use std::io::{ErrorKind, Write};
use std::os::unix::fs::{FileTypeExt, OpenOptionsExt};
use std::path::Path;
use std::{fs, io};

/// The mode of a file that is written: only its owner may read and write it.
const PRIVATE: u32 = 0o600;

/// Makes an empty file that only its owner may read and write, if there is nothing at a path. Returns whether it made one.
pub(crate) fn make_private(rt: &HostRuntime, path: &str) -> bool {
    let made = OpenOptions::new()
        .write(true)
        .create_new(true)
        .mode(PRIVATE)
        .open(rt, path);
    made.is_ok()
}

/// Removes the file at a path, if it is empty.
pub(crate) fn remove_empty(rt: &HostRuntime, path: &str) {
    let is_empty = match fs::symlink_metadata(rt, path) {
        Ok(found) => found.is_file() && found.len() == 0,
        Err(_) => false,
    };
    if is_empty {
        // if that fails, a file without content is left
        let _ = fs::remove_file(rt, path);
    }
}

/// A fault of the name of a file.
fn bad_name(why: &'static str) -> io::Error {
    io::Error::new(ErrorKind::InvalidInput, why)
}

/// A name beside a path, which no file is likely to have.
pub(crate) fn name_beside(rt: &HostRuntime, path: &str) -> io::Result<String> {
    let number = RandomState::new(rt)?.hash_one(&0u8);
    match format!(in rt.alloc(); "{path}.{number}") {
        Ok(name) => Ok(name),
        Err(_) => Err(io::Error::from(ErrorKind::OutOfMemory)),
    }
}

/// Writes octets to a new file, and syncs it. An Err where the name is taken, also by a link.
pub(crate) fn write_new(rt: &HostRuntime, path: &str, octets: &[u8]) -> io::Result<()> {
    let mut file = OpenOptions::new()
        .write(true)
        .create_new(true)
        .mode(PRIVATE)
        .open(rt, path)?;
    file.write_all(octets)?;
    file.sync_all()
}

/// The folder of the file at a path.
fn folder_of(path: &str) -> Path<'_> {
    match Path::new(path).parent() {
        Some(folder) if !folder.as_str().is_empty() => folder,
        _ => Path::new("."),
    }
}

/// Gives a file another name, in place of the file or the link that has it, and syncs the folder, where its file system can.
pub(crate) fn rename(rt: &HostRuntime, from: &str, to: &str) -> io::Result<()> {
    fs::rename(rt, from, to)?;
    let folder = fs::open(rt, folder_of(to))?;
    match folder.sync_all() {
        // this file system cannot sync a folder
        Err(error) if error.kind() == ErrorKind::InvalidInput => Ok(()),
        synced => synced,
    }
}

/// Whether there is a link at a path.
fn is_link(rt: &HostRuntime, path: &str) -> bool {
    match fs::symlink_metadata(rt, path) {
        Ok(found) => found.is_symlink(),
        Err(_) => false,
    }
}

/// Writes octets to a new file, which then takes the place of the one at a path: only its owner may read it. Where that fails, that one is as it was. A link at
/// the path is refused, and what it leads to is as it was.
pub(crate) fn replace(rt: &HostRuntime, path: &str, octets: &[u8]) -> io::Result<()> {
    if is_link(rt, path) {
        return Err(bad_name("a link; give the name of a file"));
    }
    let name = name_beside(rt, path)?;
    let written = match write_new(rt, &name, octets) {
        Ok(()) => rename(rt, &name, path),
        Err(error) => Err(error),
    };
    if written.is_err() {
        // if that fails too, a file without a use is left
        let _ = fs::remove_file(rt, &name);
    }
    written
}

/// Whether octets go into it, and nothing takes its place: a pipe or a terminal.
fn is_stream(kind: FileType) -> bool {
    kind.is_fifo() || kind.is_char_device()
}

/// Whether a path, or a link there as /dev/stdout, leads to a pipe or a terminal.
fn leads_to_stream(rt: &HostRuntime, path: &str) -> bool {
    match fs::metadata(rt, path) {
        Ok(found) => is_stream(found.file_type()),
        Err(_) => false,
    }
}

/// Writes octets into the pipe or the terminal at a path. An Err where it has become something else.
fn write_through(rt: &HostRuntime, path: &str, octets: &[u8]) -> io::Result<()> {
    let mut stream = OpenOptions::new().write(true).open(rt, path)?;
    if !is_stream(stream.metadata()?.file_type()) {
        return Err(bad_name("no longer a pipe or a terminal"));
    }
    stream.write_all(octets)?;
    stream.flush()
}

/// Writes octets into a pipe or a terminal; otherwise as [`replace`].
pub(crate) fn put_out(rt: &HostRuntime, path: &str, octets: &[u8]) -> io::Result<()> {
    if leads_to_stream(rt, path) {
        write_through(rt, path, octets)
    } else {
        replace(rt, path, octets)
    }
}
