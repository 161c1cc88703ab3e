//! Files that a command line names.
ghost use Rattle.std.specs.Prelude.{◌≡◌, ℕ, List, IfOk, IfErr, IfSome};
ghost use Rattle.bac_text.specs.Statuses.{IsStop};

use crate::reasons::print_unread;
use bac_text::{Status, no_memory};
use std::alloc::Global;
use std::io;
use std::io::{Read, Write};

/// The files that a command line can name. Programs bring those of the system; tests bring their own.
pub trait OpenFiles {
    type File: Read + Drop;

    ghost is_file: { (path : List ℕ) → Self.File → Type 0 };

    /// Opens the file at a path for reading.
    fn open(&self, path: &str) -> io::Result<Self::File>
        ensures { IfOk result (λ f. Self.is_file path.now f) };

    /// Writes octets to the file at a path, in place of what it has. When this returns, they are on the disk.
    ///
    /// Returns an Err if the system refuses it, and then the file is unchanged. Files that are only read return `Unsupported`.
    fn write(&self, _path: &str, _octets: &[u8]) -> io::Result<()> {
        Err(io::Error::from(io::ErrorKind::Unsupported))
    }

    /// Writes octets to a file as [`OpenFiles::write`] does; they may also go into a pipe or a terminal.
    fn write_out(&self, path: &str, octets: &[u8]) -> io::Result<()> {
        self.write(path, octets)
    }

    /// Gives a file another name, and replaces the file that has that name.
    ///
    /// Returns an Err if the system refuses it. Files that are only read return `Unsupported`.
    fn rename(&self, _from: &str, _to: &str) -> io::Result<()> {
        Err(io::Error::from(io::ErrorKind::Unsupported))
    }

    /// Makes a folder, and the folders that it is in, if they are missing.
    ///
    /// Returns an Err if the system refuses it. Files that are only read return `Unsupported`.
    fn make_folder(&self, _path: &str) -> io::Result<()> {
        Err(io::Error::from(io::ErrorKind::Unsupported))
    }
}

/// Opens the file at a path for reading. If that fails, prints why on `err`, and returns the status.
pub fn opened<F: OpenFiles, E: Write>(files: &F, path: &str, err: &mut E) -> Result<F::File, Status>
    ensures opened { IfOk result (λ f. F.is_file path.now f) }
    ensures told { IfErr result IsStop }
{
    match files.open(path) {
        Ok(file) => Ok(file),
        Err(error) if error.kind() == io::ErrorKind::OutOfMemory => Err(no_memory(err)),
        Err(error) => Err(print_unread(path, &error, err)),
    }
}

/// All octets of a file that was opened at a path. If reading fails, prints why on `err`, and returns the status.
pub fn octets_of<F: Read + Drop, E: Write>(
    alloc: Global,
    path: &str,
    file: F,
    err: &mut E,
) -> Result<Vec<u8>, Status>
    ensures octets { IfOk result (λ v. IfSome (F.remaining file) (λ octets. v.items ≡ octets)) }
    ensures told { IfErr result IsStop }
{
    let mut file = file;
    let mut octets = Vec::new(alloc);
    match file.read_to_end(&mut octets) {
        Ok(_) => Ok(octets),
        Err(error) if error.kind() == io::ErrorKind::OutOfMemory => Err(no_memory(err)),
        Err(error) => Err(print_unread(path, &error, err)),
    }
}
