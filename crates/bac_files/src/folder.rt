//! The folder of a backup.
ghost use Rattle.std.specs.Prelude.{IfErr};
ghost use Rattle.bac_text.specs.Statuses.{IsStop};

use crate::reasons::{print_no_parent, print_unwritten};
use bac_environment::{OpenFiles, octets_of, opened};
use bac_text::{Status, no_memory};
use std::alloc::Global;
use std::io::{self, ErrorKind, Read, Write};

/// The name of the list of the files of a backup.
pub(crate) const MANIFEST: &str = "manifest";

/// What the name of a file ends in until `Folder::finish` gives it its own.
const UNFINISHED: &str = ".unfinished";

/// The path of the folder that a path leads into. None where it names one alone, or the root.
fn parent_of(path: &str) -> Option<&str> {
    let (parent, _) = path.trim_end_matches('/').rsplit_once('/')?;
    if parent.is_empty() {
        None
    } else {
        Some(parent)
    }
}

/// A folder, and the files that it is among.
#[derive(Drop)]
pub(crate) struct Folder<'e, F> {
    pub alloc: Global,
    pub files: &'e F,
    pub path: &'e str,
}

impl<F: OpenFiles> Folder<'_, F> {
    /// The path of a file in it.
    fn path_of<E: Write>(&self, name: &str, err: &mut E) -> Result<String, Status>
        ensures told { IfErr result IsStop }
    {
        let folder = self.path;
        match format!(in self.alloc; "{folder}/{name}") {
            Ok(path) => Ok(path),
            Err(_) => Err(no_memory(err)),
        }
    }

    /// Whether the folder at a path is missing. What is there and no folder is not missing.
    fn is_missing<E: Write>(&self, path: &str, err: &mut E) -> Result<bool, Status>
        ensures told { IfErr result IsStop }
    {
        // nothing but a folder opens under that name, so no pipe is waited for
        let Ok(path) = format!(in self.alloc; "{path}/.") else {
            return Err(no_memory(err));
        };
        match self.files.open(&path) {
            Ok(_) => Ok(false),
            Err(error) => Ok(error.kind() == ErrorKind::NotFound),
        }
    }

    /// Makes it, where it is not there; the folder that it is in is not made. Where that fails, `err` and the status say so.
    pub(crate) fn make<E: Write>(&self, err: &mut E) -> Result<(), Status>
        ensures told { IfErr result IsStop }
    {
        if let Some(parent) = parent_of(self.path) {
            if self.is_missing(parent, err)? {
                return Err(print_no_parent(self.path, parent, err));
            }
        }
        match self.files.make_folder(self.path) {
            Ok(()) => Ok(()),
            Err(error) => Err(print_unwritten(self.path, &error, err)),
        }
    }

    /// The path of a file in it that is not finished.
    fn unfinished_path<E: Write>(&self, name: &str, err: &mut E) -> Result<String, Status>
        ensures told { IfErr result IsStop }
    {
        let folder = self.path;
        match format!(in self.alloc; "{folder}/{name}{UNFINISHED}") {
            Ok(path) => Ok(path),
            Err(_) => Err(no_memory(err)),
        }
    }

    /// Writes octets beside a file in it, which stays as it is until `finish`, and reads them again. Where that fails, `err` and the status say so.
    pub(crate) fn write_unfinished<E: Write>(
        &self,
        name: &str,
        octets: &[u8],
        err: &mut E,
    ) -> Result<Vec<u8>, Status>
        ensures told { IfErr result IsStop }
    {
        let path = self.unfinished_path(name, err)?;
        if let Err(error) = self.files.write(&path, octets) {
            return Err(print_unwritten(&path, &error, err));
        }
        let file = opened(self.files, &path, err)?;
        octets_of(self.alloc, &path, file, err)
    }

    /// Complains that a file in it that is not finished has other octets than were written.
    pub(crate) fn print_altered<E: Write>(&self, name: &str, err: &mut E) -> Status
        ensures told { IsStop result }
    {
        let error = io::Error::new(
            ErrorKind::InvalidData,
            "its octets differ from those written",
        );
        match self.unfinished_path(name, err) {
            Ok(path) => print_unwritten(&path, &error, err),
            Err(status) => status,
        }
    }

    /// Puts what was written beside a file in its place. Where that fails, `err` and the status say so, and the file is as it was.
    pub(crate) fn finish<E: Write>(&self, name: &str, err: &mut E) -> Result<(), Status>
        ensures told { IfErr result IsStop }
    {
        let from = self.unfinished_path(name, err)?;
        let to = self.path_of(name, err)?;
        match self.files.rename(&from, &to) {
            Ok(()) => Ok(()),
            Err(error) => Err(print_unwritten(&to, &error, err)),
        }
    }

    /// The octets of a file in it, or None where there is no such file. Where it cannot be read, `err` and the status say so.
    pub(crate) fn read_if_there<E: Write>(
        &self,
        name: &str,
        err: &mut E,
    ) -> Result<Option<Vec<u8>>, Status>
        ensures told { IfErr result IsStop }
    {
        let path = self.path_of(name, err)?;
        match self.files.open(&path) {
            Err(error) if error.kind() == ErrorKind::NotFound => Ok(None),
            _ => Ok(Some(self.read(name, err)?)),
        }
    }

    /// The first octets of a file in it, at most so many. Where it cannot be read, `err` and the status say so.
    pub(crate) fn read_front<E: Write>(
        &self,
        name: &str,
        most: u64,
        err: &mut E,
    ) -> Result<Vec<u8>, Status>
        ensures told { IfErr result IsStop }
    {
        let path = self.path_of(name, err)?;
        let file = opened(self.files, &path, err)?;
        octets_of(self.alloc, &path, file.take(most), err)
    }

    /// The octets of a file in it. Where it cannot be read, `err` and the status say so.
    pub(crate) fn read<E: Write>(&self, name: &str, err: &mut E) -> Result<Vec<u8>, Status>
        ensures told { IfErr result IsStop }
    {
        let path = self.path_of(name, err)?;
        let file = opened(self.files, &path, err)?;
        octets_of(self.alloc, &path, file, err)
    }
}
