//! The files of a folder, as its manifest lists them.
ghost use Rattle.std.specs.Prelude.{IfErr};
ghost use Rattle.bac_text.specs.Statuses.{IsStop};

use crate::comparing::digest_of;
use crate::folder::{Folder, MANIFEST};
use crate::manifest::{SavedFile, manifest_line, read_manifest_line};
use crate::reasons::print_bad_manifest;
use bac_environment::OpenFiles;
use bac_text::{Status, no_memory};
use bac_value::ObjectIdentifier;
use std::alloc::{AllocError, Global};
use std::io::Write;

/// Adds the line of a file to a manifest.
fn add_line(alloc: Global, file: &SavedFile, manifest: &mut Vec<u8>) -> Result<(), AllocError> {
    let line = manifest_line(alloc, file)?;
    manifest.extend_from_slice(&line)?;
    manifest.push(b'\n')?;
    Ok(())
}

/// Whether one of some files is that of an object.
pub(crate) fn has_object(files: &[SavedFile], object: ObjectIdentifier) -> bool {
    files.iter().any(|file| file.object == object)
}

/// The manifest of files that were saved, and of others that were not.
pub(crate) fn manifest_of(
    alloc: Global,
    saved: &[SavedFile],
    others: &[SavedFile],
) -> Result<Vec<u8>, AllocError> {
    let mut manifest = Vec::new(alloc);
    for file in saved {
        add_line(alloc, file, &mut manifest)?;
    }
    for file in others {
        if !has_object(saved, file.object) {
            add_line(alloc, file, &mut manifest)?;
        }
    }
    Ok(manifest)
}

/// Whether octets are those of a saved file.
pub(crate) fn are_saved(file: &SavedFile, octets: &[u8]) -> bool {
    octets.len() as u64 == file.length && digest_of(octets) == file.digest
}

impl<F: OpenFiles> Folder<'_, F> {
    /// The files of a manifest in it. A line of no such form: its number on `err`.
    pub(crate) fn files_in<E: Write>(
        &self,
        text: &[u8],
        err: &mut E,
    ) -> Result<Vec<SavedFile>, Status>
        ensures told { IfErr result IsStop }
    {
        let Ok(text) = std::str::from_utf8(text) else {
            return Err(print_bad_manifest(self.path, 1, err));
        };
        let mut files = Vec::new(self.alloc);
        for (place, line) in text.lines().enumerate() {
            let Ok(read) = read_manifest_line(self.alloc, line) else {
                return Err(no_memory(err));
            };
            let Some(file) = read else {
                let number = place.saturating_add(1);
                return Err(print_bad_manifest(self.path, number, err));
            };
            if files.push(file).is_err() {
                return Err(no_memory(err));
            }
        }
        Ok(files)
    }

    /// The files of its manifest.
    pub(crate) fn manifest_files<E: Write>(&self, err: &mut E) -> Result<Vec<SavedFile>, Status>
        ensures told { IfErr result IsStop }
    {
        let text = self.read(MANIFEST, err)?;
        self.files_in(&text, err)
    }
}
