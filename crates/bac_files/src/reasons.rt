//! The second line of a complaint: which file or words it is about, and why.
ghost use Rattle.std.specs.Prelude.{◌≡◌};
ghost use Rattle.bac_text.specs.Statuses.{IsStop};
ghost use Rattle.bac_text.specs.declared.status.Status.TheVariants as status;

use bac_text::{Status, complain, no_memory};
use std::io;
use std::io::Write;

/// Complains that a file or a folder cannot be written, and tells which and the system's reason.
pub(crate) fn print_unwritten<E: Write>(path: &str, error: &io::Error, err: &mut E) -> Status
    ensures told { IsStop result }
{
    if error.kind() == io::ErrorKind::OutOfMemory {
        return no_memory(err);
    }
    let status = complain(err, "cannot write", Status::Output);
    // if that fails too, only the status is left
    let _ = writeln!(err, "{path}: {error}");
    status
}

/// Complains that a folder cannot be made, as the one that it is to be in is missing.
pub(crate) fn print_no_parent<E: Write>(path: &str, parent: &str, err: &mut E) -> Status
    ensures told { IsStop result }
{
    let status = complain(err, "cannot write", Status::Output);
    // if that fails too, only the status is left
    let _ = writeln!(err, "{path}: the folder {parent} is missing");
    status
}

/// Complains of words that ask for no whole file, where one was to be written.
pub(crate) fn print_no_whole_file<E: Write>(err: &mut E) -> Status
    ensures { result ≡ status.CommandLine }
{
    let status = complain(err, "bad words", Status::CommandLine);
    // if that fails too, only the status is left
    let _ = err.writeln("--out requires a whole file: `get T:I`");
    status
}

/// Complains of a line of a manifest that is none.
pub(crate) fn print_bad_manifest<E: Write>(folder: &str, number: usize, err: &mut E) -> Status
    ensures told { IsStop result }
{
    // if that fails too, only the status is left
    let _ = writeln!(
        err,
        "{folder}/manifest: line {number}: expected a digest, a length and a file name such as file-1.bin"
    );
    Status::CommandLine
}

/// Tells that the object-list of a peer has no files.
pub(crate) fn print_no_files<E: Write>(err: &mut E) {
    // if that fails too, only the status is left
    let _ = err.writeln("object-list: no files");
}

/// Tells that the manifest of a folder has no files.
pub(crate) fn print_empty_manifest<E: Write>(folder: &str, err: &mut E) {
    // if that fails too, only the status is left
    let _ = writeln!(err, "{folder}/manifest: no files");
}

/// Tells that no file was saved, and that what is in the folder is as it was, if an earlier backup is there.
pub(crate) fn print_nothing_saved<E: Write>(folder: &str, has_earlier: bool, err: &mut E) {
    // if that fails too, only the status is left
    let _ = if has_earlier {
        writeln!(
            err,
            "nothing was saved: the earlier backup in {folder} is unchanged"
        )
    } else {
        writeln!(err, "nothing was saved in {folder}")
    };
}

/// Tells that no file was written back.
pub(crate) fn print_nothing_restored<E: Write>(err: &mut E) {
    // if that fails too, only the status is left
    let _ = err.writeln("nothing was restored");
}
