//! The second line of a complaint: which file, address or word it is about, and why.
ghost use Rattle.std.specs.Prelude.{◌≡◌};
ghost use Rattle.bac_text.specs.Statuses.{IsStop};
ghost use Rattle.bac_text.specs.declared.status.Status.TheVariants as status;

use crate::bad_word_text;
use bac_commands::link_fault;
use bac_service_text::BadWord;
use bac_text::{Status, complain, no_memory};
use std::alloc::Global;
use std::io;
use std::io::Write;

/// Prints that a file cannot be read, its path, and the system's reason.
pub(crate) fn print_unread<E: Write>(path: &str, error: &io::Error, err: &mut E) -> Status
    ensures { result ≡ status.CommandLine }
{
    let status = complain(err, "cannot read", Status::CommandLine);
    // if that fails too, only the status is left
    let _ = writeln!(err, "{path}: {error}");
    status
}

/// Prints that the system refuses a link, its address, and the system's reason.
pub fn print_no_link<E: Write>(host: [u8; 4], port: u16, error: &io::Error, err: &mut E) -> Status
    ensures { result ≡ status.Output }
{
    let status = link_fault(err);
    let [a, b, c, d] = host;
    // if that fails too, only the status is left
    let _ = writeln!(err, "{a}.{b}.{c}.{d}:{port}: {error}");
    status
}

/// Prints `bad words`, the word that names no object or property, and a name that is like it, if there is one.
pub fn print_bad_name<E: Write>(alloc: Global, word: BadWord<'_>, err: &mut E) -> Status
    ensures { IsStop result }
{
    let Ok(mut text) = bad_word_text(alloc, word) else {
        return no_memory(err);
    };
    if text.push(b'\n').is_err() {
        return no_memory(err);
    }
    let status = complain(err, "bad words", Status::CommandLine);
    // if that fails too, only the status is left
    let _ = err.write_all(&text);
    status
}
