//! The second line of a complaint: which file or line it is about, and why.

use crate::watched::Watched;
use bac_forms::FRAME_ADVICE;
use bac_text::Status;
use std::io::Write;

/// Where the status of a command says that it could not read what a file has, tells which file, and why: the system's reason where a read failed, or else that
/// text, if there is one.
pub(crate) fn print_unfit<R, E: Write>(
    status: Status,
    path: &str,
    file: &Watched<R>,
    text: Option<&str>,
    err: &mut E,
) {
    if status != Status::CommandLine {
        return;
    }
    // if that fails too, only the status is left
    if let Some(error) = &file.error {
        let _ = writeln!(err, "{path}: {error}");
    } else if let Some(text) = text {
        let _ = writeln!(err, "{path}: {text}");
    }
}

/// Where the status of a command says that some datagram has a fault, tells of lines that were to be hexadecimal the first that is none, and why, with a hint.
pub(crate) fn print_bad_digits<R, E: Write>(
    status: Status,
    file: &Watched<R>,
    hint: &str,
    err: &mut E,
) {
    if status != Status::Faulty {
        return;
    }
    if let Some(lines) = &file.lines {
        lines.print_bad(hint, err);
    }
}

/// Where the status of a command says that some datagram has a fault, tells how frames are read, if a line of digits was one.
pub(crate) fn print_frames<R, E: Write>(status: Status, file: &Watched<R>, err: &mut E) {
    let Some(lines) = &file.lines else {
        return;
    };
    if status == Status::Faulty && lines.have_frame() {
        // if that fails too, only the status is left
        let _ = err.writeln(FRAME_ADVICE);
    }
}
