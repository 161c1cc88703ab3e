//! What an open that is refused leaves behind: no file that was not there, but for one that was being made when the disk failed.
use crate::fault::OpenFault;
use crate::whole::EMPTY;
use std::alloc::AllocError;
use std::fs;

/// Which of the two files at a path were there.
#[derive(Clone, Copy)]
pub(crate) struct Traces {
    had_file: bool,
    had_log: bool,
}

/// The path of the log of the file at a path.
fn log_path(rt: &HostRuntime, path: &str) -> Result<String, AllocError> {
    format!(in rt.alloc(); "{path}-wal")
}

/// Whether there is something at a path; that it is so where it can't be told.
fn is_there(rt: &HostRuntime, path: &str) -> bool {
    match fs::symlink_metadata(rt, path) {
        Ok(_) => true,
        Err(error) => error.kind() != std::io::ErrorKind::NotFound,
    }
}

/// Removes a file that has at most so many octets.
fn remove_short(rt: &HostRuntime, path: &str, most: u64) {
    let is_short = match fs::symlink_metadata(rt, path) {
        Ok(found) => found.is_file() && found.len() <= most,
        Err(_) => false,
    };
    if is_short {
        // if that fails, a file without content is left
        let _ = fs::remove_file(rt, path);
    }
}

impl Traces {
    /// What is at a path before it is opened.
    pub(crate) fn at(rt: &HostRuntime, path: &str) -> Traces {
        Traces {
            had_file: is_there(rt, path),
            had_log: match log_path(rt, path) {
                Ok(log) => is_there(rt, log.as_str()),
                // as if it were there, so that nothing of another is removed
                Err(_) => true,
            },
        }
    }

    /// Removes what was not there before an open that was refused for that fault, and has no content: an empty file, and a log without frames. If the disk or
    /// memory failed while the file was written, its log stays: the next open goes on with the two, as after a power cut.
    pub(crate) fn remove(self, rt: &HostRuntime, path: &str, fault: OpenFault) {
        if !self.had_file {
            remove_short(rt, path, 0);
        }
        let may_need_log = match fault {
            OpenFault::Disk | OpenFault::NoMemory | OpenFault::Database(_) => is_there(rt, path),
            _ => false,
        };
        if self.had_log || may_need_log {
            return;
        }
        if let Ok(log) = log_path(rt, path) {
            remove_short(rt, log.as_str(), EMPTY as u64);
        }
    }
}
