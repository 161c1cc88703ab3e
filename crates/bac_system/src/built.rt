//! How this program was built, as the scripts that build and install it wrote down.
use std::time::SystemTime;
use std::{env, fs};

/// Where that lies, from the folder of the program.
const NOTES: [&str; 2] = ["bac.build", "../share/bac/bac.build"];

/// The most octets that a note has in its first line.
const MOST: usize = 200;

/// The first line of a note.
fn line_of(runtime: &HostRuntime, octets: &[u8]) -> Option<String> {
    let line = octets.split(|octet| *octet == b'\n').next()?;
    if line.is_empty() || line.len() > MOST {
        return None;
    }
    let text = std::str::from_utf8(line).ok()?;
    String::from_str(runtime.alloc(), text).ok()
}

/// When a file was written.
fn written_at(runtime: &HostRuntime, path: &str) -> Option<SystemTime> {
    fs::metadata(runtime, path).ok()?.modified().ok()
}

/// What a note says that is not older than the program. An older one tells of another program.
fn note_at(runtime: &HostRuntime, path: &str, since: SystemTime) -> Option<String> {
    if written_at(runtime, path)? < since {
        return None;
    }
    line_of(runtime, &fs::read(runtime, path).ok()?)
}

/// What the note says that lies beside this program, or where its other files are installed.
pub(crate) fn built_beside(runtime: &HostRuntime) -> Option<String> {
    let program = env::current_exe(runtime).ok()?;
    let since = written_at(runtime, program.as_str())?;
    for note in NOTES {
        let path = program.with_file_name(runtime.alloc(), note).ok()?;
        if let Some(built) = note_at(runtime, path.as_str(), since) {
            return Some(built);
        }
    }
    None
}
