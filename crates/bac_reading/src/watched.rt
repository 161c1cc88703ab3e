//! A file that remembers why it could not be read on.
ghost use Rattle.std.specs.Prelude.{◌≡◌};

use crate::digit_lines::DigitLines;
use std::io;
use std::io::Read;

/// A file that is read, and the first error that a read of it met. A signal that came between is none: who reads goes on after it.
#[derive(Drop)]
pub(crate) struct Watched<R> {
    pub file: R,
    pub error: Option<io::Error>,
    /// The lines of digits that it has given, where they are looked at.
    pub lines: Option<DigitLines>,
}

impl<R> Watched<R> {
    /// A file, before the first read.
    pub(crate) fn new(file: R, lines: Option<DigitLines>) -> Watched<R>
        ensures { result.file ≡ file }
    {
        Watched {
            file,
            error: None,
            lines,
        }
    }
}

/// Whether an error says that a file cannot be read on.
fn is_fault(error: &io::Error) -> bool {
    error.kind() != io::ErrorKind::Interrupted
}

/// Looks at octets that were read, where lines are looked at.
fn look(lines: &mut Option<DigitLines>, octets: &[u8]) {
    if let Some(lines) = lines {
        lines.see(octets);
    }
}

impl<R: Read> Read for Watched<R> {
    ghost remaining = { λ w. R.remaining w.file };

    fn read(&mut self, buffer: &mut [u8]) -> io::Result<usize> {
        match self.file.read(buffer) {
            Ok(count) => {
                look(&mut self.lines, &buffer[..count.min(buffer.len())]);
                Ok(count)
            }
            Err(error) => {
                if self.error.is_none() && is_fault(&error) {
                    self.error = Some(error);
                }
                Err(error)
            }
        }
    }
}
