//! Files that a server follows.
ghost use Rattle.std.specs.Prelude.{IfOk};

use crate::OpenFiles;
use std::io;

/// The files of a command line that a server can follow: regular ones, which never let a read wait.
pub trait RegularFiles: OpenFiles {
    /// Opens the regular file at a path for reading, if it has at most so many octets now. This does not wait for another program.
    ///
    /// Returns `FileTooLarge` if it has more, and another Err if it is no regular file, or the system refuses to open it.
    fn open_regular(&self, path: &str, most: u64) -> io::Result<Self::File>
        ensures { IfOk result (λ f. Self.is_file path.now f) };
}
