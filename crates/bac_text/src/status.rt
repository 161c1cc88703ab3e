//! How a command ended, and complaints.
ghost use Rattle.std.specs.Prelude.{◌≡◌, ◌≢◌};
ghost use Rattle.bac_text.specs.Statuses.{exit_status, IsFailure};
ghost use Rattle.std.specs.IoError.{error_kind};
ghost use Rattle.bac_text.specs.declared.status.Status.TheVariants.{Memory, Output};

use std::io;
use std::io::{ErrorKind, Write};

/// How a command ended. `status as u8` is the exit status of the program.
#[derive(Clone, Copy, Debug, PartialEq, Eq)]
pub enum Status {
    /// What was asked for was printed.
    Done = 0,
    /// What was asked for was printed, and it has a fault.
    Faulty = 1,
    /// The words of the command line are of no form, or what they name cannot be read.
    CommandLine = 2,
    /// Standard output could not be written.
    Output = 3,
    /// An allocation was refused.
    Memory = 4,
}

impl Status {
    /// The exit status of the program.
    pub fn code(self) -> u8
        ensures { result ≡ exit_status self }
    {
        self as u8
    }
}

/// Prints a complaint; if that fails too, only the status is left.
pub fn complain<E: Write>(err: &mut E, message: &str, status: Status) -> Status
    ensures { result ≡ status }
{
    let _ = err.writeln(message);
    status
}

/// Complains of out of memory.
pub fn no_memory<E: Write>(err: &mut E) -> Status
    ensures { result ≡ Memory }
{
    complain(err, "no memory", Status::Memory)
}

/// Complains that standard output cannot be written, and of the reason, or of out of memory, which has a status of its own. Where the reader of a pipe has
/// ended, as `head` does, nothing is told.
pub fn output_failed<E: Write>(err: &mut E, error: &io::Error) -> Status
    ensures memory { error_kind error.now ≡ ErrorKind.OutOfMemory → result ≡ Memory }
    ensures output { error_kind error.now ≢ ErrorKind.OutOfMemory → result ≡ Output }
    ensures failed { IsFailure result }
{
    match error.kind() {
        ErrorKind::OutOfMemory => no_memory(err),
        ErrorKind::BrokenPipe => Status::Output,
        _ => {
            let status = complain(err, "cannot write", Status::Output);
            // if that fails too, only the status is left
            let _ = writeln!(err, "standard output: {error}");
            status
        }
    }
}
