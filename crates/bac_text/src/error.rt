//! Why a pass over a capture stopped, and the messages for it.
ghost use Rattle.bac_text.specs.Stops.{IsStopBy, IsStopFor};
ghost use Rattle.bac_text.specs.Statuses.{IsStop, IsFailure};
ghost use Rattle.std.specs.Prelude.{◌≡◌, ◌≢◌};
ghost use Rattle.std.specs.IoError.{error_kind};
ghost use Rattle.bac_text.specs.declared.status.Status.TheVariants.{CommandLine, Memory};

use crate::status::{Status, complain, no_memory, output_failed};
use std::io;
use std::io::{ErrorKind, Write};
use thiserror::Error;

/// Why checking, or another pass over an input, stopped.
#[derive(Debug, Drop, Error)]
pub enum CheckError {
    /// The input cannot be read.
    #[error("cannot read: {0}")]
    Input(io::Error),
    /// The output cannot be written.
    #[error("cannot write: {0}")]
    Output(io::Error),
    /// An allocation failed.
    #[error("no memory")]
    Memory,
}

/// The status for an input that cannot be read; a failed allocation has its own.
fn input_failed<E: Write>(err: &mut E, error: &io::Error) -> Status
    ensures memory { error_kind error.now ≡ ErrorKind.OutOfMemory → result ≡ Memory }
    ensures input { error_kind error.now ≢ ErrorKind.OutOfMemory → result ≡ CommandLine }
    ensures stop { IsStop result }
{
    match error.kind() {
        ErrorKind::OutOfMemory => no_memory(err),
        _ => complain(err, "cannot read", Status::CommandLine),
    }
}

/// Prints why a pass stopped, if the output could be flushed.
fn stopped_by<E: Write>(error: CheckError, err: &mut E) -> Status
    ensures why { IsStopBy error result }
    ensures stop { IsStop result }
{
    match error {
        CheckError::Input(error) => input_failed(err, &error),
        CheckError::Output(error) => output_failed(err, &error),
        CheckError::Memory => no_memory(err),
    }
}

/// Prints why a pass stopped, or that the output could not be flushed then.
fn stopped_so<E: Write>(error: CheckError, flushed: io::Result<()>, err: &mut E) -> Status
    ensures why { IsStopFor flushed error result }
    ensures stop { IsStop result }
{
    match flushed {
        Ok(()) => stopped_by(error, err),
        Err(failed) => match error {
            CheckError::Output(error) => output_failed(err, &error),
            CheckError::Input(_) | CheckError::Memory => output_failed(err, &failed),
        },
    }
}

/// Prints on `err` why a pass over an input stopped, and returns the status: `CommandLine` after `cannot read` for the input, `Output` for the
/// output, and `Memory` after `no memory` for a failed allocation. Flushes `out` first, as far as possible.
pub fn stopped<O: Write, E: Write>(error: CheckError, out: &mut O, err: &mut E) -> Status
    ensures { IsStop result }
{
    let flushed = out.flush();
    stopped_so(error, flushed, err)
}
