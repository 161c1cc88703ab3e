//! How the program ends.
ghost use Rattle.std.specs.Prelude.{◌≡◌};
ghost use Rattle.std.specs.Process.{exit_status};
ghost use Rattle.bac_command_line.specs.Endings.{IsExit, number_at_end};
ghost use Rattle.bac_command_line.specs.Outputs.{has_reader_ended};

use crate::command::run;
use crate::piped::Piped;
use bac_environment::RegularFiles;
use bac_system::Machine;
use bac_text::Status;
use std::alloc::Global;
use std::io::Write;
use std::process::ExitCode;

/// The exit status of a program whose standard output nobody reads any more, as a shell tells it of one that SIGPIPE ended.
const READER_ENDED: u8 = 141;

/// The exit code of the program for a status, where the reader of its standard output has ended or not.
pub fn exit_code(status: Status, has_reader_ended: bool) -> ExitCode
    ensures { exit_status result ≡ number_at_end status has_reader_ended }
{
    match status {
        Status::Output if has_reader_ended => ExitCode::from(READER_ENDED),
        _ => ExitCode::from(status.code()),
    }
}

/// Does what the words of a command line ask for, as [`run`] does, and returns how the program ends: with 141 in place of 3 if nobody reads its standard output
/// any more.
pub fn run_to_end<F: RegularFiles, M: Machine, W: Write, E: Write>(
    alloc: Global,
    words: &[String],
    files: &F,
    machine: &M,
    out: &mut Piped<W>,
    err: &mut E,
) -> ExitCode
    ensures { IsExit (has_reader_ended out.new) (exit_status result) }
{
    let status = run(alloc, words, files, machine, out, err);
    exit_code(status, out.has_reader_ended())
}
