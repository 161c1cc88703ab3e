//! Telling of the program: its help, its manual, its version and its completion.
ghost use Rattle.bac_command_line.specs.Tasks.{IsTold};

use bac_system::Machine;
use bac_text::{Status, output_failed};
use bac_words::{Telling, nearest_command};
use std::alloc::Global;
use std::io;
use std::io::Write;

/// What is known of how the program was built, where that is told.
fn built_for<M: Machine>(machine: &M, telling: Telling<'_>) -> Option<String> {
    match telling {
        Telling::Version => machine.built(),
        _ => None,
    }
}

fn text_of(text: &Option<String>) -> Option<&str> {
    match text {
        Some(text) => Some(text.as_str()),
        None => None,
    }
}

/// Tells that no command has a name, and which one is most like it.
fn print_unknown<E: Write>(alloc: Global, name: &str, err: &mut E) -> io::Result<()> {
    match nearest_command(alloc, name) {
        Ok(Some(near)) => writeln!(err, "{name}: did you mean {near}?"),
        _ => writeln!(err, "{name}: `bac help` lists the commands"),
    }
}

/// Tells of the program. A name of no command: `no command`, and that name, on `err`.
#[tactic(auto, using(crate::proofs::FirstLines::failed_told))]
pub(crate) fn tell<M: Machine, O: Write, E: Write>(
    alloc: Global,
    machine: &M,
    telling: Telling<'_>,
    out: &mut O,
    err: &mut E,
) -> Status
    ensures { IsTold result }
{
    let built = built_for(machine, telling);
    match telling.write(alloc, text_of(&built), out) {
        Ok(true) => match out.flush() {
            Ok(()) => Status::Done,
            Err(error) => output_failed(err, &error),
        },
        Ok(false) => {
            // if that fails too, only the status is left
            let _ = err.writeln("no command");
            if let Telling::Help(Some(name)) = telling {
                let _ = print_unknown(alloc, name, err);
            }
            Status::CommandLine
        }
        Err(error) => output_failed(err, &error),
    }
}
