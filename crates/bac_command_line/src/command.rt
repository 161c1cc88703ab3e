//! Doing what a command line asks for: over any files, links and writers.
ghost use Rattle.bac_environment.specs.Files.{OnFile};
ghost use Rattle.bac_serving.specs.Forgetting.{OnForgotten};
ghost use Rattle.bac_serving.specs.Keeping.{OnDatabase};
ghost use Rattle.bac_serving.specs.Listing.{OnListed};
ghost use Rattle.bac_environment.specs.Sockets.{OnClock, OnPort};
ghost use Rattle.std.specs.Prelude.{◌≡◌, ⊤, MatchBool, OnErr, OnOk};
ghost use Rattle.bac_text.specs.Statuses.{IsFailure};
ghost use Rattle.bac_command_line.specs.Endings.{EndsAs};
ghost use Rattle.bac_command_line.specs.Outputs.{begun_in};
ghost use Rattle.bac_command_line.specs.ShownForms.{form_of as form_in};
ghost use Rattle.bac_command_line.specs.Tasks.{ForgetsAsAsked, IsAtEnd, IsPerformed, ListsAsAsked};

use crate::complaints::form_of_complaints;
use crate::output::Output;
use crate::reasons::print_no_task;
use crate::shown_form::form_of;
use crate::task::{Task, task_of};
use crate::telling::tell;
use crate::told::{Told, is_brief};
use bac_asking::{ask, ask_lines, pair};
use bac_environment::{Environment, RegularFiles};
use bac_files::do_with_files;
use bac_points::do_with_points;
use bac_reading::{decode, print_report, simulate};
use bac_serving::{answer, forget_kept, list_kept, serve, serve_kept, serve_looking};
use bac_system::Machine;
use bac_text::{Status, no_memory, output_failed};
use bac_words::{Telling, matches};
use clap::ArgMatches;
use clap::error::ErrorKind;
use std::alloc::Global;
use std::io;
use std::io::Write;

/// Does what was asked for.
fn perform<F: RegularFiles, M: Machine, O: Write, E: Write>(
    environment: &Environment<'_, F, M>,
    task: Task<'_, '_>,
    out: &mut O,
    err: &mut E,
) -> Status
    ensures performed { IsPerformed (OnFile F.is_file F.File.remaining) (OnPort M.is_bound M.Link.failures M.Link.calls) (OnClock M.is_made M.Timer.told)
        (OnDatabase M.is_database M.Database.view M.Database.recovers) task.entry result (O.contents out.old) (O.contents out.new) }
    ensures forgotten { ForgetsAsAsked (OnForgotten M.is_database M.Database.view M.Database.recovers) task.entry result (O.contents out.old) (O.contents out.new) }
    ensures listed { ListsAsAsked (OnListed M.is_database M.Database.view) task.entry result (O.contents out.old) (O.contents out.new) }
{
    let alloc = environment.alloc;
    let files = environment.files;
    match task {
        Task::Answer { datagram, objects } => { answer(alloc, files, datagram, objects, out, err) }
        Task::Decode {
            decoding,
            datagrams,
        } => { decode(alloc, files, decoding, datagrams, out, err) }
        Task::Report { report, capture } => {
            print_report(alloc, files, report, &capture, out, err)
        }
        Task::Simulate { view, script } => simulate(alloc, files, view, &script, out, err),
        Task::Serve { serving, objects } => { serve(environment, &serving, objects, out, err) }
        Task::ServeLooking { serving, objects } => {
            serve_looking(environment, &serving, objects, out, err)
        }
        Task::ServeKept {
            serving,
            objects,
            path,
        } => serve_kept(environment, &serving, objects, path, out, err),
        Task::Keep { path, loss, form } => list_kept(environment, path, loss, form, out, err),
        Task::Forget(forgetting) => forget_kept(environment, forgetting, out, err),
        Task::Ask {
            asking,
            peer,
            words,
        } => ask(environment, &asking, peer, words, out, err),
        Task::AskLines {
            asking,
            default,
            path,
        } => ask_lines(environment, &asking, default, path, out, err),
        Task::Files { task, work } => do_with_files(environment, &task, work, out, err),
        Task::Points(task) => do_with_points(environment, &task, out, err),
        Task::Pair => pair(alloc, environment.machine, out, err),
        Task::Tell(telling) => tell(alloc, environment.machine, telling, out, err),
    }
}

/// Whether it was told that standard output cannot be written, or that memory is out.
fn has_failed(status: Status) -> bool
    ensures { MatchBool result (IsFailure status) ⊤ }
{
    matches!(status, Status::Output | Status::Memory)
}

/// The status of a task whose last octets could be written, or not.
fn status_at_end<E: Write>(status: Status, ended: io::Result<()>, err: &mut E) -> Status
    ensures kept { OnOk ended (result ≡ status) }
    ensures told { OnErr ended (IsFailure result) }
    ensures end { IsAtEnd status result }
{
    match ended {
        // what the status tells already is not told again
        Err(error) if !has_failed(status) => output_failed(err, &error),
        _ => status,
    }
}

/// Does what was asked for. What it prints is shown in the form of the task, and flushed at its end: a full disk is told, whether the task flushes or not.
#[tactic(auto, using(crate::proofs::Endings::ends_as))]
fn perform_shown<F: RegularFiles, M: Machine, O: Write, E: Write>(
    environment: &Environment<'_, F, M>,
    task: Task<'_, '_>,
    out: &mut O,
    err: &mut E,
) -> Status
    ensures { EndsAs (IsPerformed (OnFile F.is_file F.File.remaining) (OnPort M.is_bound M.Link.failures M.Link.calls) (OnClock M.is_made M.Timer.told)
        (OnDatabase M.is_database M.Database.view M.Database.recovers) task.entry) (begun_in (form_in task.entry) (O.contents out.old)) result }
{
    let mut shown = Output::new(environment.alloc, form_of(&task), out);
    let status = perform(environment, task, &mut shown, err);
    let (below, ended) = shown.finish();
    let ended = match ended {
        Ok(()) => below.flush(),
        failed => failed,
    };
    status_at_end(status, ended, err)
}

/// Whether the words of a command line are `--version` alone, behind the program's name.
fn asks_version(words: &[String]) -> bool {
    match words {
        [_, word] => word.as_str() == "--version",
        _ => false,
    }
}

/// Whether words ask for help by `--help` or `-h`, by what clap makes of them.
fn asks_help(parsed: &Result<ArgMatches<'_>, clap::Error>) -> bool {
    match parsed {
        Err(error) => error.kind() == ErrorKind::DisplayHelp,
        Ok(_) => false,
    }
}

/// The command that the words of a command line name, behind the program's name; None where an option stands there, or nothing.
fn command_in(words: &[String]) -> Option<&str> {
    match words {
        [_, name, ..] if !name.starts_with('-') => Some(name.as_str()),
        _ => None,
    }
}

/// What the words of a command line ask to be told of the program by an option, if they do.
fn told_by_option<'a>(
    words: &'a [String],
    parsed: &Result<ArgMatches<'_>, clap::Error>,
) -> Option<Telling<'a>> {
    if asks_version(words) {
        Some(Telling::Version)
    } else if asks_help(parsed) {
        Some(Telling::Help(command_in(words)))
    } else {
        None
    }
}

/// Does what parsed words ask for.
fn run_parsed<F: RegularFiles, M: Machine, O: Write, E: Write>(
    environment: &Environment<'_, F, M>,
    parsed: Result<ArgMatches<'_>, clap::Error>,
    out: &mut O,
    err: &mut E,
) -> Status {
    let matches = match parsed {
        Ok(matches) => matches,
        Err(error) if error.kind() == ErrorKind::OutOfMemory => return no_memory(err),
        Err(error) => {
            // if that fails too, only the status is left
            let _ = write!(err, "{error}");
            return Status::CommandLine;
        }
    };
    let machine = environment.machine;
    let is_terminal = machine.shows_progress();
    let tells_why = is_terminal || !is_brief(&matches);
    let mut told = Told::new(err, tells_why);
    match task_of(&matches, is_terminal, tells_why) {
        Some(task) => perform_shown(environment, task.from_source(machine), out, &mut told),
        None => print_no_task(&matches, &mut told),
    }
}

/// Does what the words of a command line ask for; the first word is the program's name. `--version` alone does what the command `version` does, and
/// `--help` or `-h` what `help` does, for the command that is named.
///
/// Words of no form: clap's text on `err`, and `CommandLine`. Out of memory: `no memory` on `err`. Where a brief command line fails and standard error is no
/// terminal, `err` gets one line; otherwise what went wrong, and why.
///
/// What would act on a terminal or hide is escaped, in what is printed and in complaints. It is not in octets of a file or a capture, or in what is
/// wanted as it came. Nor is it in the complaints of a command that draws its progress on a terminal.
pub fn run<F: RegularFiles, M: Machine, O: Write, E: Write>(
    alloc: Global,
    words: &[String],
    files: &F,
    machine: &M,
    out: &mut O,
    err: &mut E,
) -> Status {
    let parsed = matches(alloc, words);
    let form = form_of_complaints(&parsed, machine.shows_progress());
    let mut told = Output::new(alloc, form, err);
    let environment = Environment {
        alloc,
        files,
        machine,
    };
    let status = match told_by_option(words, &parsed) {
        Some(telling) => perform_shown(&environment, Task::Tell(telling), out, &mut told),
        None => run_parsed(&environment, parsed, out, &mut told),
    };
    // if its last octets cannot be written, only the status is left
    let _ = told.finish();
    status
}
