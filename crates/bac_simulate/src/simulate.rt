//! `bac simulate`, over any reader and writers.
ghost use Rattle.std.specs.Prelude.{◌≡◌, ◌+◌, ◌<◌, ◌^◌, length, map, IfOk, IfSome, Ok, false};
ghost use Rattle.bac_network.specs.Histories.{WorldView};
ghost use Rattle.bac_text.specs.Lines.{lines_of};
ghost use Rattle.bac_text.specs.Texts.{AppendsText};
ghost use Rattle.bac_simulate.specs.Runs.{Goes, IsEnd, IsRun, IsStep, IsUnread, Reports, Simulates, SimulatesAs, SimulatesIn, change_fault_in};
ghost use Rattle.bac_simulate.specs.Runs.{pace_fault_number, status_for, status_of};
ghost use Rattle.bac_simulate.specs.Scripts.{Began, Happens, Lost, Paced, limits_in, said_from, script_of};
ghost use Rattle.bac_simulate.specs.Views.{happening_view, line_view};

use crate::bad_line::refuse;
use crate::line::{ClockPace, ClockStart};
use crate::printing::{Seen, print_lost, print_outcome, print_paced};
use crate::read_script::ReadScript;
use crate::script::{ScriptFault, ScriptLine, lines_in};
use crate::script_reading::read_script;
use bac_commands::{print_fault, print_refused};
use bac_network::{Event, PaceFault, World, WorldFault};
use bac_store::ChangeFault;
use bac_text::{Status, complain, no_memory, output_failed};
use std::alloc::Global;
use std::io;
use std::io::{ErrorKind, Read, Write};

/// The fault of a change; any other ends a script.
pub(crate) fn change_fault_in(fault: WorldFault) -> Option<ChangeFault>
    ensures { result ≡ change_fault_in fault }
{
    match fault {
        WorldFault::BadChange(why) => Some(why),
        WorldFault::NoSuchNode
        | WorldFault::NoSuchDatagram
        | WorldFault::NodeLink
        | WorldFault::TooSoon
        | WorldFault::ClockEnd
        | WorldFault::NoMemory => None,
    }
}

/// One event, and what is printed of it; the number of the fault where it does not happen. Answers whether the script goes on: a change that the store refuses
/// doesn't end it.
fn event_and_print<W: Write>(
    alloc: Global,
    world: &mut World,
    line: u64,
    event: &Event,
    out: &mut W,
) -> io::Result<bool>
    ensures { IfOk result (λ passed. AppendsText (W.contents out.old) (W.contents out.new)
        (IsStep line passed (Happens (happening_view event.now)) world.old world.new)) }
{
    let before = Seen::of(world);
    let fault = match world.step(event) {
        Ok(refused) => {
            print_outcome(alloc, world, before, refused, out)?;
            return Ok(true);
        }
        Err(fault) => fault,
    };
    match change_fault_in(fault) {
        Some(why) => {
            print_refused(why.number(), out)?;
            Ok(true)
        }
        None => {
            print_fault(line, fault.number(), out)?;
            Ok(false)
        }
    }
}

/// Prints that a copy counts as lost, or that there is none; nothing changes. Answers whether there is one.
fn count_lost<W: Write>(world: &World, line: u64, copy: u64, out: &mut W) -> io::Result<bool>
    ensures { IfOk result (λ passed. AppendsText (W.contents out.old) (W.contents out.new)
        (IsStep line passed (Lost copy) world.now world.now)) }
{
    if copy < world.copies().len() as u64 {
        print_lost(copy, out)?;
        Ok(true)
    } else {
        print_fault(line, WorldFault::NoSuchDatagram.number(), out)?;
        Ok(false)
    }
}

/// Passes over a clock that began with the script: prints nothing of it, or that there is no such node; nothing changes. Answers whether there is
/// one.
fn pass_start<W: Write>(
    world: &World,
    line: u64,
    clock: &ClockStart,
    out: &mut W,
) -> io::Result<bool>
    ensures { IfOk result (λ passed. AppendsText (W.contents out.old) (W.contents out.new)
        (IsStep line passed (Began clock.now.node clock.now.start) world.now world.now)) }
{
    if clock.node < world.nodes().len() as u64 {
        Ok(true)
    } else {
        print_fault(line, WorldFault::NoSuchNode.number(), out)?;
        Ok(false)
    }
}

/// The number of the fault of a clock that keeps its pace.
pub(crate) fn pace_fault_number(fault: PaceFault) -> u8
    ensures { result ≡ pace_fault_number fault }
{
    match fault {
        PaceFault::NoSuchNode => 1,
        PaceFault::BadPace => 11,
    }
}

/// A node's clock goes so fast from now on, and that is printed; or the number of the fault. Answers whether it does.
fn pace_and_print<W: Write>(
    alloc: Global,
    world: &mut World,
    line: u64,
    clock: &ClockPace,
    out: &mut W,
) -> io::Result<bool>
    ensures { IfOk result (λ passed. AppendsText (W.contents out.old) (W.contents out.new)
        (IsStep line passed (Paced clock.now.node clock.now.rate) world.old world.new)) }
{
    match world.set_pace(clock.node as usize, clock.rate) {
        Ok(()) => {
            print_paced(alloc, clock.node, clock.rate, out)?;
            Ok(true)
        }
        Err(fault) => {
            print_fault(line, pace_fault_number(fault), out)?;
            Ok(false)
        }
    }
}

/// What a line says comes, and what is printed of it. Answers whether the script goes on.
fn step_and_print<W: Write>(
    alloc: Global,
    world: &mut World,
    line: u64,
    said: &ScriptLine,
    out: &mut W,
) -> io::Result<bool>
    ensures { IfOk result (λ passed. AppendsText (W.contents out.old) (W.contents out.new)
        (IsStep line passed (line_view said.now) world.old world.new)) }
{
    match said {
        ScriptLine::Happens(event) => event_and_print(alloc, world, line, event, out),
        ScriptLine::Lost(copy) => count_lost(world, line, *copy, out),
        ScriptLine::Note => Ok(true),
        ScriptLine::Began(clock) => pass_start(world, line, clock, out),
        ScriptLine::Paced(clock) => pace_and_print(alloc, world, line, clock, out),
    }
}

/// What all lines say, up to the first that ends the script; so many lines stand before the first. Answers whether none did.
fn run_and_print<W: Write>(
    alloc: Global,
    world: &mut World,
    before: u64,
    lines: &[ScriptLine],
    out: &mut W,
) -> io::Result<bool>
    requires { before + length lines.now < 2 ^ 64 }
    ensures { IfOk result (λ all. AppendsText (W.contents out.old) (W.contents out.new)
        (IsRun (before + 1) (map line_view lines.now) all world.old world.new)) }
{
    for (place, said) in lines.iter().enumerate() {
        if !step_and_print(alloc, world, before + 1 + place as u64, said, out)? {
            return Ok(false);
        }
    }
    Ok(true)
}

fn status_of(all: bool) -> Status
    ensures { result ≡ status_of all }
{
    if all { Status::Done } else { Status::Faulty }
}

/// How a run ended whose output was flushed then.
pub(crate) fn ended<E: Write>(ran: io::Result<bool>, flushed: io::Result<()>, err: &mut E) -> Status
    ensures { IsEnd ran flushed result }
{
    match ran {
        Ok(all) => match flushed {
            Ok(()) => status_of(all),
            Err(error) => output_failed(err, &error),
        },
        Err(error) => output_failed(err, &error),
    }
}

/// Runs what lines say in a world, where so many stand before them.
fn run_said<O: Write, E: Write>(
    alloc: Global,
    world: &mut World,
    before: u64,
    lines: &[ScriptLine],
    out: &mut O,
    err: &mut E,
) -> Status
    requires { before + length lines.now < 2 ^ 64 }
    ensures { Goes (before + 1) (Ok (map line_view lines.now)) world.old world.new (O.contents out.old) (O.contents out.new) result }
{
    let ran = run_and_print(alloc, world, before, lines, out);
    let flushed = out.flush();
    ended(ran, flushed, err)
}

/// Complains of octets that are no lines of a script.
fn no_script<E: Write>(fault: ScriptFault, err: &mut E) -> Status
    ensures { result ≡ status_for fault }
{
    match fault {
        ScriptFault::Line(number) => {
            // if that fails too, only the status is left
            let _ = writeln!(err, "line {number}: not a script line");
            Status::CommandLine
        }
        ScriptFault::NoMemory => no_memory(err),
    }
}

/// Lines of a script that are to be read.
#[derive(Drop)]
struct ScriptText<'t> {
    /// Whether notes are taken.
    notes: bool,
    /// How many lines stand before them.
    before: u64,
    text: &'t [u8],
}

/// Runs lines in a world; all are read before the first event.
fn run_lines<O: Write, E: Write>(
    alloc: Global,
    world: &mut World,
    script: &ScriptText<'_>,
    out: &mut O,
    err: &mut E,
) -> Status
    requires { script.now.before + length script.now.text.now < 2 ^ 64 }
    ensures { Goes (script.now.before + 1) (said_from script.now.notes false (limits_in world.old.nodes) (script.now.before + 1)
        (lines_of script.now.text.now)) world.old world.new (O.contents out.old) (O.contents out.new) result }
{
    match lines_in(
        alloc,
        world,
        script.notes,
        false,
        script.before,
        script.text,
    ) {
        Ok(lines) => run_said(alloc, world, script.before, &lines, out, err),
        Err(fault) => no_script(fault, err),
    }
}

/// Runs event lines, as a script has them after its first line, in a world of the caller's, and prints what comes of each event. The lines are counted from
/// 1. An ask goes by what the asked node takes of APDUs.
///
/// It prints, complains and answers what [`simulate_over`] does; a world whose lines are not all read stays as it was.
pub fn simulate_in<O: Write, E: Write>(
    alloc: Global,
    world: &mut World,
    text: &[u8],
    out: &mut O,
    err: &mut E,
) -> Status
    ensures { SimulatesIn text.now world.old world.new (O.contents out.old) (O.contents out.new) result }
{
    let script = ScriptText {
        notes: false,
        before: 0,
        text,
    };
    run_lines(alloc, world, &script, out, err)
}

/// Runs a script that was read.
fn run_script<O: Write, E: Write>(
    alloc: Global,
    script: ReadScript,
    out: &mut O,
    err: &mut E,
) -> Status
    ensures { (last : WorldView) × Goes (script.before + 1) (Ok (map line_view script.lines.items)) script.world last (O.contents out.old)
        (O.contents out.new) result }
{
    let ReadScript {
        mut world,
        before,
        lines,
        ..
    } = script;
    run_said(alloc, &mut world, before, &lines, out, err)
}

/// What parts a complaint from its reason: that stands on the next line, where it is wanted.
fn before_reason(reasons: bool) -> Option<&'static str> {
    if reasons { Some("\n") } else { None }
}

/// Runs the script that these octets are; all its lines are read before the first event.
fn simulate<O: Write, E: Write>(
    alloc: Global,
    notes: bool,
    reasons: bool,
    text: &[u8],
    out: &mut O,
    err: &mut E,
) -> Status
    ensures { Reports (script_of notes (lines_of text.now)) (O.contents out.old) (O.contents out.new) result }
{
    match read_script(alloc, notes, text) {
        Ok(script) => run_script(alloc, script, out, err),
        Err(fault) => refuse(alloc, notes, text, fault, before_reason(reasons), err),
    }
}

/// All octets of an input.
pub(crate) fn octets_of<R: Read>(alloc: Global, input: &mut R) -> io::Result<Vec<u8>>
    ensures { IfOk result (λ text. IfSome (R.remaining input.old) (λ octets. text.items ≡ octets)) }
{
    let mut text = Vec::new(alloc);
    input.read_to_end(&mut text)?;
    Ok(text)
}

/// Complains of an input that could not be read.
pub(crate) fn unread<E: Write>(error: &io::Error, err: &mut E) -> Status
    ensures { IsUnread result }
{
    match error.kind() {
        ErrorKind::OutOfMemory => no_memory(err),
        _ => complain(err, "cannot read", Status::CommandLine),
    }
}

/// Runs a script of events in a network of nodes, each with a house store of its own, and prints what comes of each event. All lines are read before the
/// first event. Where notes are taken, lines may end in a carriage return and a line feed, and blank lines and those that begin with `#` are passed over.
///
/// An event may name no node or no copy, or a link of a node as a stranger's. Or the clock or the memory has no room for it. Then it prints `line L:
/// fault F` and ends the run with `Faulty`, as a clock of no node does. A refused ask, and a change that a node's store refuses, print `refused F`,
/// and the run goes on. A line of no form: `line L: not a script line` on `err`, and with `reasons` on the next line what is wrong with it, where
/// memory suffices; an input that cannot be read: `cannot read`; out of memory outside an event: `no memory`. `Output` where `out` cannot be written.
pub fn simulate_lines_over<R: Read, O: Write, E: Write>(
    alloc: Global,
    notes: bool,
    reasons: bool,
    input: &mut R,
    out: &mut O,
    err: &mut E,
) -> Status
    ensures { SimulatesAs notes (R.remaining input.old) (O.contents out.old) (O.contents out.new) result }
{
    match octets_of(alloc, input) {
        Ok(text) => simulate(alloc, notes, reasons, &text, out, err),
        Err(error) => unread(&error, err),
    }
}

/// Runs a script as [`simulate_lines_over`] does, without notes and reasons: each line is one of the script.
pub fn simulate_over<R: Read, O: Write, E: Write>(
    alloc: Global,
    input: &mut R,
    out: &mut O,
    err: &mut E,
) -> Status
    ensures { Simulates (R.remaining input.old) (O.contents out.old) (O.contents out.new) result }
{
    simulate_lines_over(alloc, false, false, input, out, err)
}
