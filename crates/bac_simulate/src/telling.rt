//! The run of a script, told in words or as objects of JSON.
ghost use Rattle.std.specs.Prelude.{◌+◌, ◌++◌, ◌<◌, ◌^◌, length, map, IfOk, OnOk};
ghost use Rattle.std.specs.Io.KnownBytes.{Appends};
ghost use Rattle.bac_text.specs.Texts.{AppendsText};
ghost use Rattle.bac_simulate.specs.Runs.{Runs, Steps};
ghost use Rattle.bac_simulate.specs.Scripts.{Began, Happens, Lost, Paced};
ghost use Rattle.bac_simulate.specs.Told.{IsEndText, IsLostText, IsPacedText, told_in};
ghost use Rattle.bac_simulate.specs.Views.{happening_view, line_view};

use crate::event_style::EventStyle;
use crate::fault_words::change_fault_words;
use crate::line::{ClockPace, ClockStart};
use crate::moments::ms_now;
use crate::nothing::why_nothing;
use crate::printing::Seen;
use crate::script::ScriptLine;
use crate::simulate::{change_fault_in, pace_fault_number};
use crate::told::{Teller, end_text, outcome_text};
use bac_network::{Event, World, WorldFault};
use std::alloc::Global;
use std::io;
use std::io::Write;

/// Prints two texts, one after the other.
fn print_both<W: Write>(first: Vec<u8>, more: &[u8], out: &mut W) -> io::Result<()>
    ensures { OnOk result (Appends (W.contents out.old) (W.contents out.new) (first.items ++ more.now)) }
{
    let mut text = first;
    text.extend_from_slice(more)?;
    out.write_all(text.as_slice())
}

/// One event. Answers whether the script goes on.
fn print_event<W: Write>(
    alloc: Global,
    style: EventStyle,
    world: &mut World,
    line: u64,
    event: &Event,
    out: &mut W,
) -> io::Result<bool>
    ensures { IfOk result (λ passed. AppendsText (W.contents out.old) (W.contents out.new)
        (Steps (told_in style) line passed (Happens (happening_view event.now)) world.old world.new)) }
{
    let before = Seen::of(world);
    // before the event: the reason is that of the world as it was
    let why = why_nothing(world, event);
    let teller = Teller {
        alloc,
        style,
        moment: ms_now(world),
    };
    let head = teller.head_text(event)?;
    let fault = match world.step(event) {
        Ok(refused) => {
            let outcome = outcome_text(alloc, style, world, before, why, refused)?;
            print_both(head, outcome.as_slice(), out)?;
            return Ok(true);
        }
        Err(fault) => fault,
    };
    match change_fault_in(fault) {
        Some(why) => {
            let refusal = teller.refusal_text(why.number(), change_fault_words(why))?;
            print_both(head, refusal.as_slice(), out)?;
            Ok(true)
        }
        None => {
            print_end(alloc, style, line, fault.number(), out)?;
            Ok(false)
        }
    }
}

/// Prints the fault that ends a script at that line.
fn print_end<W: Write>(
    alloc: Global,
    style: EventStyle,
    line: u64,
    fault: u8,
    out: &mut W,
) -> io::Result<()>
    ensures { OnOk result (AppendsText (W.contents out.old) (W.contents out.new) (IsEndText style line fault)) }
{
    let text = end_text(alloc, style, line, fault)?;
    out.write_all(text.as_slice())
}

/// Prints that a copy counts as lost.
fn print_lost<W: Write>(teller: Teller, copy: u64, out: &mut W) -> io::Result<()>
    ensures { OnOk result (AppendsText (W.contents out.old) (W.contents out.new) (IsLostText teller.style teller.moment copy)) }
{
    let text = teller.lost_text(copy)?;
    out.write_all(text.as_slice())
}

/// Prints that a copy counts as lost, or that there is none. Answers whether there is one.
fn print_lost_copy<W: Write>(
    alloc: Global,
    style: EventStyle,
    world: &World,
    line: u64,
    copy: u64,
    out: &mut W,
) -> io::Result<bool>
    ensures { IfOk result (λ passed. AppendsText (W.contents out.old) (W.contents out.new)
        (Steps (told_in style) line passed (Lost copy) world.now world.now)) }
{
    if copy < world.copies().len() as u64 {
        let teller = Teller {
            alloc,
            style,
            moment: ms_now(world),
        };
        print_lost(teller, copy, out)?;
        Ok(true)
    } else {
        print_end(alloc, style, line, WorldFault::NoSuchDatagram.number(), out)?;
        Ok(false)
    }
}

/// Prints that a node's clock goes so fast from then on.
fn print_paced<W: Write>(teller: Teller, node: u64, rate: u32, out: &mut W) -> io::Result<()>
    ensures { OnOk result (AppendsText (W.contents out.old) (W.contents out.new) (IsPacedText teller.style teller.moment node rate)) }
{
    let text = teller.paced_text(node, rate)?;
    out.write_all(text.as_slice())
}

/// A node's clock goes so fast from now on; or the number of the fault. Answers whether it does.
fn print_pace<W: Write>(
    alloc: Global,
    style: EventStyle,
    world: &mut World,
    line: u64,
    clock: &ClockPace,
    out: &mut W,
) -> io::Result<bool>
    ensures { IfOk result (λ passed. AppendsText (W.contents out.old) (W.contents out.new)
        (Steps (told_in style) line passed (Paced clock.now.node clock.now.rate) world.old world.new)) }
{
    let teller = Teller {
        alloc,
        style,
        moment: ms_now(world),
    };
    match world.set_pace(clock.node as usize, clock.rate) {
        Ok(()) => {
            print_paced(teller, clock.node, clock.rate, out)?;
            Ok(true)
        }
        Err(fault) => {
            print_end(alloc, style, line, pace_fault_number(fault), out)?;
            Ok(false)
        }
    }
}

/// Passes over a clock that began with the script: prints nothing of it, or that there is no such node. Answers whether there is one.
fn print_start<W: Write>(
    alloc: Global,
    style: EventStyle,
    world: &World,
    line: u64,
    clock: &ClockStart,
    out: &mut W,
) -> io::Result<bool>
    ensures { IfOk result (λ passed. AppendsText (W.contents out.old) (W.contents out.new)
        (Steps (told_in style) line passed (Began clock.now.node clock.now.start) world.now world.now)) }
{
    if clock.node < world.nodes().len() as u64 {
        Ok(true)
    } else {
        print_end(alloc, style, line, WorldFault::NoSuchNode.number(), out)?;
        Ok(false)
    }
}

/// What a line says. Answers whether the script goes on.
fn print_line<W: Write>(
    alloc: Global,
    style: EventStyle,
    world: &mut World,
    line: u64,
    said: &ScriptLine,
    out: &mut W,
) -> io::Result<bool>
    ensures { IfOk result (λ passed. AppendsText (W.contents out.old) (W.contents out.new)
        (Steps (told_in style) line passed (line_view said.now) world.old world.new)) }
{
    match said {
        ScriptLine::Happens(event) => print_event(alloc, style, world, line, event, out),
        ScriptLine::Lost(copy) => print_lost_copy(alloc, style, world, line, *copy, out),
        ScriptLine::Note => Ok(true),
        ScriptLine::Began(clock) => print_start(alloc, style, world, line, clock, out),
        ScriptLine::Paced(clock) => print_pace(alloc, style, world, line, clock, out),
    }
}

/// What all lines say, up to the first that ends the script; so many lines stand before the first. Answers whether none did.
pub(crate) fn print_lines<W: Write>(
    alloc: Global,
    style: EventStyle,
    world: &mut World,
    before: u64,
    lines: &[ScriptLine],
    out: &mut W,
) -> io::Result<bool>
    requires { before + length lines.now < 2 ^ 64 }
    ensures { IfOk result (λ all. AppendsText (W.contents out.old) (W.contents out.new)
        (Runs (told_in style) (before + 1) (map line_view lines.now) all world.old world.new)) }
{
    for (place, said) in lines.iter().enumerate() {
        if !print_line(alloc, style, world, before + 1 + place as u64, said, out)? {
            return Ok(false);
        }
    }
    Ok(true)
}
