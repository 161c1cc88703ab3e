//! The run of a script, as what there is to draw of it.
ghost use Rattle.std.specs.Prelude.{◌≡◌, ◌+◌, ◌<◌, ◌≤◌, ◌^◌, ◌++◌, ◌∷◌, [], false, drop, length, map, IfOk, OnOk};
ghost use Rattle.std.specs.Option.{option_map};
ghost use Rattle.bac_chart.specs.Views.{mark_view};
ghost use Rattle.bac_journal.specs.Notes.{note_view};
ghost use Rattle.bac_journal.specs.Views.{copy_view};
ghost use Rattle.bac_network.specs.Views.{fact_view};
ghost use Rattle.bac_simulate.specs.Drawn.{in_marks};
ghost use Rattle.bac_simulate.specs.Runs.{Runs, Steps};
ghost use Rattle.bac_simulate.specs.Scripts.{Happens, Lost, Paced};
ghost use Rattle.bac_simulate.specs.Traces.{facts_marks, news_marks, optional_marks, refused_mark, sent_marks, AddsMarks, AppendsMarks};
ghost use Rattle.bac_simulate.specs.Views.{happening_view, line_view};

use crate::line::ClockPace;
use crate::marks::{add, arrow_of, coming_in, fact_mark, paced_mark, refused_mark};
use crate::moments::{ms_now, parts_in};
use crate::printing::Seen;
use crate::script::ScriptLine;
use crate::simulate::{change_fault_in, pace_fault_number};
use bac_chart::Mark;
use bac_commands::print_fault;
use bac_journal::{Copy, Note};
use bac_network::{Event, Fact, World, WorldFault};
use std::alloc::{AllocError, Global};
use std::io;
use std::io::Write;

/// Adds the facts after so many.
fn add_facts(
    alloc: Global,
    now: u64,
    asks: &[Note],
    log: &[Fact],
    before: usize,
    marks: &mut Vec<Mark>,
) -> io::Result<()>
    ensures { OnOk result (AddsMarks marks.old.items marks.new.items (facts_marks now (map note_view asks.now) (drop before (map fact_view log.now)))) }
{
    for number in before..log.len() {
        add(fact_mark(alloc, now, asks, &log[number])?, marks)?;
    }
    Ok(())
}

/// Adds the copies after so many.
fn add_copies(
    alloc: Global,
    parts: u64,
    copies: &[Copy],
    before: usize,
    marks: &mut Vec<Mark>,
) -> Result<(), AllocError>
    requires { 1 ≤ parts }
    ensures { OnOk result (AddsMarks marks.old.items marks.new.items (sent_marks parts before (drop before (map copy_view copies.now)))) }
{
    for number in before..copies.len() {
        let arrow = arrow_of(alloc, parts, number, &copies[number])?;
        marks.push(Mark::Sent(arrow))?;
    }
    Ok(())
}

/// Adds what came to a node, and what is new in the world since then.
fn add_news(
    alloc: Global,
    world: &World,
    before: Seen,
    coming: Option<Mark>,
    marks: &mut Vec<Mark>,
) -> io::Result<()>
    ensures { OnOk result (AddsMarks marks.old.items marks.new.items
        (optional_marks (option_map mark_view coming) ++ news_marks before.facts before.copies world.now)) }
{
    add(coming, marks)?;
    add_facts(
        alloc,
        ms_now(world),
        world.asks(),
        world.log(),
        before.facts,
        marks,
    )?;
    add_copies(alloc, parts_in(world), world.copies(), before.copies, marks)?;
    Ok(())
}

/// Adds that an event was refused, by the number of the fault.
fn add_refused(
    alloc: Global,
    now: u64,
    event: &Event,
    fault: u8,
    marks: &mut Vec<Mark>,
) -> Result<(), AllocError>
    ensures { OnOk result (AddsMarks marks.old.items marks.new.items (refused_mark now (happening_view event.now) fault ∷ [])) }
{
    let mark = refused_mark(alloc, now, event, fault)?;
    marks.push(mark)?;
    Ok(())
}

/// Prints the fault that ends a script; if that fails too, only the status is left.
fn stops<E: Write>(line: u64, fault: u8, err: &mut E) -> bool
    ensures { result ≡ false }
{
    let _ = print_fault(line, fault, err);
    false
}

/// One event. Answers whether the script goes on; where not, `err` says why.
fn trace_event<E: Write>(
    alloc: Global,
    world: &mut World,
    line: u64,
    event: &Event,
    marks: &mut Vec<Mark>,
    err: &mut E,
) -> io::Result<bool>
    ensures { IfOk result (λ passed. AppendsMarks marks.old.items marks.new.items
        (Steps in_marks line passed (Happens (happening_view event.now)) world.old world.new)) }
{
    let before = Seen::of(world);
    let now = ms_now(world);
    // before the event, which changes what may come
    let coming = coming_in(alloc, world, event)?;
    let fault = match world.step(event) {
        Ok(None) => {
            add_news(alloc, world, before, coming, marks)?;
            return Ok(true);
        }
        Ok(Some(fault)) => {
            add_refused(alloc, now, event, fault.number(), marks)?;
            return Ok(true);
        }
        Err(fault) => fault,
    };
    match change_fault_in(fault) {
        Some(why) => {
            add_refused(alloc, now, event, why.number(), marks)?;
            Ok(true)
        }
        None => Ok(stops(line, fault.number(), err)),
    }
}

/// A node's clock goes so fast from now on. Answers whether it does; where not, `err` says why.
fn trace_pace<E: Write>(
    alloc: Global,
    world: &mut World,
    line: u64,
    clock: &ClockPace,
    marks: &mut Vec<Mark>,
    err: &mut E,
) -> io::Result<bool>
    ensures { IfOk result (λ passed. AppendsMarks marks.old.items marks.new.items
        (Steps in_marks line passed (Paced clock.now.node clock.now.rate) world.old world.new)) }
{
    let mark = paced_mark(alloc, ms_now(world), clock.node, clock.rate)?;
    match world.set_pace(clock.node as usize, clock.rate) {
        Ok(()) => {
            marks.push(mark)?;
            Ok(true)
        }
        Err(fault) => Ok(stops(line, pace_fault_number(fault), err)),
    }
}

/// What a line says. Answers whether the script goes on.
fn trace_line<E: Write>(
    alloc: Global,
    world: &mut World,
    line: u64,
    said: &ScriptLine,
    marks: &mut Vec<Mark>,
    err: &mut E,
) -> io::Result<bool>
    ensures { IfOk result (λ passed. AppendsMarks marks.old.items marks.new.items (Steps in_marks line passed (line_view said.now) world.old world.new)) }
{
    match said {
        ScriptLine::Happens(event) => trace_event(alloc, world, line, event, marks, err),
        ScriptLine::Lost(copy) if *copy < world.copies().len() as u64 => Ok(true),
        ScriptLine::Lost(_) => Ok(stops(line, WorldFault::NoSuchDatagram.number(), err)),
        ScriptLine::Note => Ok(true),
        ScriptLine::Began(clock) if clock.node < world.nodes().len() as u64 => Ok(true),
        ScriptLine::Began(_) => Ok(stops(line, WorldFault::NoSuchNode.number(), err)),
        ScriptLine::Paced(clock) => trace_pace(alloc, world, line, clock, marks, err),
    }
}

/// What all lines say, up to the first that ends the script; so many lines stand before the first. Answers whether none did.
pub(crate) fn trace_lines<E: Write>(
    alloc: Global,
    world: &mut World,
    before: u64,
    lines: &[ScriptLine],
    marks: &mut Vec<Mark>,
    err: &mut E,
) -> io::Result<bool>
    requires { before + length lines.now < 2 ^ 64 }
    ensures { IfOk result (λ all. AppendsMarks marks.old.items marks.new.items
        (Runs in_marks (before + 1) (map line_view lines.now) all world.old world.new)) }
{
    for (place, said) in lines.iter().enumerate() {
        if !trace_line(alloc, world, before + 1 + place as u64, said, marks, err)? {
            return Ok(false);
        }
    }
    Ok(true)
}
