//! `bac read`: values alone.
ghost use Rattle.std.specs.Prelude.{◌≡◌, map, IfErr, IfOk, OnOk};
ghost use Rattle.bac_npdu.specs.Views.{peer_view};
ghost use Rattle.bac_service.specs.Views.{property_reference_view};
ghost use Rattle.bac_driver.specs.Runs.{timed};
ghost use Rattle.bac_text.specs.Statuses.{IsFailure, IsStop};
ghost use Rattle.bac_ask_report.specs.Records.{outcome_view};
ghost use Rattle.bac_environment.specs.Sockets.{OnClock, OnPort};
ghost use Rattle.bac_points.specs.Points.{ReadsIfHeard};
ghost use Rattle.bac_points.specs.Reads.{PrintsAnswer, ReadsByClient, ReadsLines, are_valued, is_valued};

use crate::performing::Desk;
use crate::questions::{WINDOW, lines_in};
use crate::silence::tell_next;
use bac_ask_report::Outcome;
use bac_asking::{Client, gather, outcome_of, print_header};
use bac_driver::AskEnd;
use bac_environment::{ClientSockets, LineQuestion};
use bac_point_report::{
    failure_lines, has_values, is_silent, shown, targets_in, value_line, values_of,
};
use bac_service::{AnyRequest, PropertyReference};
use bac_text::{Status, no_memory, output_failed};
use std::alloc::Global;
use std::io;
use std::io::{ErrorKind, Write};

/// Whether a line was answered with a value.
fn is_valued(line: &LineQuestion, end: &AskEnd) -> bool
    ensures { result ≡ is_valued line.now end.now }
{
    has_values(line.question.request.as_request(), outcome_of(end))
}

/// Whether each line was answered with a value.
fn are_valued(lines: &[LineQuestion], ends: &[AskEnd]) -> bool
    ensures { result ≡ are_valued lines.now ends.now }
{
    let mut lines = lines;
    let mut ends = ends;
    while let [line, more_lines @ ..] = lines {
        let [end, more_ends @ ..] = ends else {
            return false;
        };
        if !is_valued(line, end) {
            return false;
        }
        lines = more_lines;
        ends = more_ends;
    }
    true
}

/// Prints the value with which a read of a property was answered, behind the names of its object and property if those are shown. Where it got none, `err` says
/// why, unless nothing came back.
fn print_answer<O: Write, E: Write>(
    alloc: Global,
    is_named: bool,
    reference: PropertyReference,
    outcome: Outcome<'_>,
    out: &mut O,
    err: &mut E,
) -> io::Result<()>
    ensures { OnOk result (PrintsAnswer is_named (property_reference_view reference) (outcome_view outcome.entry) (O.contents out.old) (O.contents out.new)) }
{
    let Some(values) = values_of(AnyRequest::ReadProperty(reference), outcome) else {
        if !is_silent(outcome) {
            // if that fails too, only the status is left
            let _ = err.write_all(&failure_lines(alloc, reference, outcome)?);
        }
        return Ok(());
    };
    let Ok(value) = shown(alloc, reference, values) else {
        return Err(io::Error::from(ErrorKind::OutOfMemory));
    };
    let named = if is_named { Some(reference) } else { None };
    let line = value_line(alloc, named, &value)?;
    out.write_all(&line)
}

/// Prints the values with which lines were answered.
fn print_answers<O: Write, E: Write>(
    alloc: Global,
    lines: &[LineQuestion],
    ends: &[AskEnd],
    out: &mut O,
    err: &mut E,
) -> io::Result<()> {
    let is_named = lines.len() > 1;
    for (line, end) in lines.iter().zip(ends) {
        if let Some(reference) = line.question.request.as_request().property() {
            print_answer(alloc, is_named, reference, outcome_of(end), out, err)?;
        }
    }
    out.flush()
}

/// Prints how lines were answered as records.
fn print_records<M: ClientSockets, O: Write, E: Write>(
    desk: &Desk<'_, M>,
    client: &Client<'_, M>,
    lines: &[LineQuestion],
    ends: &[AskEnd],
    out: &mut O,
    err: &mut E,
) -> Result<(), Status>
    ensures { IfErr result IsFailure }
{
    print_header(desk.alloc, desk.asking, out, err)?;
    for (line, end) in lines.iter().zip(ends) {
        client.print_end(desk.asking, &line.question, end, out, err)?;
    }
    Ok(())
}

/// Prints how lines were answered, as is wanted.
fn print_ends<M: ClientSockets, O: Write, E: Write>(
    desk: &Desk<'_, M>,
    client: &Client<'_, M>,
    lines: &[LineQuestion],
    ends: &[AskEnd],
    out: &mut O,
    err: &mut E,
) -> Result<(), Status>
    ensures { IfErr result IsFailure }
{
    if desk.asking.records.is_some() {
        return print_records(desk, client, lines, ends, out, err);
    }
    match print_answers(desk.alloc, lines, ends, out, err) {
        Ok(()) => Ok(()),
        Err(error) => Err(output_failed(err, &error)),
    }
}

/// Reads the properties of lines, and prints their values. Answers whether each was answered with a value.
fn read_lines<M: ClientSockets, O: Write, E: Write>(
    desk: &Desk<'_, M>,
    client: &mut Client<'_, M>,
    lines: &[LineQuestion],
    out: &mut O,
    err: &mut E,
) -> Result<bool, Status>
    ensures read { IfOk result (λ all. ReadsLines (OnPort M.is_bound M.Link.failures M.Link.calls) desk.now.asking.now lines.now all
        (timed client.old.station.bound_node (M.Timer.told client.old.station.clock))
        (timed client.new.station.bound_node (M.Timer.told client.new.station.clock))) }
    ensures failed { IfErr result IsFailure }
{
    let ends = gather(desk.asking, WINDOW, client, lines, err)?;
    print_ends(desk, client, lines, &ends, out, err)?;
    desk.tell_if_silent(&ends, err);
    tell_next(&ends, err);
    Ok(are_valued(lines, &ends))
}

/// A new client does so.
fn read_by_client<M: ClientSockets, O: Write, E: Write>(
    desk: &Desk<'_, M>,
    lines: &[LineQuestion],
    out: &mut O,
    err: &mut E,
) -> Result<bool, Status>
    ensures read { IfOk result (λ all. ReadsByClient (OnPort M.is_bound M.Link.failures M.Link.calls) (OnClock M.is_made M.Timer.told) desk.now.asking.now
        lines.now all) }
    ensures failed { IfErr result IsFailure }
{
    let mut client = desk.client(err)?;
    read_lines(desk, &mut client, lines, out, err)
}

/// Reads the properties that words name, and prints their values. Answers whether each was answered with a value.
#[tactic(auto, using(crate::proofs::Hearing::unasked))]
pub(crate) fn read<M: ClientSockets, O: Write, E: Write>(
    desk: &Desk<'_, M>,
    words: &[&str],
    out: &mut O,
    err: &mut E,
) -> Result<bool, Status>
    ensures read { IfOk result (λ all. ReadsIfHeard desk.now.is_unheard (OnPort M.is_bound M.Link.failures M.Link.calls) (OnClock M.is_made M.Timer.told)
        desk.now.asking.now (peer_view desk.now.peer) (map (λ w. w.now) words.now) all) }
    ensures told { IfErr result IsStop }
{
    let Ok(targets) = targets_in(desk.alloc, words) else {
        return Err(no_memory(err));
    };
    let lines = lines_in(desk.alloc, desk.peer, &targets, err)?;
    if desk.tells_unheard(err) {
        return Ok(false);
    }
    read_by_client(desk, &lines, out, err)
}
