//! What a client asks, once or in rounds.
ghost use Rattle.std.specs.Prelude.{◌≡◌, IfErr, IfOk};
ghost use Rattle.bac_driver.specs.Runs.{timed};
ghost use Rattle.bac_driver.specs.Views.{question_view};
ghost use Rattle.bac_text.specs.Statuses.{IsFailure};
ghost use Rattle.bac_asking.specs.Asked.{AsksAll, ReportsClient, ReportsDoing};
ghost use Rattle.bac_asking.specs.AskedOne.{AsksOnce};
ghost use Rattle.bac_asking.specs.InFlight.{AsksLines};
ghost use Rattle.bac_asking.specs.Online.{IsHeaded};
ghost use Rattle.bac_environment.specs.Sockets.{OnClock, OnPort};
ghost use Rattle.bac_asking.specs.Rounds.{AreRounds, AreRoundsFrom, BeginsRound, Rests};
ghost use Rattle.bac_environment.specs.Limits.{turns_of};

use crate::answers::part_in;
use crate::asking::{Asking, Rounds};
use crate::asking_lines::{ask_each, ask_on, both};
use crate::client::Client;
use crate::pace::tell_late;
use crate::recording::{Printer, print_ask, print_header, print_unasked_record};
use crate::unsent::tell_unsent_of;
use crate::window::ask_ahead;
use bac_commands::{CommandError, Style};
use bac_driver::{AskEnd, Clock, Link, Question, RunLimit, WaitLimit};
use bac_environment::{ClientSockets, LineQuestion, NO_LINE, Station};
use bac_service::AnyRequest;
use bac_text::Status;
use bac_value::ObjectIdentifier;
use bac_value_text::object_text;
use std::alloc::Global;
use std::io;
use std::io::Write;

/// What a client asks.
#[derive(Drop)]
pub(crate) enum Asked {
    /// The request of some words.
    One(Question),
    /// Those of lines.
    Lines(Vec<LineQuestion>),
}

/// A node asks what lines ask, so many at once as is wanted. Answers whether all succeeded.
fn ask_lines<M: ClientSockets, O: Write, E: Write>(
    asking: &Asking,
    client: &mut Client<'_, M>,
    lines: &[LineQuestion],
    out: &mut O,
    err: &mut E,
) -> Result<bool, Status>
    ensures asked { IfOk result (λ all. AsksLines (OnPort M.is_bound M.Link.failures M.Link.calls) asking.now lines.now all
        (timed client.old.station.bound_node (M.Timer.told client.old.station.clock))
        (timed client.new.station.bound_node (M.Timer.told client.new.station.clock))
        (O.contents out.old) (O.contents out.new)) }
    ensures failed { IfErr result IsFailure }
{
    match asking.window {
        Some(window) => ask_ahead(asking, window, client, lines, out, err),
        None => ask_each(asking, client, lines, out, err),
    }
}

/// The one request says that there is no link from which it could be asked; not where octets of a file are printed alone.
fn print_stranded<O: Write>(
    printer: &Printer<'_>,
    question: &Question,
    out: &mut O,
) -> io::Result<()> {
    if let Some(form) = printer.asking.records {
        return print_unasked_record(printer, form, NO_LINE, question, out);
    }
    match printer.asking.output_format.style {
        Style::Numbers | Style::Words => {
            out.writeln("link fault")?;
            out.flush()
        }
        Style::Octets => Ok(()),
    }
}

/// Says of a file that so many octets of it were read, and that it goes on behind them.
fn print_going_on<E: Write>(
    alloc: Global,
    file: ObjectIdentifier,
    count: usize,
    err: &mut E,
) -> io::Result<()> {
    let mut line = object_text(alloc, file)?;
    let said = format!(in alloc; ": read stopped after {count} octets\n")?;
    line.extend_from_slice(said.as_bytes())?;
    err.write_all(&line)
}

/// Where octets of a file are printed alone, and it goes on behind them, `err` says so.
fn tell_going_on<E: Write>(printer: &Printer<'_>, question: &Question, end: &AskEnd, err: &mut E) {
    if printer.asking.output_format.style != Style::Octets {
        return;
    }
    let Some(part) = part_in(end) else {
        return;
    };
    match question.request.as_request() {
        AnyRequest::ReadFile(read) if !part.end_of_file => {
            let count = part.content.octets.len();
            // if that fails too, only the status is left
            let _ = print_going_on(printer.alloc, read.file, count, err);
        }
        _ => (),
    }
}

/// A client asks; where its node has nothing left for that, the next one does. How that ended is printed as is wanted; where octets of a
/// file are printed alone, and it goes on behind them, `err` says so. Answers whether it succeeded. Where there is no link for the next node, the request says so.
fn ask_one<M: ClientSockets, O: Write, E: Write>(
    asking: &Asking,
    client: &mut Client<'_, M>,
    question: &Question,
    out: &mut O,
    err: &mut E,
) -> Result<bool, Status>
    ensures asked { IfOk result (λ succeeded. AsksOnce (OnPort M.is_bound M.Link.failures M.Link.calls) asking.now (question_view question.now) succeeded
        (timed client.old.station.bound_node (M.Timer.told client.old.station.clock))
        (timed client.new.station.bound_node (M.Timer.told client.new.station.clock))
        (O.contents out.old) (O.contents out.new)) }
    ensures failed { IfErr result IsFailure }
{
    let end = match ask_on(asking, client, question, err) {
        Ok(end) => end,
        Err(status) => {
            if client.is_stranded {
                // if that fails too, only the status is left
                let _ = print_stranded(&client.printer(asking), question, out);
            }
            return Err(status);
        }
    };
    let printer = client.printer(asking);
    let succeeded = print_ask(&printer, NO_LINE, question, &end, out, err)?;
    tell_going_on(&printer, question, &end, err);
    Ok(succeeded)
}

/// A node asks all that, once. Answers whether all succeeded.
fn ask_all<M: ClientSockets, O: Write, E: Write>(
    asking: &Asking,
    client: &mut Client<'_, M>,
    asked: &Asked,
    out: &mut O,
    err: &mut E,
) -> Result<bool, Status>
    ensures asked { IfOk result (λ all. AsksAll (OnPort M.is_bound M.Link.failures M.Link.calls) asking.now asked.now all
        (timed client.old.station.bound_node (M.Timer.told client.old.station.clock))
        (timed client.new.station.bound_node (M.Timer.told client.new.station.clock))
        (O.contents out.old) (O.contents out.new)) }
    ensures failed { IfErr result IsFailure }
{
    match asked {
        Asked::One(question) => ask_one(asking, client, question, out, err),
        Asked::Lines(lines) => ask_lines(asking, client, lines, out, err),
    }
}

/// Until a moment a node hears what comes late, and does what is due.
fn hear_until<L: Link, C: Clock, E: Write>(
    station: &mut Station<L, C>,
    moment: u64,
    err: &mut E,
) -> Result<(), Status>
    ensures rested { IfOk result (λ _. Rests moment
        (timed station.old.bound_node (C.told station.old.clock)) (timed station.new.bound_node (C.told station.new.clock))) }
    ensures failed { IfErr result IsFailure }
{
    let limit = RunLimit {
        turns: u64::MAX,
        wait_limit: WaitLimit {
            wait: u64::MAX,
            until: Some(moment),
        },
    };
    match station.bound_node.serve(&mut station.clock, &limit) {
        Ok(_) => Ok(()),
        Err(fault) => {
            let own = station.bound_node.node().link();
            Err(CommandError::from(fault).report_at(own, err))
        }
    }
}

/// What came of a round.
#[derive(Clone, Copy, PartialEq, Eq)]
struct RoundEnd {
    /// When it began.
    began: u64,
    /// Whether all asks succeeded.
    succeeded: bool,
}

/// Once a moment has come, a round begins, in which a node asks all that. Where the round before took longer than that, `err` says how late this one is. Where
/// this one begins in time, and the next one is due before it has ended, `err` says so at once.
fn ask_round<M: ClientSockets, O: Write, E: Write>(
    asking: &Asking,
    client: &mut Client<'_, M>,
    asked: &Asked,
    from: u64,
    out: &mut O,
    err: &mut E,
) -> Result<RoundEnd, Status>
    ensures asked { IfOk result (λ r. BeginsRound (AsksAll (OnPort M.is_bound M.Link.failures M.Link.calls) asking.now asked.now) from r.began r.succeeded
        (timed client.old.station.bound_node (M.Timer.told client.old.station.clock))
        (timed client.new.station.bound_node (M.Timer.told client.new.station.clock))
        (O.contents out.old) (O.contents out.new)) }
    ensures failed { IfErr result IsFailure }
{
    client.rounds = client.rounds.saturating_add(1);
    let ended = client.station.bound_node.node().latest();
    hear_until(&mut client.station, from, err)?;
    let has_rested = client.station.bound_node.node().latest() > ended;
    let began = client.station.clock.now();
    let late = began.saturating_sub(from);
    let is_late = tell_late(client.rounds, late, has_rested, err);
    client.due = asking.due_after(client.rounds, from, began, is_late);
    let succeeded = ask_all(asking, client, asked, out, err)?;
    Ok(RoundEnd { began, succeeded })
}

/// A node asks all that in so many rounds. Answers whether all asks succeeded.
fn ask_rounds<M: ClientSockets, O: Write, E: Write>(
    asking: &Asking,
    client: &mut Client<'_, M>,
    asked: &Asked,
    rounds: Rounds,
    out: &mut O,
    err: &mut E,
) -> Result<bool, Status>
    ensures asked { IfOk result (λ all. AreRoundsFrom (AsksAll (OnPort M.is_bound M.Link.failures M.Link.calls) asking.now asked.now) rounds.every (turns_of rounds.times) 0 all
        (timed client.old.station.bound_node (M.Timer.told client.old.station.clock))
        (timed client.new.station.bound_node (M.Timer.told client.new.station.clock))
        (O.contents out.old) (O.contents out.new)) }
    ensures failed { IfErr result IsFailure }
{
    let times = rounds.most();
    let mut all = true;
    let mut from = 0;
    for _ in 0..times {
        let round = ask_round(asking, client, asked, from, out, err)?;
        all = both(all, round.succeeded);
        from = rounds.next_from(from, round.began);
    }
    Ok(all)
}

/// A node asks all that: once, or in the rounds that are wanted. Answers whether all asks succeeded.
fn ask_once_or_in_rounds<M: ClientSockets, O: Write, E: Write>(
    asking: &Asking,
    client: &mut Client<'_, M>,
    asked: &Asked,
    out: &mut O,
    err: &mut E,
) -> Result<bool, Status>
    ensures asked { IfOk result (λ all. AreRounds asking.now.rounds (AsksAll (OnPort M.is_bound M.Link.failures M.Link.calls) asking.now asked.now) all
        (timed client.old.station.bound_node (M.Timer.told client.old.station.clock))
        (timed client.new.station.bound_node (M.Timer.told client.new.station.clock))
        (O.contents out.old) (O.contents out.new)) }
    ensures failed { IfErr result IsFailure }
{
    match asking.rounds {
        Some(rounds) => ask_rounds(asking, client, asked, rounds, out, err),
        None => ask_all(asking, client, asked, out, err),
    }
}

/// A node asks all that, below the line that stands above records, if any. Answers whether all asks succeeded.
fn ask_headed<M: ClientSockets, O: Write, E: Write>(
    asking: &Asking,
    client: &mut Client<'_, M>,
    asked: &Asked,
    out: &mut O,
    err: &mut E,
) -> Result<bool, Status>
    ensures asked { IfOk result (λ all. IsHeaded asking.now.records asking.now.has_names (AreRounds asking.now.rounds (AsksAll (OnPort M.is_bound M.Link.failures M.Link.calls) asking.now asked.now)) all
        (timed client.old.station.bound_node (M.Timer.told client.old.station.clock))
        (timed client.new.station.bound_node (M.Timer.told client.new.station.clock))
        (O.contents out.old) (O.contents out.new)) }
    ensures failed { IfErr result IsFailure }
{
    print_header(client.station.alloc, asking, out, err)?;
    ask_once_or_in_rounds(asking, client, asked, out, err)
}

/// A node asks all that, headed. The status says whether all asks succeeded, or why asking stopped.
#[tactic(auto, using(bac_commands::proofs::Statuses::failed))]
fn ask_and_report<M: ClientSockets, O: Write, E: Write>(
    asking: &Asking,
    client: &mut Client<'_, M>,
    asked: &Asked,
    out: &mut O,
    err: &mut E,
) -> Status
    ensures { ReportsDoing result (IsHeaded asking.now.records asking.now.has_names (AreRounds asking.now.rounds (AsksAll (OnPort M.is_bound M.Link.failures M.Link.calls) asking.now asked.now)))
        (timed client.old.station.bound_node (M.Timer.told client.old.station.clock))
        (timed client.new.station.bound_node (M.Timer.told client.new.station.clock))
        (O.contents out.old) (O.contents out.new) }
{
    match ask_headed(asking, client, asked, out, err) {
        Ok(true) => Status::Done,
        Ok(false) => Status::Faulty,
        Err(status) => status,
    }
}

/// A new client, at the port and with the first invoke ID that the machine says, asks all that, in rounds where they are wanted.
pub(crate) fn ask_by_client<M: ClientSockets, O: Write, E: Write>(
    alloc: Global,
    machine: &M,
    asking: &Asking,
    asked: &Asked,
    out: &mut O,
    err: &mut E,
) -> Status
    ensures { ReportsClient (OnPort M.is_bound M.Link.failures M.Link.calls) (OnClock M.is_made M.Timer.told) result asking.now asked.now
        (O.contents out.old) (O.contents out.new) }
{
    let mut client = match Client::new(alloc, machine, asking.host, err) {
        Ok(client) => client,
        Err(status) => return status,
    };
    let status = ask_and_report(asking, &mut client, asked, out, err);
    tell_unsent_of(status, machine, asked, err);
    status
}
