//! Requests of lines, asked one after the other: what `ask --lines` does.
ghost use Rattle.std.specs.Prelude.{◌≡◌, ◌&&◌, map, None, Some, IfErr, IfOk, IsErrOf};
ghost use Rattle.std.specs.Option.{option_map};
ghost use Rattle.bac_npdu.specs.Views.{peer_view};
ghost use Rattle.bac_driver.specs.Runs.{timed};
ghost use Rattle.bac_driver.specs.Views.{question_view};
ghost use Rattle.bac_text.specs.Statuses.{IsFailure, IsStop};
ghost use Rattle.bac_asking.specs.Asked.{AreAskedFrom, status_of};
ghost use Rattle.bac_environment.specs.QuestionLines.{line_view};
ghost use Rattle.bac_asking.specs.AskedLines.{AreRead, AsksEach, AsksLine, IsTextOf};
ghost use Rattle.bac_asking.specs.Clients.{AsksAt, AsksFrom, AsksOn, IsReady, ends_spent};
ghost use Rattle.bac_environment.specs.Files.{OfFile, OnFile};
ghost use Rattle.bac_environment.specs.Sockets.{OnClock, OnPort};

use crate::asking::Asking;
use crate::client::Client;
use crate::ends::{print_front, write_front};
use crate::recording::{Printer, RecordForm, print_ask, print_unasked_record};
use crate::rounds::{Asked, ask_by_client};
use bac_commands::{AskCommand, ask_unprinted, is_spent};
use bac_driver::{AskEnd, Clock, Link, Question};
use bac_environment::{
    ClientSockets, Environment, LineQuestion, OpenFiles, Station, octets_of, opened, questions_in,
};
use bac_npdu::{LinkAddress, Peer};
use bac_text::Status;
use std::alloc::Global;
use std::io;
use std::io::Write;

/// A node asks, and waits for the end as from a moment on. Answers how that ended.
fn ask_at<L: Link, C: Clock, E: Write>(
    asking: &Asking,
    station: &mut Station<L, C>,
    start: u64,
    question: &Question,
    err: &mut E,
) -> Result<AskEnd, Status>
    ensures asked { IfOk result (λ end. AsksAt start asking.now (question_view question.now) end
        (timed station.old.bound_node (C.told station.old.clock)) (timed station.new.bound_node (C.told station.new.clock))) }
    ensures failed { IfErr result IsFailure }
{
    let command = AskCommand {
        question,
        wait_limit: asking.wait_limit(start),
        output_format: asking.output_format,
        shows_progress: asking.shows_progress,
    };
    match ask_unprinted(&mut station.bound_node, &mut station.clock, &command, err) {
        Ok(end) => Ok(end),
        Err(fault) => Err(fault.report_at(station.bound_node.node().link(), err)),
    }
}

/// The same from the moment of the clock on.
fn ask_from<L: Link, C: Clock, E: Write>(
    asking: &Asking,
    station: &mut Station<L, C>,
    question: &Question,
    err: &mut E,
) -> Result<AskEnd, Status>
    ensures asked { IfOk result (λ end. AsksFrom asking.now (question_view question.now) end
        (timed station.old.bound_node (C.told station.old.clock)) (timed station.new.bound_node (C.told station.new.clock))) }
    ensures failed { IfErr result IsFailure }
{
    let start = station.clock.now();
    ask_at(asking, station, start, question, err)
}

/// Whether an ask ended since its node has no invoke ID or no slot left for it.
fn ends_spent(end: &AskEnd) -> bool
    ensures { result ≡ ends_spent end.now }
{
    match end {
        AskEnd::Refused(fault) => is_spent(*fault),
        AskEnd::Ended(_) => false,
        AskEnd::NoEnding => false,
    }
}

/// A client that is to ask a node looks at its clock. If its own node has asked for 30 seconds, the next one asks from now on. Returns the moment.
fn get_ready<M: ClientSockets, E: Write>(
    asking: &Asking,
    client: &mut Client<'_, M>,
    link: LinkAddress,
    err: &mut E,
) -> Result<u64, Status>
    ensures ready { IfOk result (λ start. IsReady (OnPort M.is_bound M.Link.failures M.Link.calls) start
        (timed client.old.station.bound_node (M.Timer.told client.old.station.clock))
        (timed client.new.station.bound_node (M.Timer.told client.new.station.clock))) }
    ensures failed { IfErr result IsFailure }
{
    let start = client.station.clock.now();
    if !client.is_over(start) {
        return Ok(start);
    }
    client.replace(asking.host, link, err)?;
    Ok(start)
}

/// A client asks a question. If its node may not ask any more, or has nothing left for it, the next node does. Returns how that ended.
///
/// If the link, the clock or an allocation fails, prints why on `err`, and returns the status.
pub fn ask_on<M: ClientSockets, E: Write>(
    asking: &Asking,
    client: &mut Client<'_, M>,
    question: &Question,
    err: &mut E,
) -> Result<AskEnd, Status>
    ensures asked { IfOk result (λ end. AsksOn (OnPort M.is_bound M.Link.failures M.Link.calls) asking.now (question_view question.now) end
        (timed client.old.station.bound_node (M.Timer.told client.old.station.clock))
        (timed client.new.station.bound_node (M.Timer.told client.new.station.clock))) }
    ensures failed { IfErr result IsFailure }
{
    let link = question.peer.link;
    let start = get_ready(asking, client, link, err)?;
    let end = ask_at(asking, &mut client.station, start, question, err)?;
    if !ends_spent(&end) {
        return Ok(end);
    }
    drop(end);
    client.replace(asking.host, link, err)?;
    ask_from(asking, &mut client.station, question, err)
}

/// The record of a line says that there is no link from which it could be asked.
fn print_unasked_line<O: Write>(
    printer: &Printer<'_>,
    form: RecordForm,
    line: &LineQuestion,
    out: &mut O,
) -> io::Result<()> {
    let asker = line.asker(printer.asking.has_names);
    print_unasked_record(printer, form, asker, &line.question, out)
}

/// The line says that there is no link from which it could be asked.
pub(crate) fn print_unasked<O: Write>(
    printer: &Printer<'_>,
    line: &LineQuestion,
    out: &mut O,
) -> io::Result<()> {
    if let Some(form) = printer.asking.records {
        return print_unasked_line(printer, form, line, out);
    }
    write_front(line, out)?;
    out.writeln("link fault")?;
    out.flush()
}

/// Behind the number of a line, it says that there is no link from which it could be asked, and so do the others.
fn print_stranded<O: Write>(
    printer: &Printer<'_>,
    line: &LineQuestion,
    others: &[LineQuestion],
    out: &mut O,
) -> io::Result<()> {
    match printer.asking.records {
        Some(form) => print_unasked_line(printer, form, line, out)?,
        None => {
            writeln!(out, "link fault")?;
            out.flush()?;
        }
    }
    for line in others {
        print_unasked(printer, line, out)?;
    }
    Ok(())
}

/// A client asks what a line asks; how that ended is printed behind the line's number. Answers whether it succeeded. Where there is no link for its next node,
/// this line and the others say so.
fn ask_line<M: ClientSockets, O: Write, E: Write>(
    asking: &Asking,
    client: &mut Client<'_, M>,
    line: &LineQuestion,
    others: &[LineQuestion],
    out: &mut O,
    err: &mut E,
) -> Result<bool, Status>
    ensures asked { IfOk result (λ succeeded. AsksLine (OnPort M.is_bound M.Link.failures M.Link.calls) asking.now line.now succeeded
        (timed client.old.station.bound_node (M.Timer.told client.old.station.clock))
        (timed client.new.station.bound_node (M.Timer.told client.new.station.clock))
        (O.contents out.old) (O.contents out.new)) }
    ensures failed { IfErr result IsFailure }
{
    print_front(asking.records, line, out, err)?;
    let end = match ask_on(asking, client, &line.question, err) {
        Ok(end) => end,
        Err(status) => {
            if client.is_stranded {
                // if that fails too, only the status is left
                let _ = print_stranded(&client.printer(asking), line, others, out);
            }
            return Err(status);
        }
    };
    client.tell_overdue(!others.is_empty(), err);
    let printer = client.printer(asking);
    let asker = line.asker(asking.has_names);
    print_ask(&printer, asker, &line.question, &end, out, err)
}

pub(crate) fn both(first: bool, second: bool) -> bool
    ensures { result ≡ first && second }
{
    first && second
}

/// A client asks what lines ask, one after the other. Answers whether all succeeded.
pub(crate) fn ask_each<M: ClientSockets, O: Write, E: Write>(
    asking: &Asking,
    client: &mut Client<'_, M>,
    lines: &[LineQuestion],
    out: &mut O,
    err: &mut E,
) -> Result<bool, Status>
    ensures asked { IfOk result (λ all. AsksEach (OnPort M.is_bound M.Link.failures M.Link.calls) asking.now lines.now all
        (timed client.old.station.bound_node (M.Timer.told client.old.station.clock))
        (timed client.new.station.bound_node (M.Timer.told client.new.station.clock))
        (O.contents out.old) (O.contents out.new)) }
    ensures failed { IfErr result IsFailure }
{
    let mut all = true;
    for (place, line) in lines.iter().enumerate() {
        let succeeded = ask_line(asking, client, line, &lines[place + 1..], out, err)?;
        all = both(all, succeeded);
    }
    Ok(all)
}

/// Why nothing is asked of the lines of a file.
#[derive(Clone, Copy, PartialEq, Eq)]
enum Unasked {
    /// The file cannot be opened or read, or memory is refused, as the status says.
    Unread(Status),
    /// The words of a line are no request.
    BadLine,
}

impl Unasked {
    fn status(self) -> Status
        ensures { result ≡ status_of self }
    {
        match self {
            Unasked::Unread(status) => status,
            Unasked::BadLine => Status::CommandLine,
        }
    }
}

/// What is in a file. Where it cannot be opened or read, `err` and the status say so.
fn text_at<F: OpenFiles, E: Write>(
    alloc: Global,
    files: &F,
    path: &str,
    err: &mut E,
) -> Result<Vec<u8>, Status>
    ensures read { IfOk result (λ text. OfFile (OnFile F.is_file F.File.remaining) path.now (IsTextOf text.items)) }
    ensures told { IfErr result IsStop }
{
    let file = opened(files, path, err)?;
    octets_of(alloc, path, file, err)
}

/// What the lines of a file ask. Where it cannot be read, or a line is bad, `err` says so.
fn questions_at<F: OpenFiles, E: Write>(
    alloc: Global,
    files: &F,
    default: Option<Peer>,
    path: &str,
    err: &mut E,
) -> Result<Vec<LineQuestion>, Unasked>
    ensures read { IfOk result (λ lines. OfFile (OnFile F.is_file F.File.remaining) path.now (AreRead (option_map peer_view default) (Some (map line_view lines.items)))) }
    ensures bad { IsErrOf result Unasked.BadLine → OfFile (OnFile F.is_file F.File.remaining) path.now (AreRead (option_map peer_view default) None) }
    ensures told { IfErr result (λ why. IsStop (status_of why)) }
{
    let text = match text_at(alloc, files, path, err) {
        Ok(text) => text,
        Err(status) => return Err(Unasked::Unread(status)),
    };
    match questions_in(alloc, default, path, &text, err) {
        Ok(lines) => Ok(lines),
        Err(Status::CommandLine) => Err(Unasked::BadLine),
        Err(status) => Err(Unasked::Unread(status)),
    }
}

/// Asks the requests of the lines of a file, in rounds if they are wanted, and prints each result after the number of its line. Lines that name no peer are asked
/// of the default, if there is one.
///
/// If the file cannot be read, prints `cannot read` and the reason on `err`. If a line is no request, or the system sends to the nodes of two lines from different
/// addresses of this machine, prints which on `err`, and asks nothing.
pub fn ask_lines<F: OpenFiles, M: ClientSockets, O: Write, E: Write>(
    environment: &Environment<'_, F, M>,
    asking: &Asking,
    default: Option<Peer>,
    path: &str,
    out: &mut O,
    err: &mut E,
) -> Status
    ensures { AreAskedFrom (OnFile F.is_file F.File.remaining) (OnPort M.is_bound M.Link.failures M.Link.calls) (OnClock M.is_made M.Timer.told) result
        asking.now (option_map peer_view default) path.now (O.contents out.old) (O.contents out.new) }
{
    let alloc = environment.alloc;
    match questions_at(alloc, environment.files, default, path, err) {
        Ok(lines) => match asking.for_lines(environment.machine, &lines) {
            Ok(asking) => {
                let asked = Asked::Lines(lines);
                ask_by_client(alloc, environment.machine, &asking, &asked, out, err)
            }
            Err(apart) => apart.report(path, err),
        },
        Err(why) => why.status(),
    }
}
