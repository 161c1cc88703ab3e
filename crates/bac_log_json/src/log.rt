//! Lines of the log of a server.
ghost use Rattle.std.specs.Prelude.{◌≡◌, IfOk, OnOk};
ghost use Rattle.std.specs.Option.{option_map};
ghost use Rattle.bac_json.specs.Forms.{optional_number, text_form};
ghost use Rattle.bac_json_report.specs.Lines.{IsLineOf};
ghost use Rattle.bac_log_json.specs.Logs.{AreChanged, AreEventMembers, AreHeard, ArePerformed, IsLogForm, event_view, kind_word, log_form, nulls, record_view, told};
ghost use Rattle.bac_log_json.specs.LogMembers.{members_view};
ghost use Rattle.bac_log_json.specs.Cells.{part_view};
ghost use Rattle.bac_npdu.specs.Views.{peer_view};
ghost use Rattle.bac_service.specs.Views.{reply_view, request_view};
ghost use Rattle.bac_text.specs.Peers.{link_text, peer_text};
ghost use Rattle.bac_text.specs.Texts.{AppendsText};
ghost use Rattle.serde_json.specs.Data.{null, number, string, unsigned};
ghost use Rattle.serde_json.specs.View.{view};

use crate::{KeptPart, cell_json};
use bac_json::{Members, optional_json, reply_json, request_json, text_json};
use bac_json_report::{print_json, time_json};
use bac_npdu::{LinkAddress, Peer};
use bac_service::{Reply, Request};
use bac_text::{link_text, peer_text};
use bac_value::NoMemory;
use serde_json::Value as Json;
use std::alloc::{AllocError, Global};
use std::io;
use std::io::{ErrorKind, Write};

/// What a line of the log tells.
#[derive(Clone, Copy)]
pub enum LogEvent<'a> {
    /// A datagram with an APDU came, and what was done for it.
    Heard {
        peer: Peer,
        /// None of an Unconfirmed-Request.
        invoke_id: Option<u8>,
        /// The request that was performed for it, and its reply, if one was.
        performed: Option<(Request<'a>, Reply<'a>)>,
        /// What came, in words.
        what: &'a [u8],
        /// What was done, in words.
        done: &'a [u8],
    },
    /// A datagram from a link was dropped, and why in words.
    Dropped {
        link: LinkAddress,
        why: &'a str,
    },
    /// How many datagrams were sent again since it was time.
    SentAgain(u64),
    /// How many datagrams could not be sent.
    NotSent(u64),
    /// How many steps were not done for want of memory.
    NotDone(u64),
    /// How many requests were turned away since the table was full, and in how many milliseconds a slot gets free.
    TableFull {
        count: u64,
        wait: u64,
    },
    /// The document that the server follows gave a property its values, or a file its octets; in words too.
    Document {
        part: KeptPart<'a>,
        words: &'a [u8],
    },
    /// The server began: where it listens, or from when on it serves, in words.
    Started {
        words: &'a [u8],
    },
}

/// A line of the log.
#[derive(Clone, Copy)]
pub struct LogRecord<'a> {
    /// When, in milliseconds since 1970 began in UTC; None where the time of day cannot be read.
    pub time: Option<u64>,
    /// When, in milliseconds by the clock of the server.
    pub moment: u64,
    pub event: LogEvent<'a>,
}

/// What an event says; Null for what it does not.
#[derive(Drop)]
struct EventMembers {
    change: Json,
    count: Json,
    id: Json,
    peer: Json,
    reply: Json,
    request: Json,
    text: Json,
    wait: Json,
    what: Json,
}

/// An event that says nothing yet.
fn nulls() -> EventMembers
    ensures { members_view result ≡ nulls }
{
    EventMembers {
        change: Json::Null,
        count: Json::Null,
        id: Json::Null,
        peer: Json::Null,
        reply: Json::Null,
        request: Json::Null,
        text: Json::Null,
        wait: Json::Null,
        what: Json::Null,
    }
}

/// The word for what a line tells.
fn kind_word(event: LogEvent<'_>) -> &'static str
    ensures { result.now ≡ kind_word (event_view event.entry) }
{
    match event {
        LogEvent::Heard { .. } => "heard",
        LogEvent::Dropped { .. } => "dropped",
        LogEvent::SentAgain(_) => "timer",
        LogEvent::NotSent(_) => "link",
        LogEvent::NotDone(_) => "no memory",
        LogEvent::TableFull { .. } => "table full",
        LogEvent::Document { .. } => "document",
        LogEvent::Started { .. } => "started",
    }
}

/// A request and its reply; Null where none was performed.
fn performed_json(
    alloc: Global,
    performed: Option<(Request<'_>, Reply<'_>)>,
) -> Result<(Json, Json), NoMemory>
    ensures { IfOk result (λ p. ArePerformed (option_map (λ q. (request_view q.0, reply_view q.1)) performed.entry) (view p.0) (view p.1)) }
{
    let Some((request, reply)) = performed else {
        return Ok((Json::Null, Json::Null));
    };
    let request = request_json(alloc, request)?;
    let reply = reply_json(alloc, reply)?;
    Ok((request, reply))
}

/// An invoke ID; Null where there is none.
pub(crate) fn id_json(invoke_id: Option<u8>) -> Json
    ensures { view result ≡ optional_number invoke_id }
{
    match invoke_id {
        Some(id) => optional_json(Some(u32::from(id))),
        None => optional_json(None),
    }
}

/// What came from a peer, and what was done, in words.
fn told_members(
    alloc: Global,
    peer: Peer,
    what: &[u8],
    done: &[u8],
) -> Result<EventMembers, AllocError>
    ensures { IfOk result (λ m. members_view m ≡ told (string (peer_text (peer_view peer))) (text_form done.now) (text_form what.now)) }
{
    let mut members = nulls();
    members.peer = Json::String(peer_text(alloc, peer)?);
    members.text = text_json(alloc, done)?;
    members.what = text_json(alloc, what)?;
    Ok(members)
}

/// A datagram that was dropped, and why in words.
fn dropped_members(alloc: Global, link: LinkAddress, why: &str) -> Result<EventMembers, AllocError>
    ensures { IfOk result (λ m. members_view m ≡ told (string (link_text link)) (string why.now) null) }
{
    let mut members = nulls();
    members.peer = Json::String(link_text(alloc, link)?);
    members.text = Json::try_from_str(alloc, why)?;
    Ok(members)
}

/// How many datagrams or steps there were.
fn count_members(count: u64) -> EventMembers
    ensures { members_view result ≡ record nulls { count = number (unsigned count) } }
{
    let mut members = nulls();
    members.count = Json::from(count);
    members
}

/// How many requests were turned away, and in how many milliseconds a slot gets free.
fn full_members(count: u64, wait: u64) -> EventMembers
    ensures { members_view result ≡ record nulls { count = number (unsigned count); wait = number (unsigned wait) } }
{
    let mut members = nulls();
    members.count = Json::from(count);
    members.wait = Json::from(wait);
    members
}

/// What a document gave.
fn changed_members(
    alloc: Global,
    part: KeptPart<'_>,
    words: &[u8],
) -> Result<EventMembers, NoMemory>
    ensures { IfOk result (λ m. AreChanged (part_view part.entry) words.now (members_view m)) }
{
    let mut members = nulls();
    members.change = cell_json(alloc, part)?;
    members.text = text_json(alloc, words)?;
    Ok(members)
}

/// How the server began, in words.
fn started_members(alloc: Global, words: &[u8]) -> Result<EventMembers, AllocError>
    ensures { IfOk result (λ m. members_view m ≡ record nulls { text = text_form words.now }) }
{
    let mut members = nulls();
    members.text = text_json(alloc, words)?;
    Ok(members)
}

/// What was heard, and what was done for it.
fn heard_members(
    alloc: Global,
    invoke_id: Option<u8>,
    performed: Option<(Request<'_>, Reply<'_>)>,
    told: EventMembers,
) -> Result<EventMembers, NoMemory>
    ensures { IfOk result (λ m. AreHeard invoke_id (option_map (λ q. (request_view q.0, reply_view q.1)) performed.entry) (members_view told) (members_view m)) }
{
    let (request, reply) = performed_json(alloc, performed)?;
    let mut members = told;
    members.id = id_json(invoke_id);
    members.request = request;
    members.reply = reply;
    Ok(members)
}

fn members_of(alloc: Global, event: LogEvent<'_>) -> Result<EventMembers, NoMemory>
    ensures { IfOk result (λ m. AreEventMembers (event_view event.entry) (members_view m)) }
{
    match event {
        LogEvent::Heard {
            peer,
            invoke_id,
            performed,
            what,
            done,
        } => {
            let told = told_members(alloc, peer, what, done)?;
            heard_members(alloc, invoke_id, performed, told)
        }
        LogEvent::Dropped { link, why } => Ok(dropped_members(alloc, link, why)?),
        LogEvent::SentAgain(count) => Ok(count_members(count)),
        LogEvent::NotSent(count) => Ok(count_members(count)),
        LogEvent::NotDone(count) => Ok(count_members(count)),
        LogEvent::TableFull { count, wait } => Ok(full_members(count, wait)),
        LogEvent::Document { part, words } => changed_members(alloc, part, words),
        LogEvent::Started { words } => Ok(started_members(alloc, words)?),
    }
}

/// The object of a line, with each member that any line has.
fn log_object(
    alloc: Global,
    kind: &str,
    moment: u64,
    time: Json,
    members: EventMembers,
) -> Result<Json, AllocError>
    ensures { IfOk result (λ v. view v ≡ log_form kind.now moment (view time) (members_view members)) }
{
    Members::new(alloc)
        .json("change", members.change)
        .json("count", members.count)
        .json("id", members.id)
        .number("moment", moment)
        .json("peer", members.peer)
        .json("reply", members.reply)
        .json("request", members.request)
        .json("text", members.text)
        .json("time", time)
        .text("type", kind)
        .json("wait", members.wait)
        .json("what", members.what)
        .end()
}

#[tactic(auto, using(crate::proofs::Told::log_told))]
fn object_of(alloc: Global, line: &LogRecord<'_>) -> Result<Json, NoMemory>
    ensures { IfOk result (λ v. IsLogForm (record_view line.now) (view v)) }
{
    let time = time_json(alloc, line.time)?;
    let members = members_of(alloc, line.event)?;
    let kind = kind_word(line.event);
    Ok(log_object(alloc, kind, line.moment, time, members)?)
}

/// Prints a line of the log as one object of JSON on a line. An Err is the writer's, or out of memory.
pub fn print_log_object<W: Write>(
    alloc: Global,
    line: &LogRecord<'_>,
    out: &mut W,
) -> io::Result<()>
    ensures { OnOk result (AppendsText (W.contents out.old) (W.contents out.new) (IsLineOf (IsLogForm (record_view line.now)))) }
{
    let Ok(object) = object_of(alloc, line) else {
        return Err(io::Error::from(ErrorKind::OutOfMemory));
    };
    print_json(alloc, &object, out)
}
