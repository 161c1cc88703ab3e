//! Lines of what came of an event of a script.
ghost use Rattle.std.specs.Prelude.{◌≡◌, IfOk, OnOk};
ghost use Rattle.bac_json_report.specs.Lines.{IsLineOf};
ghost use Rattle.bac_log_json.specs.EventMembers.{datagram_view, members_view, words_view};
ghost use Rattle.bac_log_json.specs.Events.{IsEventForm, ask_members, event_form, fault_members, kind_view, kind_word, members_of, node_members, nulls, record_view, sent_members};
ghost use Rattle.bac_log_json.specs.Events.{with_datagram, with_line, with_words};
ghost use Rattle.bac_json.specs.Forms.{octets_form, optional_number, text_form};
ghost use Rattle.bac_json.specs.Members.{Extends};
ghost use Rattle.bac_npdu.specs.Views.{peer_view};
ghost use Rattle.bac_text.specs.Peers.{peer_text};
ghost use Rattle.bac_text.specs.Texts.{AppendsText};
ghost use Rattle.serde_json.specs.Data.{string, unsigned};
ghost use Rattle.serde_json.specs.Data.{number as whole};
ghost use Rattle.serde_json.specs.Find.{of_integer};
ghost use Rattle.serde_json.specs.View.{view};

use crate::log::id_json;
use bac_json::{Members, octets_json, text_json};
use bac_json_report::print_json;
use bac_npdu::Peer;
use bac_text::peer_text;
use serde_json::Value as Json;
use std::alloc::{AllocError, Global};
use std::io;
use std::io::Write;

/// What came of an event.
#[derive(Clone, Copy)]
pub enum EventKind<'a> {
    /// The ask with that number was accepted, under that invoke ID where it is known.
    Asked {
        ask: u64,
        invoke_id: Option<u8>,
    },
    /// The ask of a stranger with that number was accepted.
    AskedAway {
        ask: u64,
        peer: Peer,
    },
    /// The request of the ask with that number was performed, with that reply in words.
    Performed {
        ask: u64,
        words: &'a [u8],
    },
    /// A node performed a request of a stranger, with that reply in words.
    Served {
        node: u64,
        peer: Peer,
        words: &'a [u8],
    },
    /// The ask with that number ended so, in words.
    Ended {
        ask: u64,
        words: &'a [u8],
    },
    /// A node changed its own store.
    Changed {
        node: u64,
    },
    Restarted {
        node: u64,
    },
    /// A node sent the datagram with that number to another.
    Sent {
        number: u64,
        from: u64,
        to: u64,
        octets: &'a [u8],
    },
    /// The datagram with that number counts as lost.
    Lost {
        number: u64,
    },
    /// A node's clock is so many parts in a million fast, or slow after a minus.
    Paced {
        node: u64,
        pace: i64,
    },
    /// None of these, and why in words.
    Nothing {
        why: &'a str,
    },
    /// An ask or a change was refused, with the number of the fault, and why in words.
    Refused {
        fault: u8,
        why: &'a str,
    },
    /// The event could not happen, with the number of the fault, and why in words.
    Fault {
        fault: u8,
        why: &'a str,
    },
}

/// A line of what came of an event.
#[derive(Clone, Copy)]
pub struct EventRecord<'a> {
    /// The number of the line of the script, counted from 1; None where it is not told.
    pub line: Option<u64>,
    /// The moment of the run, in milliseconds; None where it is not told.
    pub moment: Option<u64>,
    pub kind: EventKind<'a>,
}

/// What a line says but of datagrams; Null for what it does not.
#[derive(Drop)]
struct WordMembers {
    ask: Json,
    fault: Json,
    id: Json,
    node: Json,
    pace: Json,
    peer: Json,
    text: Json,
}

/// What a line says of a datagram; Null for what it does not.
#[derive(Drop)]
struct DatagramMembers {
    from: Json,
    number: Json,
    octets: Json,
    to: Json,
}

/// What a line says.
#[derive(Drop)]
struct EventMembers {
    words: WordMembers,
    datagram: DatagramMembers,
}

/// A line that says nothing yet.
fn nulls() -> EventMembers
    ensures { members_view result ≡ nulls }
{
    EventMembers {
        words: WordMembers {
            ask: Json::Null,
            fault: Json::Null,
            id: Json::Null,
            node: Json::Null,
            pace: Json::Null,
            peer: Json::Null,
            text: Json::Null,
        },
        datagram: DatagramMembers {
            from: Json::Null,
            number: Json::Null,
            octets: Json::Null,
            to: Json::Null,
        },
    }
}

/// The word for what a line tells.
fn kind_word(kind: EventKind<'_>) -> &'static str
    ensures { result.now ≡ kind_word (kind_view kind.entry) }
{
    match kind {
        EventKind::Asked { .. } => "asked",
        EventKind::AskedAway { .. } => "asked",
        EventKind::Performed { .. } => "performed",
        EventKind::Served { .. } => "served",
        EventKind::Ended { .. } => "ended",
        EventKind::Changed { .. } => "changed",
        EventKind::Restarted { .. } => "restarted",
        EventKind::Sent { .. } => "sent",
        EventKind::Lost { .. } => "lost",
        EventKind::Paced { .. } => "paced",
        EventKind::Nothing { .. } => "nothing",
        EventKind::Refused { .. } => "refused",
        EventKind::Fault { .. } => "fault",
    }
}

/// A number; Null where there is none.
fn number_json(number: Option<u64>) -> Json
    ensures { view result ≡ optional_number number }
{
    match number {
        Some(number) => Json::from(number),
        None => Json::Null,
    }
}

/// What a line says of the ask with that number.
fn ask_members(ask: u64) -> EventMembers
    ensures { members_view result ≡ ask_members ask }
{
    let mut members = nulls();
    members.words.ask = Json::from(ask);
    members
}

/// What a line says of a node.
fn node_members(node: u64) -> EventMembers
    ensures { members_view result ≡ node_members node }
{
    let mut members = nulls();
    members.words.node = Json::from(node);
    members
}

/// An ask that was accepted, under its invoke ID where that is known.
fn asked_members(ask: u64, invoke_id: Option<u8>) -> EventMembers
    ensures { members_view result ≡ record (ask_members ask) { id = optional_number invoke_id } }
{
    let mut members = ask_members(ask);
    members.words.id = id_json(invoke_id);
    members
}

/// An ask of a stranger that was accepted.
fn asked_away_members(alloc: Global, ask: u64, peer: Peer) -> Result<EventMembers, AllocError>
    ensures { IfOk result (λ m. members_view m ≡ record (ask_members ask) { peer = string (peer_text (peer_view peer)) }) }
{
    let mut members = ask_members(ask);
    members.words.peer = Json::String(peer_text(alloc, peer)?);
    Ok(members)
}

/// A request of a stranger that a node performed, and the reply in words.
fn served_members(
    alloc: Global,
    node: u64,
    peer: Peer,
    words: &[u8],
) -> Result<EventMembers, AllocError>
    ensures { IfOk result (λ m. members_view m ≡ record (node_members node) { peer = string (peer_text (peer_view peer)); text = text_form words.now }) }
{
    let mut members = node_members(node);
    members.words.peer = Json::String(peer_text(alloc, peer)?);
    members.words.text = text_json(alloc, words)?;
    Ok(members)
}

/// What came of an ask, in words.
fn told_members(alloc: Global, ask: u64, words: &[u8]) -> Result<EventMembers, AllocError>
    ensures { IfOk result (λ m. members_view m ≡ record (ask_members ask) { text = text_form words.now }) }
{
    let mut members = ask_members(ask);
    members.words.text = text_json(alloc, words)?;
    Ok(members)
}

/// A datagram that a node sent to another, with its octets.
fn sent_members(
    alloc: Global,
    number: u64,
    from: u64,
    to: u64,
    octets: &[u8],
) -> Result<EventMembers, AllocError>
    ensures { IfOk result (λ m. members_view m ≡ sent_members number from to octets.now) }
{
    let mut members = nulls();
    members.datagram.number = Json::from(number);
    members.datagram.from = Json::from(from);
    members.datagram.to = Json::from(to);
    members.datagram.octets = octets_json(alloc, octets)?;
    Ok(members)
}

/// A datagram that counts as lost.
fn lost_members(number: u64) -> EventMembers
    ensures { members_view result ≡ record nulls { number = whole (unsigned number) } }
{
    let mut members = nulls();
    members.datagram.number = Json::from(number);
    members
}

/// The pace of a node's clock, in parts in a million.
fn paced_members(node: u64, pace: i64) -> EventMembers
    ensures { members_view result ≡ record (node_members node) { pace = whole (of_integer pace) } }
{
    let mut members = node_members(node);
    members.words.pace = Json::from(pace);
    members
}

/// Why nothing came of an event.
fn nothing_members(alloc: Global, why: &str) -> Result<EventMembers, AllocError>
    ensures { IfOk result (λ m. members_view m ≡ record nulls { text = string why.now }) }
{
    let mut members = nulls();
    members.words.text = Json::try_from_str(alloc, why)?;
    Ok(members)
}

/// A refusal or a fault: its number, and why in words.
fn fault_members(alloc: Global, fault: u8, why: &str) -> Result<EventMembers, AllocError>
    ensures { IfOk result (λ m. members_view m ≡ fault_members fault why.now) }
{
    let mut members = nulls();
    members.words.fault = Json::from(fault);
    members.words.text = Json::try_from_str(alloc, why)?;
    Ok(members)
}

fn members_of(alloc: Global, kind: EventKind<'_>) -> Result<EventMembers, AllocError>
    ensures { IfOk result (λ m. members_view m ≡ members_of (kind_view kind.entry)) }
{
    match kind {
        EventKind::Asked { ask, invoke_id } => Ok(asked_members(ask, invoke_id)),
        EventKind::AskedAway { ask, peer } => asked_away_members(alloc, ask, peer),
        EventKind::Performed { ask, words } => told_members(alloc, ask, words),
        EventKind::Served { node, peer, words } => served_members(alloc, node, peer, words),
        EventKind::Ended { ask, words } => told_members(alloc, ask, words),
        EventKind::Changed { node } => Ok(node_members(node)),
        EventKind::Restarted { node } => Ok(node_members(node)),
        EventKind::Sent {
            number,
            from,
            to,
            octets,
        } => sent_members(alloc, number, from, to, octets),
        EventKind::Lost { number } => Ok(lost_members(number)),
        EventKind::Paced { node, pace } => Ok(paced_members(node, pace)),
        EventKind::Nothing { why } => nothing_members(alloc, why),
        EventKind::Refused { fault, why } => fault_members(alloc, fault, why),
        EventKind::Fault { fault, why } => fault_members(alloc, fault, why),
    }
}

/// What a line tells, and where and when that came.
fn with_line(kind: &str, line: Option<u64>, moment: Option<u64>, object: Members) -> Members
    ensures { Extends (with_line kind.now line moment) object result }
{
    object
        .json("line", number_json(line))
        .json("moment", number_json(moment))
        .text("type", kind)
}

/// An object with what a line says beside a datagram.
fn with_words(words: WordMembers, object: Members) -> Members
    ensures { Extends (with_words (words_view words)) object result }
{
    object
        .json("ask", words.ask)
        .json("fault", words.fault)
        .json("id", words.id)
        .json("node", words.node)
        .json("pace", words.pace)
        .json("peer", words.peer)
        .json("text", words.text)
}

/// An object with what a line says of a datagram.
fn with_datagram(datagram: DatagramMembers, object: Members) -> Members
    ensures { Extends (with_datagram (datagram_view datagram)) object result }
{
    object
        .json("from", datagram.from)
        .json("number", datagram.number)
        .json("octets", datagram.octets)
        .json("to", datagram.to)
}

fn event_object(
    alloc: Global,
    kind: &str,
    line: Option<u64>,
    moment: Option<u64>,
    members: EventMembers,
) -> Result<Json, AllocError>
    ensures { IfOk result (λ v. view v ≡ event_form kind.now line moment (members_view members)) }
{
    let object = with_line(kind, line, moment, Members::new(alloc));
    with_datagram(members.datagram, with_words(members.words, object)).end()
}

fn object_of(alloc: Global, event: &EventRecord<'_>) -> Result<Json, AllocError>
    ensures { IfOk result (λ v. view v ≡ event_form (kind_word (record_view event.now).kind) event.now.line event.now.moment
        (members_of (record_view event.now).kind)) }
{
    let members = members_of(alloc, event.kind)?;
    let kind = kind_word(event.kind);
    event_object(alloc, kind, event.line, event.moment, members)
}

/// Prints what came of an event as one object of JSON on a line. An Err is the writer's, or out of memory.
pub fn print_event_object<W: Write>(
    alloc: Global,
    event: &EventRecord<'_>,
    out: &mut W,
) -> io::Result<()>
    ensures { OnOk result (AppendsText (W.contents out.old) (W.contents out.new) (IsLineOf (IsEventForm (record_view event.now)))) }
{
    let object = object_of(alloc, event)?;
    print_json(alloc, &object, out)
}
