//! Objects of JSON.
ghost use Rattle.std.specs.Prelude.{◌≡◌, IfOk, OnOk};
ghost use Rattle.std.specs.Option.{option_map};
ghost use Rattle.bac_ask_report.specs.Members.{answer_members_view, asked_members_view, end_members_view};
ghost use Rattle.bac_ask_report.specs.Objects.{IsObject, ask_object, asked_members, end_members, index_or_null, property_or_null, with_answer, with_asked, with_end, with_name};
ghost use Rattle.bac_ask_report.specs.Records.{name_view, record_view};
ghost use Rattle.bac_json.specs.Members.{Extends};
ghost use Rattle.bac_json_report.specs.Lines.{IsLineOf};
ghost use Rattle.bac_npdu.specs.Views.{peer_view};
ghost use Rattle.bac_service.specs.Views.{property_reference_view};
ghost use Rattle.bac_text.specs.Peers.{peer_text};
ghost use Rattle.bac_text.specs.Texts.{AppendsText};
ghost use Rattle.serde_json.specs.Data.{string};
ghost use Rattle.serde_json.specs.View.{view};

use crate::answer::{answer_of, status_word};
use crate::members::{AnswerMembers, members_of};
use crate::record::{AskRecord, LineName};
use bac_json::{Members, object_json, optional_json, property_json, text_json};
use bac_json_report::{number_or_null, print_json, time_or_null};
use bac_moment::{TimeText, time_text};
use bac_npdu::Peer;
use bac_service::PropertyReference;
use bac_text::peer_text;
use bac_value::NoMemory;
use serde_json::Value as Json;
use std::alloc::{AllocError, Global};
use std::io;
use std::io::Write;

/// The property; Null where none was asked for.
fn property_or_null(alloc: Global, reference: Option<PropertyReference>) -> Result<Json, AllocError>
    ensures { IfOk result (λ v. view v ≡ property_or_null (option_map property_reference_view reference)) }
{
    match reference {
        Some(reference) => property_json(alloc, reference.property),
        None => Ok(Json::Null),
    }
}

/// The index of the property; Null where there is none.
fn index_or_null(reference: Option<PropertyReference>) -> Json
    ensures { view result ≡ index_or_null (option_map property_reference_view reference) }
{
    match reference {
        Some(reference) => optional_json(reference.index),
        None => Json::Null,
    }
}

/// A peer, as `192.168.1.5:47808/5:2A`.
fn peer_json(alloc: Global, peer: Peer) -> Result<Json, AllocError>
    ensures { IfOk result (λ v. view v ≡ string (peer_text (peer_view peer))) }
{
    let text = peer_text(alloc, peer)?;
    Ok(Json::String(text))
}

// ---- what was asked

/// What was asked of whom.
#[derive(Drop)]
pub(crate) struct AskedMembers {
    index: Json,
    line: Json,
    /// The object that was asked for.
    named: Json,
    peer: Json,
    property: Json,
    request: Json,
}

fn asked_members(alloc: Global, ask: &AskRecord<'_, '_, '_>) -> Result<AskedMembers, AllocError>
    ensures { IfOk result (λ m. asked_members_view m ≡ asked_members (record_view ask.now)) }
{
    let reference = ask.request.property();
    let named = object_json(alloc, ask.request.object())?;
    let peer = peer_json(alloc, ask.peer)?;
    let property = property_or_null(alloc, reference)?;
    let request = Json::try_from_str(alloc, ask.request.verb())?;
    Ok(AskedMembers {
        index: index_or_null(reference),
        line: number_or_null(ask.line),
        named,
        peer,
        property,
        request,
    })
}

fn with_asked(asked: AskedMembers, object: Members) -> Members
    ensures { Extends (with_asked (asked_members_view asked)) object result }
{
    object
        .json("index", asked.index)
        .json("line", asked.line)
        .json("object", asked.named)
        .json("peer", asked.peer)
        .json("property", asked.property)
        .json("request", asked.request)
}

/// The name of the line, where a line of the list has one.
fn with_name(name: LineName<'_>, object: Members) -> Members
    ensures { Extends (with_name (name_view name.entry)) object result }
{
    match name {
        LineName::Unnamed => object,
        LineName::Without => object.json("name", Json::Null),
        LineName::Named(name) => object.text("name", name),
    }
}

// ---- how it ended

/// When it ended, and the words for how.
#[derive(Drop)]
pub(crate) struct EndMembers {
    moment: Json,
    round: Json,
    status: Json,
    text: Json,
    time: Json,
}

fn end_members(
    alloc: Global,
    ask: &AskRecord<'_, '_, '_>,
    time: &Option<TimeText>,
) -> Result<EndMembers, AllocError>
    ensures { IfOk result (λ m. end_members_view m ≡ end_members (record_view ask.now) (option_map (λ t. t.bytes) time.now)) }
{
    let status = Json::try_from_str(alloc, status_word(ask.outcome))?;
    let text = text_json(alloc, ask.words)?;
    let time = time_or_null(alloc, time)?;
    Ok(EndMembers {
        moment: number_or_null(ask.time),
        round: number_or_null(ask.round),
        status,
        text,
        time,
    })
}

fn with_end(end: EndMembers, object: Members) -> Members
    ensures { Extends (with_end (end_members_view end)) object result }
{
    object
        .json("moment", end.moment)
        .json("round", end.round)
        .json("status", end.status)
        .json("text", end.text)
        .json("time", end.time)
}

fn with_answer(answer: AnswerMembers, object: Members) -> Members
    ensures { Extends (with_answer (answer_members_view answer)) object result }
{
    object
        .json("class", answer.class)
        .json("code", answer.code)
        .json("end", answer.end)
        .json("octets", answer.octets)
        .json("position", answer.position)
        .json("reason", answer.reason)
        .json("values", answer.values)
}

// ---- the object

fn ask_object(
    alloc: Global,
    name: LineName<'_>,
    asked: AskedMembers,
    end: EndMembers,
    answer: AnswerMembers,
) -> Result<Json, AllocError>
    ensures { IfOk result (λ v. view v ≡ ask_object (name_view name.entry) (asked_members_view asked) (end_members_view end) (answer_members_view answer)) }
{
    let object = with_name(name, with_asked(asked, Members::new(alloc)));
    with_answer(answer, with_end(end, object)).end()
}

#[tactic(auto, using(crate::proofs::Told::object_told))]
fn object_of(alloc: Global, ask: &AskRecord<'_, '_, '_>) -> Result<Json, NoMemory>
    ensures { IfOk result (λ v. IsObject (record_view ask.now) (view v)) }
{
    let time = time_text(ask.time);
    let asked = asked_members(alloc, ask)?;
    let end = end_members(alloc, ask, &time)?;
    let answer = members_of(alloc, answer_of(ask.request, ask.outcome))?;
    Ok(ask_object(alloc, ask.name, asked, end, answer)?)
}

/// Prints an ask as one object of JSON on a line, whose members docs/FORMATS.md ("JSON") lists. An Err is the writer's, or out of memory.
pub fn print_ask_object<W: Write>(
    alloc: Global,
    ask: &AskRecord<'_, '_, '_>,
    out: &mut W,
) -> io::Result<()>
    ensures { OnOk result (AppendsText (W.contents out.old) (W.contents out.new) (IsLineOf (IsObject (record_view ask.now)))) }
{
    let Ok(object) = object_of(alloc, ask) else {
        return Err(io::Error::from(io::ErrorKind::OutOfMemory));
    };
    print_json(alloc, &object, out)
}
