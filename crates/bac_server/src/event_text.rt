//! The line of a log for an event.
ghost use Rattle.std.specs.Prelude.{◌≡◌, ◌==◌, not, IfOk, OnOk, string_bytes};
ghost use Rattle.bac_log_json.specs.Logs.{event_view};
ghost use Rattle.bac_npdu.specs.Views.{peer_view};
ghost use Rattle.bac_text.specs.Peers.{link_text};
ghost use Rattle.bac_text.specs.Texts.{AppendsText, line_end};
ghost use Rattle.std.specs.Prelude.{◌++◌, codes, decimal};
ghost use Rattle.bac_server.specs.EventTexts.{IsEventText, IsTextWhere, away_text, count_line, event_line, full_line, head_text, id_text, time_at};

use crate::log_settings::LogFormat;
use bac_log_json::{LogEvent, LogRecord, print_log_object};
use bac_npdu::{LinkAddress, Peer};
use bac_text::{link_text, peer_text};
use std::alloc::{AllocError, Global};
use std::io;
use std::io::Write;

// ---- in words

fn id_text(alloc: Global, id: Option<u8>) -> Result<String, AllocError>
    ensures { IfOk result (λ t. string_bytes t ≡ id_text id) }
{
    match id {
        Some(id) => format!(in alloc; " id {id}"),
        None => Ok(String::new(alloc)),
    }
}

/// The moment, and the other end.
fn head_text(alloc: Global, at: u64, peer: Peer, id: Option<u8>) -> Result<Vec<u8>, AllocError>
    ensures { IfOk result (λ t. t.items ≡ head_text at (peer_view peer) id) }
{
    let who = peer_text(alloc, peer)?;
    let id = id_text(alloc, id)?;
    let text = format!(in alloc; "{at} {who}{id} ")?;
    Ok(text.into_bytes())
}

/// What came, and what was done, behind the moment and the other end.
fn heard_line(head: Vec<u8>, what: &[u8], done: &[u8]) -> Result<Vec<u8>, AllocError>
    ensures { IfOk result (λ t. t.items ≡ (((head.items ++ what.now) ++ codes ": ") ++ done.now) ++ line_end) }
{
    let mut text = head;
    text.extend_from_slice(what)?;
    text.extend_from_slice(b": ")?;
    text.extend_from_slice(done)?;
    text.push(b'\n')?;
    Ok(text)
}

fn dropped_line(alloc: Global, at: u64, link: LinkAddress, why: &str) -> Result<Vec<u8>, AllocError>
    ensures { IfOk result (λ t. t.items ≡ decimal at ++ (codes " " ++ (link_text link ++ (codes " dropped: " ++ (why.now ++ codes "\n"))))) }
{
    let link = link_text(alloc, link)?;
    let text = format!(in alloc; "{at} {link} dropped: {why}\n")?;
    Ok(text.into_bytes())
}

/// The line of a count of datagrams or steps, between the texts around it.
fn count_line(
    alloc: Global,
    at: u64,
    start: &str,
    count: u64,
    name: &str,
) -> Result<Vec<u8>, AllocError>
    ensures { IfOk result (λ t. t.items ≡ count_line at start.now count name.now) }
{
    let text = format!(in alloc; "{at} {start}{count}{name}\n")?;
    Ok(text.into_bytes())
}

fn away_text(away: u64) -> &'static str
    ensures { result.now ≡ away_text away }
{
    if away == 1 {
        " request turned away"
    } else {
        " requests turned away"
    }
}

/// How many were turned away, and in how many milliseconds a slot gets free.
fn full_line(alloc: Global, at: u64, away: u64, wait: u64) -> Result<Vec<u8>, AllocError>
    ensures { IfOk result (λ t. t.items ≡ full_line at away wait) }
{
    let requests = away_text(away);
    let text = format!(in alloc;
        "{at} table full: {away}{requests}, next slot free in {wait} ms\n"
    )?;
    Ok(text.into_bytes())
}

/// What the document gave, behind the moment.
fn document_line(alloc: Global, at: u64, words: &[u8]) -> Result<Vec<u8>, AllocError>
    ensures { IfOk result (λ t. t.items ≡ ((decimal at ++ codes " document ") ++ words.now) ++ line_end) }
{
    let mut text = format!(in alloc; "{at} document ")?.into_bytes();
    text.extend_from_slice(words)?;
    text.push(b'\n')?;
    Ok(text)
}

fn started_line(alloc: Global, words: &[u8]) -> Result<Vec<u8>, AllocError>
    ensures { IfOk result (λ t. t.items ≡ words.now ++ line_end) }
{
    let mut text = Vec::from_slice(alloc, words)?;
    text.push(b'\n')?;
    Ok(text)
}

fn event_line(alloc: Global, at: u64, event: LogEvent<'_>) -> Result<Vec<u8>, AllocError>
    ensures { IfOk result (λ t. t.items ≡ event_line at (event_view event.entry)) }
{
    match event {
        LogEvent::Heard {
            peer,
            invoke_id,
            what,
            done,
            ..
        } => heard_line(head_text(alloc, at, peer, invoke_id)?, what, done),
        LogEvent::Dropped { link, why } => dropped_line(alloc, at, link, why),
        LogEvent::SentAgain(count) => count_line(alloc, at, "timer: ", count, " sent again"),
        LogEvent::NotSent(count) => count_line(alloc, at, "link: ", count, " not sent"),
        LogEvent::NotDone(count) => count_line(alloc, at, "no memory: ", count, " not done"),
        LogEvent::TableFull { count, wait } => full_line(alloc, at, count, wait),
        LogEvent::Document { words, .. } => document_line(alloc, at, words),
        LogEvent::Started { words } => started_line(alloc, words),
    }
}

// ---- as an object of JSON

/// The time of day at a moment.
fn time_at(epoch: Option<u64>, at: u64) -> Option<u64>
    ensures { result ≡ time_at epoch at }
{
    match epoch {
        Some(epoch) => Some(epoch.saturating_add(at)),
        None => None,
    }
}

fn event_object(
    alloc: Global,
    epoch: Option<u64>,
    at: u64,
    event: LogEvent<'_>,
) -> io::Result<Vec<u8>>
    ensures { IfOk result (λ t. IsEventText (LogFormat.Objects epoch) at (event_view event.entry) t.items) }
{
    let line = LogRecord {
        time: time_at(epoch, at),
        moment: at,
        event,
    };
    let mut text = Vec::new(alloc);
    print_log_object(alloc, &line, &mut text)?;
    Ok(text)
}

// ---- in either form

/// The line of an event at a moment.
pub(crate) fn event_text(
    alloc: Global,
    format: LogFormat,
    at: u64,
    event: LogEvent<'_>,
) -> io::Result<Vec<u8>>
    ensures { IfOk result (λ t. IsEventText format at (event_view event.entry) t.items) }
{
    match format {
        LogFormat::Lines => Ok(event_line(alloc, at, event)?),
        LogFormat::Objects { epoch } => event_object(alloc, epoch, at, event),
    }
}

/// The line of so many datagrams or steps, where there are any.
pub(crate) fn count_text(
    alloc: Global,
    format: LogFormat,
    at: u64,
    count: u64,
    event: LogEvent<'_>,
) -> io::Result<Vec<u8>>
    ensures { IfOk result (λ t. IsTextWhere (not (count == 0)) format at (event_view event.entry) t.items) }
{
    if count == 0 {
        Ok(Vec::new(alloc))
    } else {
        event_text(alloc, format, at, event)
    }
}

/// Prints the line of an event at a moment, in milliseconds by the clock of the server. An Err is the writer's, or out of memory.
pub fn print_event<W: Write>(
    alloc: Global,
    format: LogFormat,
    at: u64,
    event: LogEvent<'_>,
    out: &mut W,
) -> io::Result<()>
    ensures { OnOk result (AppendsText (W.contents out.old) (W.contents out.new) (IsEventText format at (event_view event.entry))) }
{
    let text = event_text(alloc, format, at, event)?;
    out.write_all(text.as_slice())
}
