//! The lines of a turn.
ghost use Rattle.std.specs.Prelude.{◌≡◌, IfOk, Some, take};
ghost use Rattle.std.specs.Option.{option_map};
ghost use Rattle.bac_apdu.specs.Views.{apdu_view};
ghost use Rattle.bac_npdu.specs.Views.{npdu_view, peer_view};
ghost use Rattle.bac_node.specs.Views.{cause_view};
ghost use Rattle.bac_service.specs.Views.{reply_view, request_view};
ghost use Rattle.bac_driver.specs.Seen.{seen};
ghost use Rattle.bac_driver.specs.Turns.{dropped_of, performed_of};
ghost use Rattle.bac_driver.specs.Views.{turn_view};
ghost use Rattle.bac_log_json.specs.Logs.{Dropped};
ghost use Rattle.bac_server.specs.EventTexts.{IsEventText};
ghost use Rattle.bac_server.specs.Lines.{AreTurnLines, IsCameText, IsHeardText, IsNpduText, IsReceivedText, IsRestText};
ghost use Rattle.bac_server.specs.Lines.{away_words, id_of, is_full, is_full_for, is_full_to, request_and_reply};
ghost use Rattle.bac_server.specs.LogWords as words;

use crate::came::asking_words;
use crate::cause::cause_words;
use crate::done::done_words;
use crate::event_text::{count_text, event_text};
use crate::frames::{apdu_of, npdu_in};
use crate::log_settings::{LogFormat, LogSettings};
use bac_apdu::Apdu;
use bac_driver::{Turn, sends_of};
use bac_log_json::LogEvent;
use bac_node::{Cause, Node};
use bac_npdu::{LinkAddress, Npdu, Peer};
use bac_service::{Reply, Request};
use bac_transaction::invoke_id_of;
use std::alloc::Global;
use std::io;
use std::io::ErrorKind;

// ---- a datagram

/// Whether each slot of the reply table is live.
pub(crate) fn is_full(now: u64, node: &Node) -> bool
    ensures { result ≡ is_full now node.now.servers }
{
    node.reply_slots() <= node.live(now)
}

/// Whether no slot is free for a peer at a link: each is live, or slots are shared and its IP address has no share.
fn is_full_for(shares: bool, now: u64, link: &LinkAddress, node: &Node) -> bool
    ensures { result ≡ is_full_for shares now link.now node.now.servers }
{
    is_full(now, node) || (shares && !node.has_share(now, link))
}

/// The same of the sender of what came in a turn, if anything did.
pub(crate) fn is_full_to(shares: bool, turn: &Turn, node: &Node) -> bool
    ensures { result ≡ is_full_to shares turn.now.at turn.now.received node.now.servers }
{
    match turn.received {
        None => is_full(turn.at, node),
        Some(datagram) => is_full_for(shares, turn.at, &datagram.0, node),
    }
}

/// Why a request is turned away in a turn.
pub(crate) fn away_words(settings: &LogSettings, turn: &Turn, node: &Node) -> &'static str
    ensures { result.now ≡ away_words settings.now (turn_view turn.now) node.now.servers }
{
    if turn.at < settings.serves_from {
        ", restarted"
    } else if is_full_to(settings.shares, turn, node) {
        ", table full"
    } else {
        ""
    }
}

/// The invoke ID of an APDU; an Unconfirmed-Request has none.
fn id_of(apdu: &Apdu<'_>) -> Option<u8>
    ensures { result ≡ id_of (apdu_view apdu.now) }
{
    match apdu {
        Apdu::UnconfirmedRequest { .. } => None,
        _ => Some(invoke_id_of(apdu)),
    }
}

/// The request that was performed in a turn, and its reply.
fn performed_in(turn: &Turn) -> Option<(Request<'_>, Reply<'_>)>
    ensures { option_map (λ p. (request_view p.0, reply_view p.1)) result ≡ option_map request_and_reply (performed_of (turn_view turn.now).heard) }
{
    match turn.effect() {
        Some(act) => Some((act.effect.request.as_request(), act.effect.reply.as_reply())),
        None => None,
    }
}

/// How a log writes what came in a turn.
#[derive(Clone, Copy)]
struct Telling<'t> {
    alloc: Global,
    format: LogFormat,
    /// Why requests are turned away.
    away: &'t str,
    turn: &'t Turn,
}

/// What came, and what was done.
#[tactic(auto, using(crate::proofs::EventLines::heard_told))]
fn heard_text(telling: Telling<'_>, peer: Peer, apdu: &Apdu<'_>) -> io::Result<Vec<u8>>
    ensures { IfOk result (λ t. IsHeardText telling.entry.format telling.entry.away.now (turn_view telling.entry.turn.now) (peer_view peer) (apdu_view apdu.now) t.items) }
{
    let Telling {
        alloc,
        format,
        away,
        turn,
    } = telling;
    let Ok(asking) = asking_words(alloc, turn.effect(), apdu) else {
        return Err(io::Error::from(ErrorKind::OutOfMemory));
    };
    let Ok(done) = done_words(alloc, away, turn.effect(), sends_of(&turn.heard)) else {
        return Err(io::Error::from(ErrorKind::OutOfMemory));
    };
    let event = LogEvent::Heard {
        peer,
        invoke_id: id_of(apdu),
        performed: performed_in(turn),
        what: asking.as_slice(),
        done: done.as_slice(),
    };
    event_text(alloc, format, turn.at, event)
}

/// What an NPDU carries that came from a link.
fn npdu_text(telling: Telling<'_>, from: LinkAddress, npdu: &Npdu<'_>) -> io::Result<Vec<u8>>
    ensures { IfOk result (λ t. IsNpduText telling.entry.format telling.entry.away.now (turn_view telling.entry.turn.now) from (Some (npdu_view npdu.now)) t.items) }
{
    let Some(apdu) = apdu_of(npdu) else {
        return Ok(Vec::new(telling.alloc));
    };
    let peer = Peer {
        link: from,
        route: npdu.source,
    };
    heard_text(telling, peer, &apdu)
}

#[tactic(auto, using(crate::proofs::EventLines::dropped_told))]
fn dropped_text(
    alloc: Global,
    format: LogFormat,
    at: u64,
    from: LinkAddress,
    cause: &Cause,
) -> io::Result<Vec<u8>>
    ensures { IfOk result (λ t. IsEventText format at (Dropped from (words.cause_words (cause_view cause.now))) t.items) }
{
    let why = cause_words(alloc, cause)?;
    let event = LogEvent::Dropped {
        link: from,
        why: why.as_str(),
    };
    event_text(alloc, format, at, event)
}

/// A datagram that came from a link.
fn came_text(telling: Telling<'_>, from: LinkAddress, octets: &[u8]) -> io::Result<Vec<u8>>
    ensures { IfOk result (λ t. IsCameText telling.entry.format telling.entry.away.now (turn_view telling.entry.turn.now) from octets.now
        (dropped_of (turn_view telling.entry.turn.now).heard) t.items) }
{
    if let Some(cause) = telling.turn.dropped() {
        return dropped_text(telling.alloc, telling.format, telling.turn.at, from, cause);
    }
    match npdu_in(octets) {
        Some(npdu) => npdu_text(telling, from, &npdu),
        None => Ok(Vec::new(telling.alloc)),
    }
}

/// The first `len` octets, or all where there are no more.
pub(crate) fn front(octets: &[u8], len: usize) -> &[u8]
    ensures { result.now ≡ take len octets.now }
{
    match octets.get(..len) {
        Some(front) => front,
        None => octets,
    }
}

/// The datagram that came, if one did.
fn received_text(telling: Telling<'_>, buffer: &[u8]) -> io::Result<Vec<u8>>
    ensures { IfOk result (λ t. IsReceivedText telling.entry.format telling.entry.away.now (turn_view telling.entry.turn.now) buffer.now
        (turn_view telling.entry.turn.now).received t.items) }
{
    match telling.turn.received {
        Some(datagram) => came_text(telling, datagram.0, front(buffer, datagram.1)),
        None => Ok(Vec::new(telling.alloc)),
    }
}

// ---- what else a turn gave

#[tactic(auto, using(crate::proofs::EventLines::rest_told))]
fn rest_text(alloc: Global, format: LogFormat, turn: &Turn) -> io::Result<Vec<u8>>
    ensures { IfOk result (λ t. IsRestText format (turn_view turn.now) t.items) }
{
    let again = sends_of(&turn.ticked).len() as u64;
    let skipped = u64::from(turn.skipped());
    let lost = turn.lost;
    let undone = count_text(alloc, format, turn.at, skipped, LogEvent::NotDone(skipped))?;
    let lost = count_text(alloc, format, turn.at, lost, LogEvent::NotSent(lost))?;
    let mut text = count_text(alloc, format, turn.at, again, LogEvent::SentAgain(again))?;
    text.extend_from_slice(lost.as_slice())?;
    text.extend_from_slice(undone.as_slice())?;
    Ok(text)
}

/// All lines of a turn.
pub(crate) fn turn_lines(
    alloc: Global,
    settings: LogSettings,
    node: &Node,
    buffer: &[u8],
    turn: &Turn,
) -> io::Result<Vec<u8>>
    ensures { IfOk result (λ t. AreTurnLines settings (seen node.now buffer.now (turn_view turn.now)) t.items) }
{
    let telling = Telling {
        alloc,
        format: settings.format,
        away: away_words(&settings, turn, node),
        turn,
    };
    let mut text = received_text(telling, buffer)?;
    let rest = rest_text(alloc, settings.format, turn)?;
    text.extend_from_slice(rest.as_slice())?;
    Ok(text)
}
