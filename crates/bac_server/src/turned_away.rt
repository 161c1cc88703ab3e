//! Requests that a server turns away since its reply table is full, for their senders at least: how many, and when a slot gets free. `Log` and `LevelLog` call it.
ghost use Rattle.std.specs.Prelude.{◌≡◌, IfOk};
ghost use Rattle.std.specs.Option.{option_map};
ghost use Rattle.bac_apdu.specs.Views.{apdu_view};
ghost use Rattle.bac_node.specs.Views.{performed_view};
ghost use Rattle.bac_driver.specs.Views.{turn_view};
ghost use Rattle.bac_server.specs.Lines.{IsFullLine, IsFullText, counts_away, is_refusal, is_refused, is_said, is_turned_away};

use crate::event_text::event_text;
use crate::frames::apdu_in;
use crate::lines::is_full_to;
use crate::log::Tally;
use crate::log_settings::{LogFormat, LogSettings};
use bac_apdu::Apdu;
use bac_driver::{Turn, sends_of};
use bac_log_json::LogEvent;
use bac_node::Node;
use bac_responder::Act;
use bac_transaction::Datagram;
use std::alloc::Global;
use std::io;

/// How long no line says again how many were turned away, in milliseconds.
const PAUSE: u64 = 1_000;

/// Whether an APDU is an Abort of reason 0.
fn is_refusal(apdu: Option<Apdu<'_>>) -> bool
    ensures { result ≡ is_refusal (option_map apdu_view apdu.entry) }
{
    match apdu {
        Some(Apdu::Abort { reason, .. }) => reason == 0,
        _ => false,
    }
}

/// Whether nothing was performed, and the first datagram that was sent is one.
fn is_refused(effect: Option<&Act>, sends: &[Datagram]) -> bool
    ensures { result ≡ is_refused (option_map (λ a. performed_view a.now) effect.entry) sends.now }
{
    if effect.is_some() {
        return false;
    }
    match sends.first() {
        Some(datagram) => is_refusal(apdu_in(datagram.octets())),
        None => false,
    }
}

/// Whether a turn turned a request away since the table is full, for its sender at least.
pub(crate) fn is_turned_away(settings: &LogSettings, node: &Node, turn: &Turn) -> bool
    ensures { result ≡ is_turned_away settings.now (turn_view turn.now) node.now.servers }
{
    is_refused(turn.effect(), sends_of(&turn.heard))
        && (settings.serves_from <= turn.at && is_full_to(settings.shares, turn, node))
}

/// One more, if there is one; the count stays at its last value.
pub(crate) fn counts_away(is_one: bool, away: u64) -> u64
    ensures { result ≡ counts_away is_one away }
{
    if is_one { away.saturating_add(1) } else { away }
}

/// Whether some were turned away, and no line has said so for a second.
pub(crate) fn is_said(at: u64, away: u64, said: Option<u64>) -> bool
    ensures { result ≡ is_said at away said }
{
    match said {
        None => away != 0,
        Some(last) => away != 0 && PAUSE <= at.saturating_sub(last),
    }
}

/// How many were turned away, and in how many milliseconds a slot gets free.
fn full_line(
    alloc: Global,
    format: LogFormat,
    at: u64,
    away: u64,
    node: &Node,
) -> io::Result<Vec<u8>>
    ensures { IfOk result (λ t. IsFullLine format at away node.now.servers t.items) }
{
    let wait = node.next_free(at).saturating_sub(at);
    event_text(alloc, format, at, LogEvent::TableFull { count: away, wait })
}

/// The line that says how many were turned away, and in how many milliseconds a slot gets free; empty where it is not said now.
pub(crate) fn full_text(
    alloc: Global,
    format: LogFormat,
    at: u64,
    tally: Tally,
    node: &Node,
) -> io::Result<Vec<u8>>
    ensures { IfOk result (λ t. IsFullText (is_said at tally.away tally.said) format at tally.away node.now.servers t.items) }
{
    if is_said(at, tally.away, tally.said) {
        full_line(alloc, format, at, tally.away, node)
    } else {
        Ok(Vec::new(alloc))
    }
}
