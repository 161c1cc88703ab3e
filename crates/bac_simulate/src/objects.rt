//! What came of the events of a script, as objects of JSON.
ghost use Rattle.std.specs.Prelude.{◌≡◌, map, IfOk};
ghost use Rattle.bac_journal.specs.Notes.{note_view};
ghost use Rattle.bac_journal.specs.Views.{copy_view};
ghost use Rattle.bac_log_json.specs.Events as object;
ghost use Rattle.bac_log_json.specs.Events.{kind_view};
ghost use Rattle.bac_network.specs.Views.{fact_view};
ghost use Rattle.bac_npdu.specs.Views.{peer_view};
ghost use Rattle.bac_requester.specs.TransactionViews.{ending_view};
ghost use Rattle.bac_service.specs.Views.{owned_reply_view};
ghost use Rattle.bac_simulate.specs.Objects.{IsEndObject, IsFactObject, IsObject, IsToldEnd, IsToldReply, id_of, pace_of, sent_kind};

use bac_commands::ending_words;
use bac_journal::{Copy, Note};
use bac_log_json::{EventKind, EventRecord, print_event_object};
use bac_network::Fact;
use bac_npdu::Peer;
use bac_requester::Ending;
use bac_service::OwnedReply;
use bac_service_text::reply_words;
use std::alloc::Global;
use std::io;
use std::io::ErrorKind;

/// The object of what came of an event at a moment.
pub(crate) fn object_at(alloc: Global, moment: u64, kind: EventKind<'_>) -> io::Result<Vec<u8>>
    ensures { IfOk result (λ t. IsObject moment (kind_view kind.entry) t.items) }
{
    let event = EventRecord {
        line: None,
        moment: Some(moment),
        kind,
    };
    let mut text = Vec::new(alloc);
    print_event_object(alloc, &event, &mut text)?;
    Ok(text)
}

/// The invoke ID of the ask with that number, where it is noted.
fn id_of(asks: &[Note], number: usize) -> Option<u8>
    ensures { result ≡ id_of (map note_view asks.now) number }
{
    match asks.get(number) {
        Some(note) => Some(note.transaction.invoke_id),
        None => None,
    }
}

fn performed_object(
    alloc: Global,
    moment: u64,
    ask: usize,
    reply: &OwnedReply,
) -> io::Result<Vec<u8>>
    ensures { IfOk result (λ t. IsToldReply (λ words. object.Performed ask words) moment (owned_reply_view reply.now) t.items) }
{
    let Ok(words) = reply_words(alloc, reply.as_reply()) else {
        return Err(io::Error::from(ErrorKind::OutOfMemory));
    };
    let kind = EventKind::Performed {
        ask: ask as u64,
        words: words.as_slice(),
    };
    object_at(alloc, moment, kind)
}

fn served_object(
    alloc: Global,
    moment: u64,
    node: usize,
    peer: Peer,
    reply: &OwnedReply,
) -> io::Result<Vec<u8>>
    ensures { IfOk result (λ t. IsToldReply (λ words. object.Served node (peer_view peer) words) moment (owned_reply_view reply.now) t.items) }
{
    let Ok(words) = reply_words(alloc, reply.as_reply()) else {
        return Err(io::Error::from(ErrorKind::OutOfMemory));
    };
    let kind = EventKind::Served {
        node: node as u64,
        peer,
        words: words.as_slice(),
    };
    object_at(alloc, moment, kind)
}

fn ended_object(alloc: Global, moment: u64, ask: usize, how: &Ending) -> io::Result<Vec<u8>>
    ensures { IfOk result (λ t. IsToldEnd moment ask (ending_view how.now) t.items) }
{
    let Ok(words) = ending_words(alloc, how) else {
        return Err(io::Error::from(ErrorKind::OutOfMemory));
    };
    let kind = EventKind::Ended {
        ask: ask as u64,
        words: words.as_slice(),
    };
    object_at(alloc, moment, kind)
}

/// The object of a fact, where these notes are of the accepted asks.
pub(crate) fn fact_object(
    alloc: Global,
    moment: u64,
    asks: &[Note],
    fact: &Fact,
) -> io::Result<Vec<u8>>
    ensures { IfOk result (λ t. IsFactObject (map note_view asks.now) moment (fact_view fact.now) t.items) }
{
    let kind = match fact {
        Fact::Asked { number, .. } => EventKind::Asked {
            ask: *number as u64,
            invoke_id: id_of(asks, *number),
        },
        Fact::AskedAway { number, peer, .. } => EventKind::AskedAway {
            ask: *number as u64,
            peer: *peer,
        },
        Fact::Changed { node, .. } => EventKind::Changed { node: *node as u64 },
        Fact::Restarted { node, .. } => EventKind::Restarted { node: *node as u64 },
        Fact::Performed { number, reply, .. } => {
            return performed_object(alloc, moment, *number, reply);
        }
        Fact::Ended { number, how } => return ended_object(alloc, moment, *number, how),
        Fact::EndedAway { number, how } => return ended_object(alloc, moment, *number, how),
        Fact::Served {
            peer,
            node,
            reply,
            ..
        } => return served_object(alloc, moment, *node, *peer, reply),
    };
    object_at(alloc, moment, kind)
}

/// A copy that was sent.
pub(crate) fn copy_object(
    alloc: Global,
    moment: u64,
    number: usize,
    copy: &Copy,
) -> io::Result<Vec<u8>>
    ensures { IfOk result (λ t. IsObject moment (sent_kind number (copy_view copy.now)) t.items) }
{
    let kind = EventKind::Sent {
        number: number as u64,
        from: copy.from as u64,
        to: copy.to as u64,
        octets: copy.octets.as_slice(),
    };
    object_at(alloc, moment, kind)
}

/// The fault that ends a script at that line, and why in words.
pub(crate) fn end_object(alloc: Global, line: u64, fault: u8, why: &str) -> io::Result<Vec<u8>>
    ensures { IfOk result (λ t. IsEndObject line fault why.now t.items) }
{
    let event = EventRecord {
        line: Some(line),
        moment: None,
        kind: EventKind::Fault { fault, why },
    };
    let mut text = Vec::new(alloc);
    print_event_object(alloc, &event, &mut text)?;
    Ok(text)
}

/// By how many parts in a million a clock is fast, or slow after a minus.
fn pace_of(rate: u32) -> i64
    ensures { result ≡ pace_of rate }
{
    i64::from(rate) - 1_000_000
}

/// The object that says that a node's clock goes at this rate from then on.
pub(crate) fn paced_object(alloc: Global, moment: u64, node: u64, rate: u32) -> io::Result<Vec<u8>>
    ensures { IfOk result (λ t. IsObject moment (object.Paced node (pace_of rate)) t.items) }
{
    let pace = pace_of(rate);
    object_at(alloc, moment, EventKind::Paced { node, pace })
}
