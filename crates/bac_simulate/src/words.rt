//! An event, and what came of it, in words.
ghost use Rattle.std.specs.Prelude.{◌≡◌, decimal, IfOk};
ghost use Rattle.bac_journal.specs.Views.{copy_view};
ghost use Rattle.bac_network.specs.Views.{fact_view};
ghost use Rattle.bac_npdu.specs.Views.{peer_view};
ghost use Rattle.bac_simulate.specs.Views.{happening_view};
ghost use Rattle.bac_text.specs.Peers.{peer_text};
ghost use Rattle.bac_service.specs.Views.{owned_reply_view, owned_request_view};
ghost use Rattle.bac_store.specs.Views.{change_view};
ghost use Rattle.bac_requester.specs.TransactionViews.{ending_view};
ghost use Rattle.bac_simulate.specs.Worded.{AreAskWords, AreEndedWords, AreEventWords, AreFactWords, ArePerformedWords, AreServedWords, IsEventLine, IsFactLine};
ghost use Rattle.bac_simulate.specs.Worded.{change_words, lose_text, news_line, pace_line_text, refused_news, sent_words, stranger_words};

use crate::printing::pace_text;
use bac_chart::datagram_words;
use bac_commands::ending_words;
use bac_journal::Copy;
use bac_network::{Event, Fact};
use bac_npdu::{LinkAddress, Peer};
use bac_requester::Ending;
use bac_service::{OwnedReply, OwnedRequest};
use bac_service_text::{reply_words, request_words};
use bac_store::Change;
use bac_text::{link_text, peer_text};
use bac_value_text::{object_text, property_text};
use std::alloc::{AllocError, Global};
use std::io;
use std::io::ErrorKind;

// ---- an event

fn ask_words(
    alloc: Global,
    client: usize,
    server: usize,
    request: &OwnedRequest,
) -> io::Result<Vec<u8>>
    ensures { IfOk result (λ t. AreAskWords client (decimal server) (owned_request_view request.now) t.items) }
{
    let Ok(asked) = request_words(alloc, request.as_request()) else {
        return Err(io::Error::from(ErrorKind::OutOfMemory));
    };
    let mut words = format!(in alloc; "ask {client} {server} ")?.into_bytes();
    words.extend_from_slice(asked.as_slice())?;
    Ok(words)
}

fn ask_stranger_words(
    alloc: Global,
    client: usize,
    peer: Peer,
    request: &OwnedRequest,
) -> io::Result<Vec<u8>>
    ensures { IfOk result (λ t. AreAskWords client (peer_text (peer_view peer)) (owned_request_view request.now) t.items) }
{
    let Ok(asked) = request_words(alloc, request.as_request()) else {
        return Err(io::Error::from(ErrorKind::OutOfMemory));
    };
    let peer = peer_text(alloc, peer)?;
    let mut words = format!(in alloc; "ask {client} {peer} ")?.into_bytes();
    words.extend_from_slice(asked.as_slice())?;
    Ok(words)
}

/// Octets of a stranger: what they are.
fn stranger_words(
    alloc: Global,
    node: usize,
    from: LinkAddress,
    octets: &[u8],
) -> Result<Vec<u8>, AllocError>
    ensures { IfOk result (λ t. t.items ≡ stranger_words node from octets.now) }
{
    let link = link_text(alloc, from)?;
    let datagram = datagram_words(alloc, octets)?;
    let mut words = format!(in alloc; "stranger {node} {link} ")?.into_bytes();
    words.extend_from_slice(datagram.as_slice())?;
    Ok(words)
}

fn change_words(alloc: Global, node: usize, change: &Change) -> Result<Vec<u8>, AllocError>
    ensures { IfOk result (λ t. t.items ≡ change_words node (change_view change.now)) }
{
    match change {
        Change::Value {
            object,
            property,
            ..
        } => {
            let object = object_text(alloc, *object)?;
            let property = property_text(alloc, *property)?;
            let mut words = format!(in alloc; "set {node} ")?.into_bytes();
            words.extend_from_slice(object.as_slice())?;
            words.push(b' ')?;
            words.extend_from_slice(property.as_bytes())?;
            Ok(words)
        }
        Change::File { object, .. } => {
            let object = object_text(alloc, *object)?;
            let mut words = format!(in alloc; "file {node} ")?.into_bytes();
            words.extend_from_slice(object.as_slice())?;
            Ok(words)
        }
    }
}

fn event_words(alloc: Global, event: &Event) -> io::Result<Vec<u8>>
    ensures { IfOk result (λ t. AreEventWords (happening_view event.now) t.items) }
{
    let words = match event {
        Event::Ask {
            client,
            server,
            request,
            ..
        } => return ask_words(alloc, *client, *server, request),
        Event::AskStranger {
            node,
            peer,
            request,
            ..
        } => return ask_stranger_words(alloc, *node, *peer, request),
        Event::Stranger { node, from, octets } => {
            return Ok(stranger_words(alloc, *node, *from, octets)?);
        }
        Event::Change { node, change } => return Ok(change_words(alloc, *node, change)?),
        Event::Deliver { number } => format!(in alloc; "deliver {number}")?,
        Event::Noise { node, .. } => format!(in alloc; "noise {node}")?,
        Event::Tick { node } => format!(in alloc; "tick {node}")?,
        Event::Advance { by } => format!(in alloc; "advance {by}")?,
        Event::Restart { node, .. } => format!(in alloc; "restart {node}")?,
        Event::Begin { node } => format!(in alloc; "begin {node}")?,
        Event::BeginAgain { node, .. } => format!(in alloc; "begin again {node}")?,
    };
    Ok(words.into_bytes())
}

/// An event at that moment.
pub(crate) fn event_line(alloc: Global, now: u64, event: &Event) -> io::Result<Vec<u8>>
    ensures { IfOk result (λ t. IsEventLine now (happening_view event.now) t.items) }
{
    let words = event_words(alloc, event)?;
    let mut text = format!(in alloc; "{now} ")?.into_bytes();
    text.extend_from_slice(words.as_slice())?;
    text.push(b'\n')?;
    Ok(text)
}

// ---- what came of it

fn performed_words(alloc: Global, ask: usize, reply: &OwnedReply) -> io::Result<Vec<u8>>
    ensures { IfOk result (λ t. ArePerformedWords ask (owned_reply_view reply.now) t.items) }
{
    let Ok(answer) = reply_words(alloc, reply.as_reply()) else {
        return Err(io::Error::from(ErrorKind::OutOfMemory));
    };
    let mut words = format!(in alloc; "performed {ask}: ")?.into_bytes();
    words.extend_from_slice(answer.as_slice())?;
    Ok(words)
}

/// A request of a stranger was performed, with that reply.
fn served_words(alloc: Global, node: usize, peer: Peer, reply: &OwnedReply) -> io::Result<Vec<u8>>
    ensures { IfOk result (λ t. AreServedWords node (peer_view peer) (owned_reply_view reply.now) t.items) }
{
    let Ok(answer) = reply_words(alloc, reply.as_reply()) else {
        return Err(io::Error::from(ErrorKind::OutOfMemory));
    };
    let peer = peer_text(alloc, peer)?;
    let mut words = format!(in alloc; "served {node} {peer}: ")?.into_bytes();
    words.extend_from_slice(answer.as_slice())?;
    Ok(words)
}

fn ended_words(alloc: Global, ask: usize, how: &Ending) -> io::Result<Vec<u8>>
    ensures { IfOk result (λ t. AreEndedWords ask (ending_view how.now) t.items) }
{
    let Ok(ending) = ending_words(alloc, how) else {
        return Err(io::Error::from(ErrorKind::OutOfMemory));
    };
    let mut words = format!(in alloc; "ended {ask}: ")?.into_bytes();
    words.extend_from_slice(ending.as_slice())?;
    Ok(words)
}

fn fact_words(alloc: Global, fact: &Fact) -> io::Result<Vec<u8>>
    ensures { IfOk result (λ t. AreFactWords (fact_view fact.now) t.items) }
{
    let words = match fact {
        Fact::Performed { number, reply, .. } => return performed_words(alloc, *number, reply),
        Fact::Ended { number, how } | Fact::EndedAway { number, how } => {
            return ended_words(alloc, *number, how);
        }
        Fact::Served {
            peer,
            node,
            reply,
            ..
        } => return served_words(alloc, *node, *peer, reply),
        Fact::AskedAway { number, peer, .. } => {
            let peer = peer_text(alloc, *peer)?;
            format!(in alloc; "asked {number} {peer}")?
        }
        Fact::Asked { number, .. } => format!(in alloc; "asked {number}")?,
        Fact::Changed { node, .. } => format!(in alloc; "changed {node}")?,
        Fact::Restarted { node, .. } => format!(in alloc; "restarted {node}")?,
    };
    Ok(words.into_bytes())
}

fn sent_words(alloc: Global, number: usize, copy: &Copy) -> Result<Vec<u8>, AllocError>
    ensures { IfOk result (λ t. t.items ≡ sent_words number (copy_view copy.now)) }
{
    let from = copy.from;
    let to = copy.to;
    let datagram = datagram_words(alloc, &copy.octets)?;
    let mut words = format!(in alloc; "sent {number} {from}>{to} ")?.into_bytes();
    words.extend_from_slice(datagram.as_slice())?;
    Ok(words)
}

/// A line below an event's.
pub(crate) fn news_line(alloc: Global, words: &[u8]) -> Result<Vec<u8>, AllocError>
    ensures { IfOk result (λ t. t.items ≡ news_line words.now) }
{
    let mut text = Vec::from_slice(alloc, b"  ")?;
    text.extend_from_slice(words)?;
    text.push(b'\n')?;
    Ok(text)
}

/// A fact.
pub(crate) fn fact_line(alloc: Global, fact: &Fact) -> io::Result<Vec<u8>>
    ensures { IfOk result (λ t. IsFactLine (fact_view fact.now) t.items) }
{
    let words = fact_words(alloc, fact)?;
    Ok(news_line(alloc, words.as_slice())?)
}

/// A copy that was sent.
pub(crate) fn sent_line(alloc: Global, number: usize, copy: &Copy) -> io::Result<Vec<u8>>
    ensures { IfOk result (λ t. t.items ≡ news_line (sent_words number (copy_view copy.now))) }
{
    let words = sent_words(alloc, number, copy)?;
    Ok(news_line(alloc, words.as_slice())?)
}

/// The line that says that an ask or a change was refused, by the number of the fault, and why in words.
pub(crate) fn refused_line(alloc: Global, fault: u8, why: &str) -> Result<Vec<u8>, AllocError>
    ensures { IfOk result (λ t. t.items ≡ refused_news fault why.now) }
{
    let words = format!(in alloc; "refused {fault}: {why}")?;
    news_line(alloc, words.as_bytes())
}

/// The lines that say that a copy counts as lost.
pub(crate) fn lose_text(alloc: Global, now: u64, copy: u64) -> Result<Vec<u8>, AllocError>
    ensures { IfOk result (λ t. t.items ≡ lose_text now copy) }
{
    let text = format!(in alloc; "{now} lose {copy}\n  lost: the script says so\n")?;
    Ok(text.into_bytes())
}

/// The lines that say that a node's clock goes at this rate from then on.
pub(crate) fn pace_line(
    alloc: Global,
    now: u64,
    node: u64,
    rate: u32,
) -> Result<Vec<u8>, AllocError>
    ensures { IfOk result (λ t. t.items ≡ pace_line_text now node rate) }
{
    let pace = pace_text(alloc, rate)?;
    let text = format!(in alloc; "{now} pace {node} {pace}\n  paced\n")?;
    Ok(text.into_bytes())
}
