//! What was done, in words.
ghost use Rattle.std.specs.Prelude.{◌≡◌, IfOk};
ghost use Rattle.std.specs.Option.{option_map};
ghost use Rattle.bac_apdu.specs.Views.{apdu_view};
ghost use Rattle.bac_node.specs.Views.{performed_view};
ghost use Rattle.bac_service.specs.Views.{reply_view};
ghost use Rattle.bac_server.specs.Frames.{apdu_in};
ghost use Rattle.bac_server.specs.LogWords.{AreDoneWords, AreRepeatWords, AreReplyOrWords, AreSentWords, abort_words, kept_reply, other_words};

use crate::frames::apdu_in;
use bac_apdu::Apdu;
use bac_responder::Act;
use bac_service::{AnyReply, Reply, read_reply};
use bac_service_text::{aborted_words, rejected_words, reply_words};
use bac_transaction::Datagram;
use bac_value::NoMemory;
use std::alloc::{AllocError, Global};

/// The answer that an APDU is.
fn kept_reply<'a>(apdu: &Apdu<'a>) -> Option<Reply<'a>>
    ensures { option_map reply_view result ≡ kept_reply (apdu_view apdu.now) }
{
    match *apdu {
        Apdu::SimpleAck { .. } => Some(AnyReply::Simple),
        Apdu::ComplexAck {
            segment: None,
            choice,
            service,
            ..
        } => match read_reply(choice, service) {
            Ok(complex) => Some(AnyReply::Complex(complex)),
            Err(_) => None,
        },
        Apdu::Error { class, code, .. } => Some(AnyReply::Error { class, code }),
        _ => None,
    }
}

fn repeat_words(alloc: Global, reply: Reply<'_>) -> Result<Vec<u8>, NoMemory>
    ensures { IfOk result (λ t. AreRepeatWords (reply_view reply.entry) t.items) }
{
    let answer = reply_words(alloc, reply)?;
    let mut words = Vec::from_slice(alloc, b"repeat, ")?;
    words.extend_from_slice(answer.as_slice())?;
    Ok(words)
}

/// An Abort; of reason 0 with why a request was turned away.
fn abort_words(alloc: Global, away: &str, reason: u8) -> Result<Vec<u8>, AllocError>
    ensures { IfOk result (λ t. t.items ≡ abort_words away.now reason) }
{
    let more = if reason == 0 { away } else { "" };
    let mut words = aborted_words(alloc, reason)?;
    words.extend_from_slice(more.as_bytes())?;
    Ok(words)
}

/// An APDU that is no whole answer.
fn other_words(alloc: Global, away: &str, apdu: &Apdu<'_>) -> Result<Vec<u8>, NoMemory>
    ensures { IfOk result (λ t. t.items ≡ other_words away.now (apdu_view apdu.now)) }
{
    match *apdu {
        Apdu::ComplexAck {
            segment: Some(segment),
            ..
        } => {
            let number = segment.number;
            Ok(format!(in alloc; "segment {number}")?.into_bytes())
        }
        Apdu::SegmentAck { number, .. } => {
            Ok(format!(in alloc; "segment-ack {number}")?.into_bytes())
        }
        Apdu::Reject { reason, .. } => Ok(rejected_words(alloc, reason)?),
        Apdu::Abort { reason, .. } => Ok(abort_words(alloc, away, reason)?),
        _ => Ok(Vec::from_slice(alloc, b"sent")?),
    }
}

/// The APDU of a datagram that was sent, while nothing was performed.
fn sent_words(alloc: Global, away: &str, datagram: &Datagram) -> Result<Vec<u8>, NoMemory>
    ensures { IfOk result (λ t. AreSentWords away.now (apdu_in datagram.now.octets) t.items) }
{
    let Some(apdu) = apdu_in(datagram.octets()) else {
        return Ok(Vec::from_slice(alloc, b"sent")?);
    };
    match kept_reply(&apdu) {
        Some(reply) => repeat_words(alloc, reply),
        None => other_words(alloc, away, &apdu),
    }
}

/// What was done: what was performed is printed by its reply, all else by the first datagram that was sent.
pub(crate) fn done_words(
    alloc: Global,
    away: &str,
    effect: Option<&Act>,
    sends: &[Datagram],
) -> Result<Vec<u8>, NoMemory>
    ensures { IfOk result (λ t. AreDoneWords away.now (option_map (λ a. performed_view a.now) effect.entry) sends.now t.items) }
{
    if let Some(act) = effect {
        return reply_words(alloc, act.effect.reply.as_reply());
    }
    match sends.first() {
        Some(datagram) => sent_words(alloc, away, datagram),
        None => Ok(Vec::from_slice(alloc, b"nothing")?),
    }
}
