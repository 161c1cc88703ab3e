//! What came, in words.
ghost use Rattle.std.specs.Prelude.{◌≡◌, IfOk};
ghost use Rattle.std.specs.Option.{option_map};
ghost use Rattle.bac_apdu.specs.Views.{apdu_view, segment_view};
ghost use Rattle.bac_node.specs.Views.{performed_view};
ghost use Rattle.bac_server.specs.LogWords.{AreAskedWords, AreAskingWords, AreCameWords, segment_words};

use bac_apdu::{Apdu, Segment};
use bac_responder::Act;
use bac_service_text::{abort_words, request_data_words, request_words};
use bac_value::NoMemory;
use std::alloc::{AllocError, Global};

fn segment_words(alloc: Global, choice: u8, segment: Segment) -> Result<Vec<u8>, AllocError>
    ensures { IfOk result (λ t. t.items ≡ segment_words choice (segment_view segment)) }
{
    let number = segment.number;
    let text = format!(in alloc; "service {choice} segment {number}")?;
    Ok(text.into_bytes())
}

/// A request, or a segment of one.
fn asked_words(
    alloc: Global,
    segment: Option<Segment>,
    choice: u8,
    service: &[u8],
) -> Result<Vec<u8>, NoMemory>
    ensures { IfOk result (λ t. AreAskedWords (option_map segment_view segment) choice service.now t.items) }
{
    match segment {
        None => request_data_words(alloc, choice, service),
        Some(segment) => Ok(segment_words(alloc, choice, segment)?),
    }
}

/// An APDU that came.
fn came_words(alloc: Global, apdu: &Apdu<'_>) -> Result<Vec<u8>, NoMemory>
    ensures { IfOk result (λ t. AreCameWords (apdu_view apdu.now) t.items) }
{
    match *apdu {
        Apdu::ConfirmedRequest {
            segment,
            choice,
            service,
            ..
        } => asked_words(alloc, segment, choice, service),
        Apdu::UnconfirmedRequest { choice, .. } => {
            Ok(format!(in alloc; "unconfirmed-request {choice}")?.into_bytes())
        }
        Apdu::SimpleAck { .. } => Ok(Vec::from_slice(alloc, b"simple-ack")?),
        Apdu::ComplexAck { .. } => Ok(Vec::from_slice(alloc, b"complex-ack")?),
        Apdu::SegmentAck { number, .. } => {
            Ok(format!(in alloc; "segment-ack {number}")?.into_bytes())
        }
        Apdu::Error { .. } => Ok(Vec::from_slice(alloc, b"error")?),
        Apdu::Reject { .. } => Ok(Vec::from_slice(alloc, b"reject")?),
        Apdu::Abort { reason, .. } => Ok(abort_words(alloc, reason)?),
    }
}

/// An APDU that came, or the request that was performed for it.
pub(crate) fn asking_words(
    alloc: Global,
    effect: Option<&Act>,
    apdu: &Apdu<'_>,
) -> Result<Vec<u8>, NoMemory>
    ensures { IfOk result (λ t. AreAskingWords (option_map (λ a. performed_view a.now) effect.entry) (apdu_view apdu.now) t.items) }
{
    match effect {
        Some(act) => request_words(alloc, act.effect.request.as_request()),
        None => came_words(alloc, apdu),
    }
}
