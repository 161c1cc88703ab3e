//! What a datagram is, in short.
ghost use Rattle.std.specs.Prelude.{◌≡◌, IfOk, string_bytes};
ghost use Rattle.bac_apdu.specs.Reading.{apdu_at};
ghost use Rattle.bac_apdu.specs.Views.{apdu_view, segment_view};
ghost use Rattle.bac_chart.specs.Labels.{apdu_words, complex_words, contents_words, datagram_words, read_words, reject_words, request_words, segment_ack_words};
ghost use Rattle.bac_npdu.specs.Views.{npdu_view};
ghost use Rattle.std.specs.Option.{option_map};

use bac_apdu::{Apdu, Segment, read};
use bac_npdu::{Npdu, read_bvll, read_npdu};
use bac_service_text::{abort_words, error_words, request_data_label};
use bac_value_text::reject_text;
use std::alloc::{AllocError, Global};

/// A Confirmed-Request: what it asks for, or the number of the segment.
fn request_words(
    alloc: Global,
    segment: Option<Segment>,
    choice: u8,
    service: &[u8],
) -> Result<Vec<u8>, AllocError>
    ensures { IfOk result (λ t. t.items ≡ request_words (option_map segment_view segment) choice service.now) }
{
    let Some(segment) = segment else {
        return request_data_label(alloc, choice, service);
    };
    let number = segment.number;
    let words = format!(in alloc; "request segment {number}")?;
    Ok(words.into_bytes())
}

/// A ComplexACK, or the number of the segment.
fn complex_words(alloc: Global, segment: Option<Segment>) -> Result<Vec<u8>, AllocError>
    ensures { IfOk result (λ t. t.items ≡ complex_words (option_map segment_view segment)) }
{
    let Some(segment) = segment else {
        return Vec::from_slice(alloc, b"complex-ack");
    };
    let number = segment.number;
    let words = format!(in alloc; "reply segment {number}")?;
    Ok(words.into_bytes())
}

fn segment_ack_words(alloc: Global, nak: bool, number: u8) -> Result<Vec<u8>, AllocError>
    ensures { IfOk result (λ t. t.items ≡ segment_ack_words nak number) }
{
    let words = if nak {
        format!(in alloc; "negative segment-ack {number}")?
    } else {
        format!(in alloc; "segment-ack {number}")?
    };
    Ok(words.into_bytes())
}

fn reject_words(alloc: Global, reason: u8) -> Result<Vec<u8>, AllocError>
    ensures { IfOk result (λ t. t.items ≡ reject_words reason) }
{
    let reason = reject_text(alloc, reason)?;
    let words = format!(in alloc; "reject {reason}")?;
    Ok(words.into_bytes())
}

fn apdu_words(alloc: Global, apdu: Apdu<'_>) -> Result<Vec<u8>, AllocError>
    ensures { IfOk result (λ t. t.items ≡ apdu_words (apdu_view apdu.entry)) }
{
    match apdu {
        Apdu::ConfirmedRequest {
            segment,
            choice,
            service,
            ..
        } => request_words(alloc, segment, choice, service),
        Apdu::UnconfirmedRequest { .. } => Vec::from_slice(alloc, b"unconfirmed-request"),
        Apdu::SimpleAck { .. } => Vec::from_slice(alloc, b"simple-ack"),
        Apdu::ComplexAck { segment, .. } => complex_words(alloc, segment),
        Apdu::SegmentAck { nak, number, .. } => segment_ack_words(alloc, nak, number),
        Apdu::Error { class, code, .. } => error_words(alloc, class, code),
        Apdu::Reject { reason, .. } => reject_words(alloc, reason),
        Apdu::Abort { reason, .. } => abort_words(alloc, reason),
    }
}

/// What the octets of an APDU are, in short, as `datagram_words` says it of a datagram's. `octets` where they are none.
pub fn octets_words(alloc: Global, octets: &[u8]) -> Result<Vec<u8>, AllocError>
    ensures { IfOk result (λ t. t.items ≡ read_words (apdu_at octets.now)) }
{
    match read(octets) {
        Ok(apdu) => apdu_words(alloc, apdu),
        Err(_) => Vec::from_slice(alloc, b"octets"),
    }
}

fn contents_words(alloc: Global, npdu: Npdu<'_>) -> Result<Vec<u8>, AllocError>
    ensures { IfOk result (λ t. t.items ≡ contents_words (npdu_view npdu.entry).message (npdu_view npdu.entry).contents) }
{
    if npdu.message.is_some() {
        return Vec::from_slice(alloc, b"network-message");
    }
    octets_words(alloc, npdu.contents)
}

/// What a datagram is, in short. A request is what it asks for, as `bac ask` takes it, without values. Another APDU is its kind, or the number of a
/// segment; an Error and reasons are named. `octets` where it has no APDU.
pub fn datagram_words(alloc: Global, datagram: &[u8]) -> Result<Vec<u8>, AllocError>
    ensures { IfOk result (λ t. t.items ≡ datagram_words datagram.now) }
{
    let Ok(npdu) = read_bvll(datagram) else {
        return Vec::from_slice(alloc, b"octets");
    };
    match read_npdu(npdu) {
        Ok(npdu) => contents_words(alloc, npdu),
        Err(_) => Vec::from_slice(alloc, b"octets"),
    }
}
