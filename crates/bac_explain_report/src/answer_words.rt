//! Replies in words.
ghost use Rattle.std.specs.Prelude.{◌≡◌, IfOk};
ghost use Rattle.std.specs.Option.{option_map};
ghost use Rattle.bac_apdu.specs.Views.{apdu_view, segment_view};
ghost use Rattle.bac_explain_report.specs.AnswerWords.{AreAnswerWords, AreFoundWords, AreOctetsWords, ArePartWords};
ghost use Rattle.bac_service.specs.Services.{complex_at};

use crate::service_words::{segments_words, service_words};
use bac_apdu::{Apdu, Segment, read};
use bac_service::read_reply;
use bac_service_text::{error_words, reply_data_words};
use bac_value::NoMemory;
use bac_value_text::{abort_text, reject_text};
use std::alloc::Global;

/// The words of service data: what they answer, or the name of the service.
fn data_words(alloc: Global, choice: u8, service: &[u8]) -> Result<Vec<u8>, NoMemory>
    ensures { IfOk result (λ t. AreFoundWords choice service.now (complex_at choice service.now) t.items) }
{
    match read_reply(choice, service) {
        Ok(_) => reply_data_words(alloc, choice, service),
        Err(_) => Ok(service_words(alloc, choice)?),
    }
}

/// The words of a ComplexACK, or of a segment of one.
fn acknowledged_words(
    alloc: Global,
    segment: Option<Segment>,
    choice: u8,
    service: &[u8],
) -> Result<Vec<u8>, NoMemory>
    ensures { IfOk result (λ t. ArePartWords (option_map segment_view segment) choice service.now t.items) }
{
    match segment {
        None => data_words(alloc, choice, service),
        Some(_) => Ok(segments_words(alloc, choice)?),
    }
}

/// The words of an APDU with a reply.
fn answer_words(alloc: Global, apdu: Apdu<'_>) -> Result<Vec<u8>, NoMemory>
    ensures { IfOk result (λ t. AreAnswerWords (apdu_view apdu.entry) t.items) }
{
    match apdu {
        Apdu::SimpleAck { .. } => Ok(Vec::from_slice(alloc, b"acknowledged")?),
        Apdu::ComplexAck {
            segment,
            choice,
            service,
            ..
        } => acknowledged_words(alloc, segment, choice, service),
        Apdu::Error { class, code, .. } => Ok(error_words(alloc, class, code)?),
        Apdu::Reject { reason, .. } => Ok(reject_text(alloc, reason)?.into_bytes()),
        Apdu::Abort { reason, .. } => Ok(abort_text(alloc, reason)?.into_bytes()),
        Apdu::ConfirmedRequest { .. } | Apdu::UnconfirmedRequest { .. } | Apdu::SegmentAck { .. } =>
            Ok(Vec::new(alloc)),
    }
}

/// The words of a reply, from the octets of its APDU; none if it is no reply. An Err is out of memory.
pub fn told_words(alloc: Global, octets: &[u8]) -> Result<Vec<u8>, NoMemory>
    ensures { IfOk result (λ t. AreOctetsWords octets.now t.items) }
{
    match read(octets) {
        Ok(apdu) => answer_words(alloc, apdu),
        Err(_) => Ok(Vec::new(alloc)),
    }
}
