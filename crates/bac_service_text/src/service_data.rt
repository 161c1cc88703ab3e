//! The service data of APDUs in words.
ghost use Rattle.std.specs.Prelude.{◌≡◌, IfOk};
ghost use Rattle.bac_service.specs.Services.{request_at};
ghost use Rattle.bac_service_text.specs.ServiceData.{AreReplyDataWords, AreRequestDataWords, found_request_label, segments_text, service_text};

use crate::dispatch::{complex_words, request_label, request_words};
use bac_service::{read_reply, read_request};
use bac_value::NoMemory;
use std::alloc::{AllocError, Global};

/// A service by its choice alone, as `service 14`.
fn service_text(alloc: Global, choice: u8) -> Result<Vec<u8>, AllocError>
    ensures { IfOk result (λ t. t.items ≡ service_text choice) }
{
    let text = format!(in alloc; "service {choice}")?;
    Ok(text.into_bytes())
}

/// A service of whose data only a segment is at hand, as `service 6 in segments`. An Err is out of memory.
pub fn segments_text(alloc: Global, choice: u8) -> Result<Vec<u8>, AllocError>
    ensures { IfOk result (λ t. t.items ≡ segments_text choice) }
{
    let text = format!(in alloc; "service {choice} in segments")?;
    Ok(text.into_bytes())
}

/// The request that the service data of a Confirmed-Request spell, in words as [`request_words`]; `service` and the choice where they spell none of the four
/// services. An Err is out of memory.
pub fn request_data_words(alloc: Global, choice: u8, service: &[u8]) -> Result<Vec<u8>, NoMemory>
    ensures { IfOk result (λ t. AreRequestDataWords choice service.now t.items) }
{
    match read_request(choice, service) {
        Ok(request) => request_words(alloc, request),
        Err(_) => Ok(service_text(alloc, choice)?),
    }
}

/// The same in short, without values, for the arrow of a chart; `confirmed-request` where the service data spell no request of the four services. An Err is out
/// of memory.
pub fn request_data_label(alloc: Global, choice: u8, service: &[u8]) -> Result<Vec<u8>, AllocError>
    ensures { IfOk result (λ t. t.items ≡ found_request_label (request_at choice service.now)) }
{
    match read_request(choice, service) {
        Ok(request) => request_label(alloc, request),
        Err(_) => Vec::from_slice(alloc, b"confirmed-request"),
    }
}

/// What the service data of a ComplexACK say, in words: a file's octets in hexadecimal, where a file was written, or the values of a property; `service` and
/// the choice where they spell nothing that a service answers. An Err is out of memory.
pub fn reply_data_words(alloc: Global, choice: u8, service: &[u8]) -> Result<Vec<u8>, NoMemory>
    ensures { IfOk result (λ t. AreReplyDataWords choice service.now t.items) }
{
    match read_reply(choice, service) {
        Ok(complex) => complex_words(alloc, complex),
        Err(_) => Ok(service_text(alloc, choice)?),
    }
}
