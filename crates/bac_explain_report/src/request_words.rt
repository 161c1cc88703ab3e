//! Requests in words.
ghost use Rattle.std.specs.Prelude.{◌≡◌, IfOk};
ghost use Rattle.bac_apdu.specs.Views.{apdu_view};
ghost use Rattle.bac_explain_report.specs.RequestWords.{AreAskingWords, AreFoundWords, AreOctetsWords};
ghost use Rattle.bac_service.specs.Services.{request_at};

use crate::service_words::{segments_words, service_words};
use bac_apdu::{Apdu, read};
use bac_service::read_request;
use bac_service_text::request_words;
use bac_value::NoMemory;
use std::alloc::Global;

/// The words of service data: of a request of the four services, or the name of the service.
fn data_words(alloc: Global, choice: u8, service: &[u8]) -> Result<Vec<u8>, NoMemory>
    ensures { IfOk result (λ t. AreFoundWords choice (request_at choice service.now) t.items) }
{
    match read_request(choice, service) {
        Ok(request) => request_words(alloc, request),
        Err(_) => Ok(service_words(alloc, choice)?),
    }
}

/// The words of an APDU with a request.
fn asking_words(alloc: Global, apdu: Apdu<'_>) -> Result<Vec<u8>, NoMemory>
    ensures { IfOk result (λ t. AreAskingWords (apdu_view apdu.entry) t.items) }
{
    let Apdu::ConfirmedRequest {
        segment,
        choice,
        service,
        ..
    } = apdu
    else {
        return Ok(Vec::new(alloc));
    };
    match segment {
        None => data_words(alloc, choice, service),
        Some(_) => Ok(segments_words(alloc, choice)?),
    }
}

/// The words of a request, from the octets of its APDU; none if it is no request. An Err is out of memory.
pub fn asked_words(alloc: Global, octets: &[u8]) -> Result<Vec<u8>, NoMemory>
    ensures { IfOk result (λ t. AreOctetsWords octets.now t.items) }
{
    match read(octets) {
        Ok(apdu) => asking_words(alloc, apdu),
        Err(_) => Ok(Vec::new(alloc)),
    }
}
