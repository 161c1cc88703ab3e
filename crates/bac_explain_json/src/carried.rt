//! What the APDUs of a transaction carry.
ghost use Rattle.std.specs.Prelude.{◌≡◌, IfOk};
ghost use Rattle.bac_apdu.specs.Reading.{apdu_at};
ghost use Rattle.bac_apdu.specs.Views.{apdu_view};
ghost use Rattle.bac_explain_json.specs.Carried.{IsAnswer, IsAnswerIn, IsAsked, IsAskedIn};
ghost use Rattle.bac_json.specs.Datagrams.{IsReadComplex, IsReadRequest};
ghost use Rattle.bac_service.specs.Services.{complex_at, request_at};
ghost use Rattle.serde_json.specs.View.{view};

use bac_apdu::{Apdu, read};
use bac_json::{complex_json, reason_json, reply_json, request_json};
use bac_service::{AnyReply, read_reply, read_request};
use bac_value::NoMemory;
use serde_json::Value as Json;
use std::alloc::Global;

/// The request that service data are; Null where they are none.
fn request_or_null(alloc: Global, choice: u8, service: &[u8]) -> Result<Json, NoMemory>
    ensures { IfOk result (λ v. IsReadRequest (request_at choice service.now) (view v)) }
{
    match read_request(choice, service) {
        Ok(request) => request_json(alloc, request),
        Err(_) => Ok(Json::Null),
    }
}

/// What the service data of a ComplexACK are; Null where they are none.
fn complex_or_null(alloc: Global, choice: u8, service: &[u8]) -> Result<Json, NoMemory>
    ensures { IfOk result (λ v. IsReadComplex (complex_at choice service.now) (view v)) }
{
    match read_reply(choice, service) {
        Ok(complex) => complex_json(alloc, complex),
        Err(_) => Ok(Json::Null),
    }
}

fn asked_by(alloc: Global, apdu: Apdu<'_>) -> Result<Json, NoMemory>
    ensures { IfOk result (λ v. IsAsked (apdu_view apdu.entry) (view v)) }
{
    match apdu {
        Apdu::ConfirmedRequest {
            segment: None,
            choice,
            service,
            ..
        } => request_or_null(alloc, choice, service),
        _ => Ok(Json::Null),
    }
}

fn answered_by(alloc: Global, apdu: Apdu<'_>) -> Result<Json, NoMemory>
    ensures { IfOk result (λ v. IsAnswer (apdu_view apdu.entry) (view v)) }
{
    match apdu {
        Apdu::ComplexAck {
            segment: None,
            choice,
            service,
            ..
        } => complex_or_null(alloc, choice, service),
        Apdu::Error { class, code, .. } => reply_json(alloc, AnyReply::Error { class, code }),
        Apdu::Reject { reason, .. } | Apdu::Abort { reason, .. } => Ok(reason_json(alloc, reason)?),
        _ => Ok(Json::Null),
    }
}

/// The request that an APDU carries whole; Null where it carries none of the four services. An Err is out of memory.
pub(crate) fn asked_json(alloc: Global, octets: &[u8]) -> Result<Json, NoMemory>
    ensures { IfOk result (λ v. IsAskedIn (apdu_at octets.now) (view v)) }
{
    match read(octets) {
        Ok(apdu) => asked_by(alloc, apdu),
        Err(_) => Ok(Json::Null),
    }
}

/// What an APDU says that answers: of a whole ComplexACK its service data, of an Error its class and code, of a Reject and an Abort the reason; otherwise
/// Null. An Err is out of memory.
pub(crate) fn answer_json(alloc: Global, octets: &[u8]) -> Result<Json, NoMemory>
    ensures { IfOk result (λ v. IsAnswerIn (apdu_at octets.now) (view v)) }
{
    match read(octets) {
        Ok(apdu) => answered_by(alloc, apdu),
        Err(_) => Ok(Json::Null),
    }
}
