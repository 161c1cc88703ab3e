//! The layers of a datagram.
ghost use Rattle.std.specs.Prelude.{◌≡◌, IfOk};
ghost use Rattle.std.specs.Option.{option_map};
ghost use Rattle.bac_apdu.specs.Reading.{apdu_at};
ghost use Rattle.bac_apdu.specs.Views.{apdu_view};
ghost use Rattle.bac_json.specs.Datagrams.{AreApduForms, AreContentForms, AreLayerForms, AreNpduForms, AreServiceForms, IsReadComplex, IsReadRequest, layers_view};
ghost use Rattle.bac_npdu.specs.Reading.{bvll_at, npdu_at};
ghost use Rattle.bac_npdu.specs.Views.{message_view};
ghost use Rattle.bac_service.specs.Services.{complex_at, request_at};
ghost use Rattle.serde_json.specs.View.{view};

use crate::apdu::apdu_json;
use crate::npdu::npdu_json;
use crate::reply::complex_json;
use crate::request::request_json;
use bac_apdu::Apdu;
use bac_npdu::{Message, read_bvll, read_npdu};
use bac_service::{read_reply, read_request};
use bac_value::NoMemory;
use serde_json::Value as Json;
use std::alloc::Global;

/// The layers of a datagram: Null for what it does not have, or what cannot be read.
#[derive(Drop)]
pub struct Layers {
    /// The NPDU.
    pub npdu: Json,
    /// The APDU in it.
    pub apdu: Json,
    /// What the APDU carries whole of one of the four services: a request, or the service data of a ComplexACK.
    pub service: Json,
}

const NO_LAYERS: Layers = Layers {
    npdu: Json::Null,
    apdu: Json::Null,
    service: Json::Null,
};

/// The request that service data are; Null where they are none.
fn request_or_null(alloc: Global, choice: u8, service: &[u8]) -> Result<Json, NoMemory>
    ensures { IfOk result (λ v. IsReadRequest (request_at choice service.now) (view v)) }
{
    match read_request(choice, service) {
        Ok(request) => request_json(alloc, request),
        Err(_) => Ok(Json::Null),
    }
}

/// What the service data of a ComplexACK are; Null where they are none.
fn complex_or_null(alloc: Global, choice: u8, service: &[u8]) -> Result<Json, NoMemory>
    ensures { IfOk result (λ v. IsReadComplex (complex_at choice service.now) (view v)) }
{
    match read_reply(choice, service) {
        Ok(complex) => complex_json(alloc, complex),
        Err(_) => Ok(Json::Null),
    }
}

/// The request or the service data of a ComplexACK that an APDU carries whole.
fn service_json(alloc: Global, apdu: Apdu<'_>) -> Result<Json, NoMemory>
    ensures { IfOk result (λ v. AreServiceForms (apdu_view apdu.entry) (view v)) }
{
    match apdu {
        Apdu::ConfirmedRequest {
            segment: None,
            choice,
            service,
            ..
        } => request_or_null(alloc, choice, service),
        Apdu::ComplexAck {
            segment: None,
            choice,
            service,
            ..
        } => complex_or_null(alloc, choice, service),
        Apdu::ConfirmedRequest { .. }
        | Apdu::UnconfirmedRequest { .. }
        | Apdu::SimpleAck { .. }
        | Apdu::ComplexAck { .. }
        | Apdu::SegmentAck { .. }
        | Apdu::Error { .. }
        | Apdu::Reject { .. }
        | Apdu::Abort { .. } => Ok(Json::Null),
    }
}

/// An APDU, and what it carries, after the NPDU around it.
fn apdu_layers(alloc: Global, npdu: Json, octets: &[u8]) -> Result<Layers, NoMemory>
    ensures { IfOk result (λ l. (l.npdu ≡ npdu) × AreApduForms (apdu_at octets.now) (view l.apdu) (view l.service)) }
{
    match bac_apdu::read(octets) {
        Ok(apdu) => {
            let service = service_json(alloc, apdu)?;
            let apdu = apdu_json(alloc, apdu)?;
            Ok(Layers {
                npdu,
                apdu,
                service,
            })
        }
        Err(_) => Ok(Layers {
            npdu,
            apdu: Json::Null,
            service: Json::Null,
        }),
    }
}

fn content_layers(
    alloc: Global,
    npdu: Json,
    message: Option<Message>,
    contents: &[u8],
) -> Result<Layers, NoMemory>
    ensures { IfOk result (λ l. (l.npdu ≡ npdu) × AreContentForms (option_map message_view message) contents.now (view l.apdu) (view l.service)) }
{
    match message {
        Some(_) => Ok(Layers {
            npdu,
            apdu: Json::Null,
            service: Json::Null,
        }),
        None => apdu_layers(alloc, npdu, contents),
    }
}

/// An NPDU, and what it carries.
pub fn npdu_layers(alloc: Global, octets: &[u8]) -> Result<Layers, NoMemory>
    ensures { IfOk result (λ l. AreNpduForms (npdu_at octets.now) (layers_view l)) }
{
    match read_npdu(octets) {
        Ok(npdu) => {
            let json = npdu_json(alloc, npdu)?;
            content_layers(alloc, json, npdu.message, npdu.contents)
        }
        Err(_) => Ok(NO_LAYERS),
    }
}

/// The layers of a datagram that can be read, from the outside in: of a BVLL with the function Original-Unicast-NPDU its NPDU, and so on. An Err is out of memory.
pub fn datagram_layers(alloc: Global, datagram: &[u8]) -> Result<Layers, NoMemory>
    ensures { IfOk result (λ l. AreLayerForms (bvll_at datagram.now) (layers_view l)) }
{
    match read_bvll(datagram) {
        Ok(npdu) => npdu_layers(alloc, npdu),
        Err(_) => Ok(NO_LAYERS),
    }
}
