//! Reading a datagram from the outside in.
ghost use Rattle.std.specs.Prelude.{◌≡◌, IfOk, IfErr, MatchResult};
ghost use Rattle.std.specs.Option.{option_map};
ghost use Rattle.bac_apdu.specs.Views.{apdu_view};
ghost use Rattle.bac_npdu.specs.Views.{npdu_view};
ghost use Rattle.bac_npdu.specs.Datagram.{IsFrameOf};
ghost use Rattle.bac_service.specs.Views.{complex_view, request_view};
ghost use Rattle.bac_service.specs.Choices.{is_served, has_complex_ack};
ghost use Rattle.bac_text.specs.Layers.{request_data_in, complex_data_in};
ghost use Rattle.bac_text.specs.Layers.{IsRequestIn, IsComplexIn, HasNoRequest, HasNoComplex, IsReason, IsKind, IsFine, IsAtFault};

use crate::fault::LayerFault;
use bac_apdu::{Apdu, ApduFault};
use bac_npdu::{Npdu, read_bvll, read_npdu};
use bac_service::{Complex, Reject, Request, Service, read_reply, read_request};
use bac_value::FaultKind;

/// The NPDU in a datagram.
pub(crate) fn npdu_in(octets: &[u8]) -> Result<Npdu<'_>, LayerFault>
    ensures found { IfOk result (λ n. IsFrameOf (npdu_view n) octets.now) }
    ensures refused { IfErr result (IsAtFault octets.now) }
{
    let npdu = match read_bvll(octets) {
        Ok(npdu) => npdu,
        Err(fault) => return Err(LayerFault::Bvll(fault)),
    };
    match read_npdu(npdu) {
        Ok(npdu) => Ok(npdu),
        Err(fault) => Err(LayerFault::Npdu(fault)),
    }
}

/// Whether a service choice is one of the four services'.
pub(crate) fn is_service(choice: u8) -> bool
    ensures { result ≡ is_served choice }
{
    Service::of(choice).is_some()
}

/// Whether requests of a service choice are answered by a ComplexACK.
fn has_complex_ack(choice: u8) -> bool
    ensures { result ≡ has_complex_ack choice }
{
    match Service::of(choice) {
        Some(service) => service.has_complex_ack(),
        None => false,
    }
}

/// The choice and the service data of a request of one of the four services that is no segment.
fn request_data(apdu: Apdu<'_>) -> Option<(u8, &[u8])>
    ensures { option_map (λ t. (t.0, t.1.now)) result ≡ request_data_in (apdu_view apdu.entry) }
{
    match apdu {
        Apdu::ConfirmedRequest {
            segment: None,
            choice,
            service,
            ..
        } if is_service(choice) => Some((choice, service)),
        _ => None,
    }
}

/// The choice and the service data of a ComplexACK of one of the services that is no segment.
fn complex_data(apdu: Apdu<'_>) -> Option<(u8, &[u8])>
    ensures { option_map (λ t. (t.0, t.1.now)) result ≡ complex_data_in (apdu_view apdu.entry) }
{
    match apdu {
        Apdu::ComplexAck {
            segment: None,
            choice,
            service,
            ..
        } if has_complex_ack(choice) => Some((choice, service)),
        _ => None,
    }
}

/// The request that an APDU carries whole, if it carries one of the four services'.
pub(crate) fn request_in(apdu: Apdu<'_>) -> Result<Option<Request<'_>>, Reject>
    ensures found { IfOk result (λ r. IsRequestIn (request_data_in (apdu_view apdu.entry)) (option_map request_view r)) }
    ensures refused { IfErr result (λ e. HasNoRequest (request_data_in (apdu_view apdu.entry))) }
    ensures reason { IfErr result (IsReason (request_data_in (apdu_view apdu.entry))) }
{
    match request_data(apdu) {
        None => Ok(None),
        Some((choice, service)) => match read_request(choice, service) {
            Ok(request) => Ok(Some(request)),
            Err(reject) => Err(reject),
        },
    }
}

/// The service data of the ComplexACK that an APDU is, if it is one of the services' and no segment.
pub(crate) fn complex_in(apdu: Apdu<'_>) -> Result<Option<Complex<'_>>, FaultKind>
    ensures found { IfOk result (λ c. IsComplexIn (complex_data_in (apdu_view apdu.entry)) (option_map complex_view c)) }
    ensures refused { IfErr result (λ e. HasNoComplex (complex_data_in (apdu_view apdu.entry))) }
    ensures kind { IfErr result (IsKind (complex_data_in (apdu_view apdu.entry))) }
{
    match complex_data(apdu) {
        None => Ok(None),
        Some((choice, service)) => match read_reply(choice, service) {
            Ok(complex) => Ok(Some(complex)),
            Err(fault) => Err(fault.kind),
        },
    }
}

/// Whether a datagram has a fault, and which: the first from the outside in.
///
/// A datagram is read as a BVLL (clause J.2), an NPDU (clause 6.2), an APDU (clause 20.1) and the data of a service (clause 21).
/// A network message is read by its number alone, and so are segments and services other than the four.
pub fn check_datagram(octets: &[u8]) -> Result<(), LayerFault>
    ensures { MatchResult result (λ _. IsFine octets.now) (IsAtFault octets.now) }
{
    let npdu = npdu_in(octets)?;
    if npdu.message.is_some() {
        return Ok(());
    }
    let apdu = match bac_apdu::read(npdu.contents) {
        Ok(apdu) => apdu,
        Err(fault) => return Err(LayerFault::Apdu(fault)),
    };
    if let Err(reject) = request_in(apdu) {
        return Err(LayerFault::Request(reject));
    }
    match complex_in(apdu) {
        Ok(_) => Ok(()),
        Err(kind) => Err(LayerFault::ComplexAck(kind)),
    }
}
