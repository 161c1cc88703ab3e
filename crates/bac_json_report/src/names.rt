//! The name that the standard has for what a datagram is.
ghost use Rattle.std.specs.Prelude.{◌≡◌};
ghost use Rattle.std.specs.Option.{option_map};
ghost use Rattle.bac_apdu.specs.Reading.{apdu_at};
ghost use Rattle.bac_apdu.specs.Views.{apdu_view};
ghost use Rattle.bac_json_report.specs.Names.{apdu_name, contents_name, function_name, name_at, npdu_name, service_name};
ghost use Rattle.bac_npdu.specs.Reading.{npdu_at};
ghost use Rattle.bac_npdu.specs.Views.{message_view};
ghost use Rattle.bac_text.specs.Bvlc.{other_bvll_of};

use bac_apdu::Apdu;
use bac_npdu::{Message, read_bvll, read_npdu};
use bac_text::{OtherBvll, confirmed_service_name, network_message_name, unconfirmed_service_name};

/// The name of the service of an APDU, if it has one.
fn service_name(apdu: Apdu<'_>) -> Option<&'static str>
    ensures { option_map (λ s. s.now) result ≡ service_name (apdu_view apdu.entry) }
{
    match apdu {
        Apdu::UnconfirmedRequest { choice, .. } => unconfirmed_service_name(choice),
        Apdu::ConfirmedRequest { choice, .. }
        | Apdu::SimpleAck { choice, .. }
        | Apdu::ComplexAck { choice, .. }
        | Apdu::Error { choice, .. } => confirmed_service_name(choice),
        Apdu::SegmentAck { .. } | Apdu::Reject { .. } | Apdu::Abort { .. } => None,
    }
}

/// The name of the service of the APDU that octets are, if they are one.
fn apdu_name(octets: &[u8]) -> Option<&'static str>
    ensures { option_map (λ s. s.now) result ≡ apdu_name (apdu_at octets.now) }
{
    match bac_apdu::read(octets) {
        Ok(apdu) => service_name(apdu),
        Err(_) => None,
    }
}

/// The name of the message in an NPDU, or of the service of the APDU that it carries.
fn contents_name(message: Option<Message>, contents: &[u8]) -> Option<&'static str>
    ensures { option_map (λ s. s.now) result ≡ contents_name (option_map message_view message) contents.now }
{
    match message {
        Some(message) => network_message_name(message.kind),
        None => apdu_name(contents),
    }
}

/// The name of what the NPDU that octets are carries.
fn npdu_name(octets: &[u8]) -> Option<&'static str>
    ensures { option_map (λ s. s.now) result ≡ npdu_name (npdu_at octets.now) }
{
    match read_npdu(octets) {
        Ok(npdu) => contents_name(npdu.message, npdu.contents),
        Err(_) => None,
    }
}

/// The name of the function of another BVLL than an Original-Unicast-NPDU, over IPv4.
fn function_name(datagram: &[u8]) -> Option<&'static str>
    ensures { option_map (λ s. s.now) result ≡ function_name (other_bvll_of datagram.now) }
{
    match OtherBvll::of(datagram) {
        Some(OtherBvll::Ipv4(function)) => Some(function.name()),
        Some(OtherBvll::Ipv6) | None => None,
    }
}

/// The name of the service of the APDU in a datagram, or of its message of the network layer, as far as it can be read. Of another BVLL it is that of
/// its function. None where the standard has none.
pub(crate) fn name_of(datagram: &[u8]) -> Option<&'static str>
    ensures { option_map (λ s. s.now) result ≡ name_at datagram.now }
{
    match read_bvll(datagram) {
        Ok(npdu) => npdu_name(npdu),
        Err(_) => function_name(datagram),
    }
}
