//! The length of an encoded APDU, computed without writing it.
ghost use Rattle.std.specs.Prelude.{◌≡◌, ◌≤◌, ◌+◌, length};
ghost use Rattle.std.specs.Option.{option_map};
ghost use Rattle.bac_apdu.specs.Spelling.{apdu_spelling, enumerated_spelling, segment_octets};
ghost use Rattle.bac_apdu.specs.Views.{segment_view, apdu_view};

use crate::apdu::Apdu;
use crate::limits::Segment;
use bac_value::unsigned_len;

/// The length of an application Enumerated with its tag (clause 20.2.11).
fn enumerated_len(number: u32) -> usize
    ensures is { result ≡ length (enumerated_spelling number) }
    ensures few { result ≤ 5 }
{
    1 + unsigned_len(u64::from(number))
}

/// The length of the octets for segmentation: a sequence number and the proposed window size.
pub(crate) fn segment_len(segment: Option<Segment>) -> usize
    ensures is { result ≡ length (segment_octets (option_map segment_view segment)) }
    ensures few { result ≤ 2 }
{
    match segment {
        None => 0,
        Some(_) => 2,
    }
}

/// The length of a header and the service data after it.
fn with_service(head: usize, service: &[u8]) -> usize
    requires { head ≤ 6 }
    ensures { result ≡ head + length service.now }
{
    head + service.len()
}

/// The length in octets of an encoded APDU (clause 20.1). It does not allocate.
#[tactic(auto, unfolding(crate::specs::Spelling::apdu_spelling))]
pub fn apdu_len(apdu: &Apdu) -> usize
    ensures { result ≡ length (apdu_spelling (apdu_view apdu.now)) }
{
    match *apdu {
        Apdu::ConfirmedRequest {
            segment,
            service,
            ..
        } => with_service(4 + segment_len(segment), service),
        Apdu::UnconfirmedRequest { service, .. } => with_service(2, service),
        Apdu::ComplexAck {
            segment,
            service,
            ..
        } => with_service(3 + segment_len(segment), service),
        Apdu::SegmentAck { .. } => 4,
        Apdu::Error { class, code, .. } => 3 + enumerated_len(class) + enumerated_len(code),
        Apdu::SimpleAck { .. } | Apdu::Reject { .. } | Apdu::Abort { .. } => 3,
    }
}
