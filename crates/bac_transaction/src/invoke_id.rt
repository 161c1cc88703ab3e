//! The invoke ID of an APDU.
ghost use Rattle.std.specs.Prelude.{◌≡◌};
ghost use Rattle.bac_apdu.specs.Views.{apdu_view};
ghost use Rattle.bac_protocol.specs.Own.{invoke_id_of};

use bac_apdu::Apdu;

/// The invoke ID of an APDU (clause 20.1.2.6); 0 where it has none, as an Unconfirmed-Request.
pub fn invoke_id_of(apdu: &Apdu<'_>) -> u8
    ensures { result ≡ invoke_id_of (apdu_view apdu.now) }
{
    match apdu {
        Apdu::ConfirmedRequest { invoke_id, .. } => *invoke_id,
        Apdu::UnconfirmedRequest { .. } => 0,
        Apdu::SimpleAck { invoke_id, .. } => *invoke_id,
        Apdu::ComplexAck { invoke_id, .. } => *invoke_id,
        Apdu::SegmentAck { invoke_id, .. } => *invoke_id,
        Apdu::Error { invoke_id, .. } => *invoke_id,
        Apdu::Reject { invoke_id, .. } => *invoke_id,
        Apdu::Abort { invoke_id, .. } => *invoke_id,
    }
}
