//! Reading APDUs.

ghost use Rattle.std.specs.Prelude.{◌≡◌, ℕ, List, IfOk, IfErr, Bool, ◌&&◌, not, ◌<◌, ◌%◌, ◌/◌};
ghost use Rattle.bac_apdu.specs.declared.bits.TheConstants.{MOR, SEG};
ghost use Rattle.bac_apdu.specs.Spelling.{SpellsApdu, IsNoApdu};
ghost use Rattle.bac_apdu.specs.Views.{apdu_view};
ghost use Rattle.bac_value.specs.Steps.{ReadsAll, has_bit};
ghost use Rattle.bac_apdu.specs.Reading.{confirmed_at, unconfirmed_at, simple_ack_at, complex_ack_at, segment_ack_at, reject_at, error_at};
ghost use Rattle.bac_apdu.specs.Reading.{abort_at, reserved_of, kind_at, apdu_at};

use crate::apdu::Apdu;
use crate::bits::{MOR, NAK, SA, SEG, SRV, has};
use crate::error_reading::error;
use crate::fault::ApduFault;
use crate::limits_reading::{limits, segment, window};
use crate::octets::{ended, octet};

#[tactic(auto, unfolding(crate::specs::Reading::confirmed_at))]
#[inline(always)]
fn confirmed_request(octets: &[u8], bits: u8) -> Result<Apdu<'_>, ApduFault>
    ensures { ReadsAll apdu_view result (confirmed_at bits octets.now) }
{
    let (limits, rest) = limits(octets, has(bits, SA))?;
    let (invoke_id, rest) = octet(rest)?;
    let (segment, rest) = segment(rest, has(bits, SEG), has(bits, MOR))?;
    let (choice, service) = octet(rest)?;
    Ok(Apdu::ConfirmedRequest {
        limits,
        invoke_id,
        segment,
        choice,
        service,
    })
}

#[tactic(auto, unfolding(crate::specs::Reading::unconfirmed_at))]
fn unconfirmed_request(octets: &[u8]) -> Result<Apdu<'_>, ApduFault>
    ensures { ReadsAll apdu_view result (unconfirmed_at octets.now) }
{
    let (choice, service) = octet(octets)?;
    Ok(Apdu::UnconfirmedRequest { choice, service })
}

#[tactic(auto, unfolding(crate::specs::Reading::simple_ack_at))]
fn simple_ack(octets: &[u8]) -> Result<Apdu<'_>, ApduFault>
    ensures { ReadsAll apdu_view result (simple_ack_at octets.now) }
{
    let (invoke_id, rest) = octet(octets)?;
    let (choice, rest) = octet(rest)?;
    ended(rest, Apdu::SimpleAck { invoke_id, choice })
}

#[tactic(auto, unfolding(crate::specs::Reading::complex_ack_at))]
#[inline(always)]
fn complex_ack(octets: &[u8], bits: u8) -> Result<Apdu<'_>, ApduFault>
    ensures { ReadsAll apdu_view result (complex_ack_at bits octets.now) }
{
    let (invoke_id, rest) = octet(octets)?;
    let (segment, rest) = segment(rest, has(bits, SEG), has(bits, MOR))?;
    let (choice, service) = octet(rest)?;
    Ok(Apdu::ComplexAck {
        invoke_id,
        segment,
        choice,
        service,
    })
}

#[tactic(auto, unfolding(crate::specs::Reading::segment_ack_at))]
fn segment_ack(octets: &[u8], bits: u8) -> Result<Apdu<'_>, ApduFault>
    ensures { ReadsAll apdu_view result (segment_ack_at bits octets.now) }
{
    let (invoke_id, rest) = octet(octets)?;
    let (number, rest) = octet(rest)?;
    let (window, rest) = window(rest)?;
    let apdu = Apdu::SegmentAck {
        nak: has(bits, NAK),
        server: has(bits, SRV),
        invoke_id,
        number,
        window,
    };
    ended(rest, apdu)
}

#[tactic(auto, unfolding(crate::specs::Reading::reject_at))]
fn reject(octets: &[u8]) -> Result<Apdu<'_>, ApduFault>
    ensures { ReadsAll apdu_view result (reject_at octets.now) }
{
    let (invoke_id, rest) = octet(octets)?;
    let (reason, rest) = octet(rest)?;
    ended(rest, Apdu::Reject { invoke_id, reason })
}

#[tactic(auto, unfolding(crate::specs::Reading::abort_at))]
fn abort(octets: &[u8], bits: u8) -> Result<Apdu<'_>, ApduFault>
    ensures { ReadsAll apdu_view result (abort_at bits octets.now) }
{
    let (invoke_id, rest) = octet(octets)?;
    let (reason, rest) = octet(rest)?;
    let apdu = Apdu::Abort {
        server: has(bits, SRV),
        invoke_id,
        reason,
    };
    ended(rest, apdu)
}

/// Whether the flag for more segments is set on an unsegmented APDU.
fn is_more_alone(bits: u8) -> bool
    ensures { result ≡ (has_bit bits MOR && not (has_bit bits SEG)) }
{
    has(bits, MOR) && !has(bits, SEG)
}

/// The bits of the first octet that are set although this type of APDU does not use them.
fn reserved(kind: u8, bits: u8) -> u8
    ensures { result ≡ reserved_of kind bits }
{
    match kind {
        0 => bits % 2,
        3 => bits % 4,
        4 => bits / 4,
        7 => bits / 2,
        _ => bits,
    }
}

#[tactic(auto, unfolding(crate::specs::Reading::kind_at))]
fn kind(octets: &[u8], kind: u8, bits: u8) -> Result<Apdu<'_>, ApduFault>
    ensures { ReadsAll apdu_view result (kind_at kind bits octets.now) }
{
    if kind > 7 {
        return Err(ApduFault::BadType);
    }
    if reserved(kind, bits) != 0 {
        return Err(ApduFault::ReservedBits);
    }
    match kind {
        0 | 3 if is_more_alone(bits) => Err(ApduFault::MorWithoutSeg),
        0 => confirmed_request(octets, bits),
        1 => unconfirmed_request(octets),
        2 => simple_ack(octets),
        3 => complex_ack(octets, bits),
        4 => segment_ack(octets, bits),
        5 => error(octets),
        6 => reject(octets),
        _ => abort(octets, bits),
    }
}

/// Reads the whole octets as an APDU (clause 20.1). Returns the first fault from left to right.
#[tactic(auto, unfolding(crate::specs::Reading::apdu_at))]
pub fn read(octets: &[u8]) -> Result<Apdu<'_>, ApduFault>
    ensures found { IfOk result (λ a. SpellsApdu (apdu_view a) octets.now) }
    ensures refused { IfErr result (λ e. IsNoApdu octets.now) }
    // the fault is the first from left to right
    ensures exact { ReadsAll apdu_view result (apdu_at octets.now) }
{
    let (first, rest) = octet(octets)?;
    kind(rest, first / 16, first % 16)
}
