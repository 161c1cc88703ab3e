//! Reading Error APDUs.

ghost use Rattle.std.specs.Prelude.{◌≡◌, IfOk};
ghost use Rattle.bac_value.specs.Views.{tag_view};
ghost use Rattle.bac_apdu.specs.Views.{apdu_view};
ghost use Rattle.bac_value.specs.Steps.{Reads, ReadsAll};
ghost use Rattle.bac_apdu.specs.Reading.{element_fault, is_enumerated, no_enumerated, after_tag, enumerated_at, error_at};

use crate::apdu::Apdu;
use crate::fault::ApduFault;
use crate::octets::{ended, octet};
use bac_value::{Class, FaultKind, Form, Tag, kinds, take_element, take_enumerated, take_tag};

fn fault_of(kind: FaultKind) -> ApduFault
    ensures { result ≡ element_fault kind }
{
    match kind {
        FaultKind::Truncated => ApduFault::Truncated,
        _ => ApduFault::BadError,
    }
}

#[tactic(auto, unfolding(crate::specs::Reading::is_enumerated))]
fn is_enumerated(tag: Tag) -> bool
    ensures { result ≡ is_enumerated tag.class tag.number }
{
    tag.class == Class::Application && tag.number == kinds::ENUMERATED
}

/// The fault of octets that do not begin with an application Enumerated.
#[tactic(auto, unfolding(crate::specs::Reading::no_enumerated))]
fn other_element(octets: &[u8]) -> Result<(u32, &[u8]), ApduFault>
    ensures { Reads (λ x. x) (λ r. r.now) octets.now result no_enumerated }
{
    match take_element(octets) {
        Ok(_) => Err(ApduFault::BadError),
        Err(kind) => Err(fault_of(kind)),
    }
}

#[tactic(auto, unfolding(crate::specs::Reading::after_tag, crate::specs::Reading::enumerated_at))]
fn enumerated(octets: &[u8]) -> Result<(u32, &[u8]), ApduFault>
    ensures { Reads (λ x. x) (λ r. r.now) octets.now result enumerated_at }
{
    let (tag, rest) = match take_tag(octets) {
        Ok(read) => read,
        Err(kind) => return Err(fault_of(kind)),
    };
    match tag.form {
        Form::Length(len) if is_enumerated(tag) => match take_enumerated(rest, len as usize) {
            Ok(read) => Ok(read),
            Err(kind) => Err(fault_of(kind)),
        },
        _ => other_element(octets),
    }
}

#[tactic(auto, unfolding(crate::specs::Reading::error_at))]
pub(crate) fn error(octets: &[u8]) -> Result<Apdu<'_>, ApduFault>
    ensures { ReadsAll apdu_view result (error_at octets.now) }
{
    let (invoke_id, rest) = octet(octets)?;
    let (choice, rest) = octet(rest)?;
    let (class, rest) = enumerated(rest)?;
    let (code, rest) = enumerated(rest)?;
    let apdu = Apdu::Error {
        invoke_id,
        choice,
        class,
        code,
    };
    ended(rest, apdu)
}
