//! ReadProperty as text (clause 15.5).
ghost use Rattle.std.specs.Prelude.{◌≡◌, IfOk};
ghost use Rattle.bac_service.specs.Views.{owned_request_view, property_reference_view};
ghost use Rattle.bac_service_text.specs.Reading.{Reads};
ghost use Rattle.bac_service_text.specs.ReadProperty.{read_of, read_words, values_text};
ghost use Rattle.bac_value.specs.Views.{object_identifier_view};

use crate::form_fault::FormFault;
use crate::reference::{reference_in, reference_words};
use bac_service::{AnyRequest, OwnedRequest, PropertyRead, PropertyReference};
use bac_value::{Data, ObjectIdentifier};
use std::alloc::{AllocError, Global};

// ---- the request

/// The request in words, as `read analog-input:5 present-value`.
pub(crate) fn read_words(alloc: Global, reference: PropertyReference) -> Result<Vec<u8>, AllocError>
    ensures { IfOk result (λ t. t.items ≡ read_words (property_reference_view reference)) }
{
    reference_words(alloc, b"read ", reference)
}

/// The request that `read OBJECT PROPERTY` means.
#[tactic(auto, unfolding(crate::specs::ReadProperty::read_of))]
pub(crate) fn read_property_in(
    object: ObjectIdentifier,
    property: &[u8],
) -> Result<OwnedRequest, FormFault>
    ensures { Reads owned_request_view result (read_of (object_identifier_view object) property.now) }
{
    let reference = reference_in(object, property)?;
    Ok(AnyRequest::ReadProperty(reference))
}

// ---- the reply

/// The values in hexadecimal, as `read 44428C0000`.
pub(crate) fn values_text(
    alloc: Global,
    read: PropertyRead<Data<'_>>,
) -> Result<Vec<u8>, AllocError>
    ensures { IfOk result (λ t. t.items ≡ values_text read.entry.values.octets.now) }
{
    let values = hex::encode_upper(alloc, read.values.octets)?;
    let text = format!(in alloc; "read {values}")?;
    Ok(text.into_bytes())
}
