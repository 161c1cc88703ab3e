//! Reading and writing properties (clauses 15.5 and 15.9).
ghost use Rattle.std.specs.Prelude.{◌≡◌, ◌≤◌, ℕ, true, List, length, IfOk, OnErr};
ghost use Rattle.bac_value.specs.Value.{Datum};
ghost use Rattle.bac_service.specs.Replies.{held_by};
ghost use Rattle.bac_service.specs.Replies.Reply.{Complex, Simple};
ghost use Rattle.bac_service.specs.Values.Complex.{PropertyRead as PropertyReadView};
ghost use Rattle.bac_service.specs.Views.{owned_reply_view, property_reference_view};
ghost use Rattle.bac_store.specs.Arrays.{elements_of};
ghost use Rattle.bac_store.specs.Answers.{refused, refused_or};
ghost use Rattle.bac_store.specs.Changes.{is_done};
ghost use Rattle.bac_store.specs.Kept.{IsKept};
ghost use Rattle.bac_store.specs.Replies.{array_reply, at_property, is_out_of_range as out_of_range, read_reply, write_reply};
ghost use Rattle.bac_store.specs.Allowing.{is_allowed as allowed_in};
ghost use Rattle.bac_store.specs.Lookups.{computed_of};
ghost use Rattle.bac_store.specs.Stores.{computed, is_sizable as sizable_in, property_in, sized, sizes};
ghost use Rattle.bac_store.specs.Views.{entry_view, slot_view};

use crate::allowing::is_allowed;
use crate::arrays::{element, is_array, split_values};
use crate::entry::{StoredObject, StoredProperty};
use crate::kind::{is_of_kind, is_right_state};
use crate::limits::{GREATEST_SIZE, LEAST_SIZE, READ_ONLY, VALUE_LIMIT};
use crate::lookups::{Computed, Found, find, values_of};
use crate::rank::is_at_most;
use crate::refusal::Refusal;
use crate::store_lookups::slot_of;
use bac_service::{AnyComplex, AnyReply, OwnedReply, PropertyRead, PropertyReference};
use bac_value::{DataBuf, NoMemory, kinds};
use std::alloc::Global;

/// The ComplexACK with these values of a property.
fn values_reply(reference: PropertyReference, values: DataBuf) -> OwnedReply
    ensures { owned_reply_view result ≡ Complex (PropertyReadView (property_reference_view reference) values.octets.items) }
{
    AnyReply::Complex(AnyComplex::PropertyRead(PropertyRead { reference, values }))
}

/// The reply to a request to read one element of a listed property.
fn read_element(
    alloc: Global,
    slot: &StoredProperty,
    reference: PropertyReference,
    index: u32,
) -> Result<OwnedReply, NoMemory>
    ensures told { IfOk result (λ r. owned_reply_view r ≡ array_reply (property_reference_view reference) index (elements_of (slot_view slot.now))) }
    ensures last { OnErr result (is_done (array_reply (property_reference_view reference) index (elements_of (slot_view slot.now))) ≡ true) }
    ensures held { OnErr result (1 ≤ length (held_by (array_reply (property_reference_view reference) index (elements_of (slot_view slot.now))))) }
{
    if !is_array(slot.number) {
        return Ok(Refusal::PropertyIsNotAnArray.reply());
    }
    // index 0 is the number of elements, whichever of them is chosen
    let at = (index as usize).saturating_sub(1);
    let Some(values) = split_values(slot.values.octets.as_slice(), at) else {
        return Ok(Refusal::PropertyIsNotAnArray.reply());
    };
    match element(alloc, values, index)? {
        None => Ok(Refusal::InvalidArrayIndex.reply()),
        Some(values) => Ok(values_reply(reference, values)),
    }
}

/// The reply to a request to read a property of this object.
pub(crate) fn read_property(
    alloc: Global,
    entry: &StoredObject,
    reference: PropertyReference,
) -> Result<OwnedReply, NoMemory>
    requires { IsKept (entry_view entry.now) }
    ensures told { IfOk result (λ r. owned_reply_view r
        ≡ at_property (property_in (entry_view entry.now) reference.property) (read_reply (property_reference_view reference))) }
    ensures last { OnErr result
        (is_done (at_property (property_in (entry_view entry.now) reference.property) (read_reply (property_reference_view reference))) ≡ true) }
    ensures held { OnErr result
        (1 ≤ length (held_by (at_property (property_in (entry_view entry.now) reference.property) (read_reply (property_reference_view reference))))) }
{
    let Some(found) = find(entry, reference.property) else {
        return Ok(Refusal::UnknownProperty.reply());
    };
    match reference.index {
        None => {
            let values = values_of(alloc, entry, found)?;
            Ok(values_reply(reference, values))
        }
        Some(index) => match found {
            Found::Computed(_) => Ok(Refusal::PropertyIsNotAnArray.reply()),
            Found::Listed(at) => read_element(alloc, &entry.slots[at], reference, index),
        },
    }
}

/// Whether the values are no state of the object, or not allowed.
fn is_out_of_range(slot: &StoredProperty, reference: PropertyReference, values: &[u8]) -> bool
    ensures { result ≡ out_of_range (property_reference_view reference) values.now (slot_view slot.now) }
{
    !is_right_state(reference, values) || !is_allowed(&slot.allowed, values)
}

/// Why a listed property is not written; None if it is written.
fn slot_refusal(
    slot: &StoredProperty,
    reference: PropertyReference,
    values: &[u8],
) -> Option<Refusal>
    ensures { refused_or Simple result ≡ write_reply (property_reference_view reference) values.now (slot_view slot.now) }
{
    if reference.index.is_some() {
        return Some(Refusal::PropertyIsNotAnArray);
    }
    if !slot.writable {
        return Some(Refusal::WriteAccessDenied);
    }
    if !is_of_kind(slot.kind, values) {
        return Some(Refusal::InvalidDataType);
    }
    if is_out_of_range(slot, reference, values) {
        return Some(Refusal::ValueOutOfRange);
    }
    if values.len() > VALUE_LIMIT {
        return Some(Refusal::NoSpaceToWrite);
    }
    None
}

/// Why a computed property other than a file-size is not written.
fn computed_refusal(reference: PropertyReference) -> Refusal
    ensures { (values : List ℕ) (n : ℕ) (d : Datum) → refused result ≡ write_reply (property_reference_view reference) values (computed n d) }
{
    if reference.index.is_some() {
        Refusal::PropertyIsNotAnArray
    } else {
        Refusal::WriteAccessDenied
    }
}

/// Whether clients may set the size of the file: they may write it, and the object lists read-only.
fn is_sizable(entry: &StoredObject) -> bool
    requires { IsKept (entry_view entry.now) }
    ensures { result ≡ sizable_in (entry_view entry.now) }
{
    match &entry.file {
        Some(file) => file.writable && slot_of(&entry.slots, READ_ONLY).is_some(),
        None => false,
    }
}

/// Whether the values are a size that a file can have.
fn is_size(values: &[u8]) -> bool
    ensures { result ≡ allowed_in sizes values.now }
{
    is_at_most(LEAST_SIZE, values) && is_at_most(values, GREATEST_SIZE)
}

/// Why the size of a file is not written; None if it is written.
fn size_refusal(
    entry: &StoredObject,
    reference: PropertyReference,
    values: &[u8],
) -> Option<Refusal>
    requires { IsKept (entry_view entry.now) }
    ensures { (n : ℕ) → refused_or Simple result ≡ write_reply (property_reference_view reference) values.now (sized (sizable_in (entry_view entry.now)) n) }
{
    if reference.index.is_some() {
        return Some(Refusal::PropertyIsNotAnArray);
    }
    if !is_sizable(entry) {
        return Some(Refusal::WriteAccessDenied);
    }
    if !is_of_kind(Some(kinds::UNSIGNED), values) {
        return Some(Refusal::InvalidDataType);
    }
    if !is_right_state(reference, values) || !is_size(values) {
        return Some(Refusal::ValueOutOfRange);
    }
    if values.len() > VALUE_LIMIT {
        return Some(Refusal::NoSpaceToWrite);
    }
    None
}

/// Why this computed property of an object is not written; None if it is written.
fn own_refusal(
    entry: &StoredObject,
    own: Computed,
    reference: PropertyReference,
    values: &[u8],
) -> Option<Refusal>
    requires { IsKept (entry_view entry.now) }
    ensures { refused_or Simple result ≡ write_reply (property_reference_view reference) values.now (computed_of (entry_view entry.now) own) }
{
    match own {
        Computed::Size(_) => size_refusal(entry, reference, values),
        Computed::Identifier | Computed::Name | Computed::Type | Computed::AccessMethod => {
            Some(computed_refusal(reference))
        }
    }
}

/// Why a property of this object is not written; None if it is written.
pub(crate) fn write_refusal(
    entry: &StoredObject,
    reference: PropertyReference,
    values: &[u8],
) -> Option<Refusal>
    requires { IsKept (entry_view entry.now) }
    ensures { refused_or Simple result
        ≡ at_property (property_in (entry_view entry.now) reference.property) (write_reply (property_reference_view reference) values.now) }
{
    match find(entry, reference.property) {
        None => Some(Refusal::UnknownProperty),
        Some(Found::Computed(own)) => own_refusal(entry, own, reference, values),
        Some(Found::Listed(at)) => slot_refusal(&entry.slots[at], reference, values),
    }
}
