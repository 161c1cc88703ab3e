//! Which local changes are valid.
ghost use Rattle.std.specs.Prelude.{◌≡◌, ◌≤◌, true, false, None, Some, length, map, MatchOption, MatchResult};
ghost use Rattle.bac_service.specs.Views.{property_reference_view};
ghost use Rattle.bac_store.specs.AtNode.{change_fault, is_data, value_fault, Change as ChangeView};
ghost use Rattle.bac_store.specs.Kept.{IsInOrder};
ghost use Rattle.bac_store.specs.Limits.{FILE_LIMIT as FILE_MOST, VALUE_LIMIT as VALUE_MOST};
ghost use Rattle.bac_store.specs.Views.{entry_view, slot_view};
ghost use Rattle.bac_value.specs.Views.{object_identifier_view};

use crate::change_fault::ChangeFault;
use crate::entry::{StoredObject, StoredProperty};
use crate::kind::{is_of_kind, is_right_state};
use crate::limits::{FILE_LIMIT, VALUE_LIMIT};
use crate::lookups::{entry_of, slot_place};
use crate::preparing::file_of;
use bac_service::PropertyReference;
use bac_value::{Data, ObjectIdentifier, take_data};

/// The octets as data, if all of them are data.
fn whole_data(octets: &[u8]) -> Option<Data<'_>>
    ensures { MatchOption result (is_data octets.now ≡ false) (λ d. (is_data octets.now ≡ true) × (d.octets.now ≡ octets.now)) }
{
    match take_data(octets) {
        Ok((octets, rest)) if rest.is_empty() => Some(Data { octets }),
        _ => None,
    }
}

/// The octets as values of a listed property, or why they are not valid.
fn values_for<'a>(
    slot: &StoredProperty,
    reference: PropertyReference,
    octets: &'a [u8],
) -> Result<Data<'a>, ChangeFault>
    ensures { MatchResult result
        (λ d. (value_fault (property_reference_view reference) octets.now (slot_view slot.now) ≡ None) × (d.octets.now ≡ octets.now)
        × (length octets.now ≤ VALUE_MOST))
        (λ e. value_fault (property_reference_view reference) octets.now (slot_view slot.now) ≡ Some e) }
{
    let data = whole_data(octets).ok_or(ChangeFault::BadValue)?;
    if !is_of_kind(slot.kind, octets) {
        return Err(ChangeFault::BadValue);
    }
    if !is_right_state(reference, octets) {
        return Err(ChangeFault::BadValue);
    }
    if octets.len() > VALUE_LIMIT {
        return Err(ChangeFault::TooLong);
    }
    Ok(data)
}

/// The octets as new values of a listed property of an object, or why they are not valid.
pub(crate) fn permitted_values<'a>(
    objects: &[StoredObject],
    object: ObjectIdentifier,
    property: u32,
    octets: &'a [u8],
) -> Result<Data<'a>, ChangeFault>
    requires { IsInOrder (map entry_view objects.now) }
    ensures { MatchResult result
        (λ d. (change_fault (map entry_view objects.now) (ChangeView.Value (object_identifier_view object) property octets.now) ≡ None)
        × (d.octets.now ≡ octets.now) × (length octets.now ≤ VALUE_MOST))
        (λ e. change_fault (map entry_view objects.now) (ChangeView.Value (object_identifier_view object) property octets.now) ≡ Some e) }
{
    let Some(entry) = entry_of(objects, object) else {
        return Err(ChangeFault::NoSuchObject);
    };
    let Some(at) = slot_place(&entry.slots, property) else {
        return Err(ChangeFault::NoSuchProperty);
    };
    let reference = PropertyReference {
        object,
        property,
        index: None,
    };
    values_for(&entry.slots[at], reference, octets)
}

/// Whether the octets are valid new contents of a file, or why not.
pub(crate) fn permit_contents(
    objects: &[StoredObject],
    object: ObjectIdentifier,
    octets: &[u8],
) -> Result<(), ChangeFault>
    requires { IsInOrder (map entry_view objects.now) }
    ensures { MatchResult result
        (λ _. (change_fault (map entry_view objects.now) (ChangeView.File (object_identifier_view object) octets.now) ≡ None)
        × (length octets.now ≤ FILE_MOST))
        (λ e. change_fault (map entry_view objects.now) (ChangeView.File (object_identifier_view object) octets.now) ≡ Some e) }
{
    match file_of(objects, object) {
        None => Err(ChangeFault::NoSuchObject),
        Some(_) if octets.len() > FILE_LIMIT => Err(ChangeFault::TooLong),
        Some(_) => Ok(()),
    }
}
