//! Comparison of the objects of two stores.
ghost use Rattle.std.specs.Prelude.{◌≡◌, map, MatchBool};
ghost use Rattle.std.specs.Option.{option_map};
ghost use Rattle.bac_store.specs.Views.{allowed_view, data_view, entry_view, file_view, slot_view};

use crate::allowed::Allowed;
use crate::entry::{StoredObject, StoredProperty};
use crate::object::File;
use bac_value::DataBuf;

/// Whether both are equal properties in the same order.
fn are_same_slots(slots: &[StoredProperty], others: &[StoredProperty]) -> bool
    ensures { MatchBool result (map slot_view slots.now ≡ map slot_view others.now) (map slot_view slots.now ≡ map slot_view others.now → ⊥) }
{
    if slots.len() != others.len() {
        return false;
    }
    for at in 0..slots.len() {
        if !is_same_slot(&slots[at], &others[at]) {
            return false;
        }
    }
    true
}

/// Whether both are the same octets.
fn are_same_data(values: &DataBuf, other: &DataBuf) -> bool
    ensures { MatchBool result (data_view values.now ≡ data_view other.now) (data_view values.now ≡ data_view other.now → ⊥) }
{
    values.octets == other.octets
}

/// Whether both are the same data in the same order.
fn are_same_lists(listed: &[DataBuf], others: &[DataBuf]) -> bool
    ensures { MatchBool result (map data_view listed.now ≡ map data_view others.now) (map data_view listed.now ≡ map data_view others.now → ⊥) }
{
    if listed.len() != others.len() {
        return false;
    }
    for at in 0..listed.len() {
        if !are_same_data(&listed[at], &others[at]) {
            return false;
        }
    }
    true
}

/// Whether both are the same limits, octet by octet.
fn are_same_limits(allowed: &Allowed, other: &Allowed) -> bool
    ensures { MatchBool result (allowed_view allowed.now ≡ allowed_view other.now) (allowed_view allowed.now ≡ allowed_view other.now → ⊥) }
{
    match (allowed, other) {
        (Allowed::Any, Allowed::Any) => true,
        (
            Allowed::Between { least, greatest },
            Allowed::Between {
                least: low,
                greatest: high,
            },
        ) => {
            if !are_same_data(least, low) {
                return false;
            }
            are_same_data(greatest, high)
        }
        (Allowed::OneOf(listed), Allowed::OneOf(others)) => are_same_lists(listed, others),
        _ => false,
    }
}

/// Whether both are the same property, with equal flag, kind, limits and values.
fn is_same_slot(slot: &StoredProperty, other: &StoredProperty) -> bool
    ensures { MatchBool result (slot_view slot.now ≡ slot_view other.now) (slot_view slot.now ≡ slot_view other.now → ⊥) }
{
    if slot.number != other.number {
        return false;
    }
    if slot.writable != other.writable {
        return false;
    }
    if slot.kind != other.kind {
        return false;
    }
    if !are_same_limits(&slot.allowed, &other.allowed) {
        return false;
    }
    slot.values.octets == other.values.octets
}

/// Whether both have equal contents and flags.
fn is_same_file(file: &File, other: &File) -> bool
    ensures { MatchBool result (file_view file.now ≡ file_view other.now) (file_view file.now ≡ file_view other.now → ⊥) }
{
    if file.writable != other.writable {
        return false;
    }
    file.octets == other.octets
}

/// Whether neither object is a file, or both have equal contents and flags.
fn are_same_files(file: &Option<File>, other: &Option<File>) -> bool
    ensures { MatchBool result (option_map file_view file.now ≡ option_map file_view other.now)
        (option_map file_view file.now ≡ option_map file_view other.now → ⊥) }
{
    match file {
        None => other.is_none(),
        Some(file) => match other {
            None => false,
            Some(other) => is_same_file(file, other),
        },
    }
}

/// Whether both are the same object, with equal name, properties and file.
fn is_same_object(entry: &StoredObject, other: &StoredObject) -> bool
    ensures { MatchBool result (entry_view entry.now ≡ entry_view other.now) (entry_view entry.now ≡ entry_view other.now → ⊥) }
{
    if entry.id.kind != other.id.kind {
        return false;
    }
    if entry.id.instance != other.id.instance {
        return false;
    }
    if entry.name != other.name {
        return false;
    }
    if !are_same_slots(&entry.slots, &other.slots) {
        return false;
    }
    are_same_files(&entry.file, &other.file)
}

/// Whether both are the same objects in the same order.
pub(crate) fn are_same_objects(objects: &[StoredObject], others: &[StoredObject]) -> bool
    ensures { MatchBool result (map entry_view objects.now ≡ map entry_view others.now) (map entry_view objects.now ≡ map entry_view others.now → ⊥) }
{
    if objects.len() != others.len() {
        return false;
    }
    for at in 0..objects.len() {
        if !is_same_object(&objects[at], &others[at]) {
            return false;
        }
    }
    true
}
