//! Look-ups of objects and of listed properties by binary search, the property of an object by its number, and copies of values.
ghost use Rattle.std.specs.Prelude.{◌≡◌, ◌<◌, ◌≤◌, ◌+◌, ◌*◌, ◌^◌, Some, None, IsSome, IfOk, IfSome, OnErr, MatchOption, map, length};
ghost use Rattle.std.specs.List.{AllPairs};
ghost use Rattle.std.specs.Option.{option_map};
ghost use Rattle.bac_value.specs.Views.{object_identifier_view};
ghost use Rattle.bac_value.specs.Writing.{value_spelling};
ghost use Rattle.bac_store.specs.Lookups.{computed_value, found_in, IsPlaceOf};
ghost use Rattle.bac_store.specs.Kept.{object_number, IsInOrder, IsKept};
ghost use Rattle.bac_store.specs.Stores.{is_object, is_number, object_in, property_in};
ghost use Rattle.bac_store.specs.Views.{entry_view, slot_view};

use crate::entry::{StoredObject, StoredProperty};
use crate::limits::{
    FILE_ACCESS_METHOD, FILE_SIZE, INSTANCES, OBJECT_IDENTIFIER, OBJECT_NAME, OBJECT_TYPE,
    STREAM_ACCESS,
};
use crate::spelled::{spelled, spelled_text};
use bac_value::{DataBuf, NoMemory, ObjectIdentifier, Value};
use std::alloc::Global;

/// A property that is computed from its object.
#[derive(Clone, Copy, Debug, PartialEq, Eq)]
pub(crate) enum Computed {
    Identifier,
    Name,
    Type,
    /// A computed property of a file.
    AccessMethod,
    /// The file-size of a file with this many octets.
    Size(u64),
}

/// Where the values of a property come from.
#[derive(Clone, Copy, Debug, PartialEq, Eq)]
pub(crate) enum Found {
    Computed(Computed),
    /// From this place among the object's listed properties.
    Listed(usize),
}

/// Type and instance of an identifier as one number (clause 20.2.14).
pub(crate) fn number_of(id: ObjectIdentifier) -> u32
    ensures { result ≡ object_number (object_identifier_view id) }
{
    u32::from(id.kind) * INSTANCES + id.instance
}

/// The place of an object.
pub(crate) fn place_of(objects: &[StoredObject], id: ObjectIdentifier) -> Option<usize>
    requires { IsInOrder (map entry_view objects.now) }
    ensures { IsPlaceOf entry_view (is_object (object_identifier_view id)) objects.now result }
{
    let number = number_of(id);
    // the objects of a store are in ascending order of these numbers
    objects
        .binary_search_by_key(&number, |entry| number_of(entry.id))
        .ok()
}

/// The object with this identifier.
pub(crate) fn entry_of(objects: &[StoredObject], id: ObjectIdentifier) -> Option<&StoredObject>
    requires { IsInOrder (map entry_view objects.now) }
    ensures found { option_map (λ e. entry_view e.now) result ≡ object_in (map entry_view objects.now) (object_identifier_view id) }
    ensures kept { IfSome result (λ e. IsKept (entry_view e.now)) }
{
    match place_of(objects, id) {
        Some(at) => Some(&objects[at]),
        None => None,
    }
}

/// The place of a listed property.
pub(crate) fn slot_place(slots: &[StoredProperty], number: u32) -> Option<usize>
    requires { AllPairs (λ p q. p.number < q.number) (map slot_view slots.now) }
    ensures { IsPlaceOf slot_view (is_number number) slots.now result }
{
    slots.binary_search_by_key(&number, |slot| slot.number).ok()
}

/// The property with this number, if the object has one.
pub(crate) fn find(entry: &StoredObject, number: u32) -> Option<Found>
    requires { IsKept (entry_view entry.now) }
    ensures { MatchOption result (property_in (entry_view entry.now) number ≡ None)
        (λ f. IsSome (found_in (entry_view entry.now) f) × (property_in (entry_view entry.now) number ≡ found_in (entry_view entry.now) f)) }
{
    match number {
        OBJECT_IDENTIFIER => Some(Found::Computed(Computed::Identifier)),
        OBJECT_NAME => Some(Found::Computed(Computed::Name)),
        OBJECT_TYPE => Some(Found::Computed(Computed::Type)),
        FILE_ACCESS_METHOD => match &entry.file {
            Some(_) => Some(Found::Computed(Computed::AccessMethod)),
            None => None,
        },
        FILE_SIZE => match &entry.file {
            Some(file) => Some(Found::Computed(Computed::Size(file.octets.len() as u64))),
            None => None,
        },
        _ => match slot_place(&entry.slots, number) {
            Some(at) => Some(Found::Listed(at)),
            None => None,
        },
    }
}

/// An owned copy of a computed value.
fn computed_values(alloc: Global, entry: &StoredObject, own: Computed) -> Result<DataBuf, NoMemory>
    requires { IsKept (entry_view entry.now) }
    ensures { IfOk result (λ d. d.octets.items ≡ value_spelling (computed_value (entry_view entry.now) own)) }
{
    match own {
        Computed::Identifier => spelled(alloc, &Value::ObjectIdentifier(entry.id)),
        Computed::Name => spelled_text(alloc, &entry.name),
        Computed::Type => spelled(alloc, &Value::Enumerated(u32::from(entry.id.kind))),
        Computed::AccessMethod => spelled(alloc, &Value::Enumerated(STREAM_ACCESS)),
        Computed::Size(len) => spelled(alloc, &Value::Unsigned(len)),
    }
}

/// An owned copy of a property's values.
#[tactic(auto, using(crate::proofs::ReplySizes::value_some))]
pub(crate) fn values_of(
    alloc: Global,
    entry: &StoredObject,
    found: Found,
) -> Result<DataBuf, NoMemory>
    requires kept { IsKept (entry_view entry.now) }
    requires there { IsSome (found_in (entry_view entry.now) found) }
    ensures same { IfOk result (λ d. option_map (λ p. p.values) (found_in (entry_view entry.now) found) ≡ Some d.octets.items) }
    ensures held { OnErr result (IfSome (found_in (entry_view entry.now) found) (λ p. 1 ≤ length p.values)) }
{
    match found {
        Found::Computed(own) => computed_values(alloc, entry, own),
        Found::Listed(at) => entry.slots[at].values.as_data().to_owned(alloc),
    }
}
