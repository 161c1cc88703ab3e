//! Making the objects of a store.
ghost use Rattle.std.specs.Prelude.{◌≡◌, map, IfOk};
ghost use Rattle.bac_store.specs.Views.{entry_view, object_view, property_view, slot_view};

use crate::entry::{StoredObject, StoredProperty};
use crate::kind::kind_of;
use crate::object::{Object, Property};
use bac_value::NoMemory;
use std::alloc::Global;

/// A property as a store keeps it, with the kind of its first values.
fn slot_made(property: Property) -> StoredProperty
    ensures { slot_view result ≡ property_view property }
{
    let kind = kind_of(&property.values.octets);
    let Property {
        number,
        values,
        writable,
        allowed,
    } = property;
    StoredProperty {
        number,
        values,
        writable,
        kind,
        allowed,
    }
}

/// The properties of an object as a store keeps them, in the same order.
fn slots_made(alloc: Global, properties: Vec<Property>) -> Result<Vec<StoredProperty>, NoMemory>
    ensures { IfOk result (λ v. map slot_view v.items ≡ map property_view properties.items) }
{
    let mut slots = Vec::with_capacity(alloc, properties.len())?;
    for property in properties {
        slots.push(slot_made(property))?;
    }
    Ok(slots)
}

/// An object as a store keeps it.
fn entry_made(alloc: Global, object: Object) -> Result<StoredObject, NoMemory>
    ensures { IfOk result (λ e. entry_view e ≡ object_view object) }
{
    let Object {
        id,
        name,
        properties,
        file,
    } = object;
    let slots = slots_made(alloc, properties)?;
    Ok(StoredObject {
        id,
        name,
        slots,
        file,
    })
}

/// Objects as a store keeps them, in the same order. Each property gets the kind of its values.
pub(crate) fn entries_made(
    alloc: Global,
    objects: Vec<Object>,
) -> Result<Vec<StoredObject>, NoMemory>
    ensures { IfOk result (λ v. map entry_view v.items ≡ map object_view objects.items) }
{
    let mut entries = Vec::with_capacity(alloc, objects.len())?;
    for object in objects {
        entries.push(entry_made(alloc, object)?)?;
    }
    Ok(entries)
}
