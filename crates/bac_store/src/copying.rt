//! Copies of objects.
ghost use Rattle.std.specs.Prelude.{◌≡◌, ◌≤◌, length, map, IfOk, OnErr};
ghost use Rattle.std.specs.Option.{option_map};
ghost use Rattle.bac_store.specs.Views.{entry_view, file_view, slot_view};

use crate::entry::{StoredObject, StoredProperty};
use crate::object::File;
use bac_value::NoMemory;
use std::alloc::Global;

/// Copies octets, in one allocation if there are any and in none otherwise.
pub(crate) fn copied_octets(alloc: Global, octets: &[u8]) -> Result<Vec<u8>, NoMemory>
    ensures same { IfOk result (λ v. v.items ≡ octets.now) }
    ensures held { OnErr result (1 ≤ length octets.now) }
{
    let mut copy = Vec::new(alloc);
    copy.extend_from_slice(octets)?;
    Ok(copy)
}

/// Copies a listed property.
fn copied_slot(alloc: Global, slot: &StoredProperty) -> Result<StoredProperty, NoMemory>
    ensures { IfOk result (λ s. slot_view s ≡ slot_view slot.now) }
{
    let values = slot.values.as_data().to_owned(alloc)?;
    let allowed = slot.allowed.copied(alloc)?;
    Ok(StoredProperty {
        number: slot.number,
        values,
        writable: slot.writable,
        kind: slot.kind,
        allowed,
    })
}

/// Copies listed properties, in their order.
fn copied_slots(alloc: Global, slots: &[StoredProperty]) -> Result<Vec<StoredProperty>, NoMemory>
    ensures { IfOk result (λ v. map slot_view v.items ≡ map slot_view slots.now) }
{
    let mut copies = Vec::with_capacity(alloc, slots.len())?;
    for slot in slots {
        copies.push(copied_slot(alloc, slot)?)?;
    }
    Ok(copies)
}

/// Copies the contents of a file and its flag, if the object is a file.
fn copied_file(alloc: Global, file: Option<&File>) -> Result<Option<File>, NoMemory>
    ensures { IfOk result (λ f. option_map file_view f ≡ option_map (λ g. file_view g.now) file.entry) }
{
    match file {
        None => Ok(None),
        Some(file) => {
            let octets = Vec::from_slice(alloc, &file.octets)?;
            let writable = file.writable;
            Ok(Some(File { octets, writable }))
        }
    }
}

/// Copies an object.
fn copied_entry(alloc: Global, entry: &StoredObject) -> Result<StoredObject, NoMemory>
    ensures { IfOk result (λ e. entry_view e ≡ entry_view entry.now) }
{
    let name = String::from_str(alloc, &entry.name)?;
    let slots = copied_slots(alloc, &entry.slots)?;
    let file = copied_file(alloc, entry.file.as_ref())?;
    let id = entry.id;
    Ok(StoredObject {
        id,
        name,
        slots,
        file,
    })
}

/// Copies objects.
pub(crate) fn copied(alloc: Global, objects: &[StoredObject]) -> Result<Vec<StoredObject>, NoMemory>
    ensures same { IfOk result (λ v. map entry_view v.items ≡ map entry_view objects.now) }
    ensures some { OnErr result (1 ≤ length objects.now) }
{
    // without an allocation, so that copying a store without objects can't fail
    if objects.is_empty() {
        return Ok(Vec::new(alloc));
    }
    let mut copies = Vec::with_capacity(alloc, objects.len())?;
    for entry in objects {
        copies.push(copied_entry(alloc, entry)?)?;
    }
    Ok(copies)
}
