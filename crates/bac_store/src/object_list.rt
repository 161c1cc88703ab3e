//! The object-list of a device, computed at construction.
ghost use Rattle.std.specs.Prelude.{◌≡◌, length, map, IfOk};
ghost use Rattle.std.specs.List.Sorted.{IsNonDecreasingBy, IsPermutation};
ghost use Rattle.bac_value.specs.Views.{object_identifier_view};
ghost use Rattle.bac_store.specs.Described.{list_spelling, IsListOf, with_list as with_list_in};
ghost use Rattle.bac_store.specs.Kept.{object_number};
ghost use Rattle.bac_store.specs.Views.{object_view};

use crate::allowed::Allowed;
use crate::limits::{DEVICE, OBJECT_LIST};
use crate::lookups::number_of;
use crate::object::{Object, Property};
use bac_value::{DataBuf, NoMemory, ObjectIdentifier, Value, write_value};
use std::alloc::Global;

/// The identifiers of all objects.
fn identifiers(alloc: Global, objects: &[Object]) -> Result<Vec<ObjectIdentifier>, NoMemory>
    ensures { IfOk result (λ v. map object_identifier_view v.items ≡ map (λ o. object_identifier_view o.id) objects.now) }
{
    let mut ids = Vec::with_capacity(alloc, objects.len())?;
    for object in objects {
        ids.push(object.id)?;
    }
    Ok(ids)
}

/// Sorts identifiers.
fn sort_identifiers(ids: &mut [ObjectIdentifier])
    ensures same { IsPermutation ids.old ids.new }
    ensures sorted { IsNonDecreasingBy (λ i. object_number (object_identifier_view i)) ids.new }
{
    ids.sort_unstable_by_key(|id| number_of(*id));
}

/// Identifiers, encoded as data.
fn spelled_list(alloc: Global, ids: &[ObjectIdentifier]) -> Result<DataBuf, NoMemory>
    ensures { IfOk result (λ d. d.octets.items ≡ list_spelling (map object_identifier_view ids.now)) }
{
    let mut octets = Vec::new(alloc);
    for id in ids {
        write_value(&Value::ObjectIdentifier(*id), &mut octets)?;
    }
    Ok(DataBuf { octets })
}

/// The object, with these values as its object-list if it is a device.
fn with_list(alloc: Global, object: Object, list: &DataBuf) -> Result<Object, NoMemory>
    ensures { IfOk result (λ o. object_view o ≡ with_list_in list.now.octets.items (object_view object)) }
{
    if object.id.kind != DEVICE {
        return Ok(object);
    }
    let Object {
        id,
        name,
        properties,
        file,
    } = object;
    let mut properties = properties;
    properties.push(Property {
        number: OBJECT_LIST,
        values: list.as_data().to_owned(alloc)?,
        writable: false,
        allowed: Allowed::Any,
    })?;
    Ok(Object {
        id,
        name,
        properties,
        file,
    })
}

/// The objects, with these values as the object-list of each device.
pub(crate) fn with_lists(
    alloc: Global,
    objects: Vec<Object>,
    list: &DataBuf,
) -> Result<Vec<Object>, NoMemory>
    ensures { IfOk result (λ v. map object_view v.items ≡ map (with_list_in list.now.octets.items) (map object_view objects.items)) }
{
    let mut listed = Vec::with_capacity(alloc, objects.len())?;
    for object in objects {
        listed.push(with_list(alloc, object, list)?)?;
    }
    Ok(listed)
}

/// The values of the object-list: the identifiers of all objects in ascending order.
pub(crate) fn object_list(alloc: Global, objects: &[Object]) -> Result<DataBuf, NoMemory>
    ensures { IfOk result (λ d. IsListOf (map object_view objects.now) d.octets.items) }
{
    let mut ids = identifiers(alloc, objects)?;
    sort_identifiers(&mut ids);
    spelled_list(alloc, &ids)
}
