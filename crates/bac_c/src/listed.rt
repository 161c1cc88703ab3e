//! Copies of the objects that are listed.
ghost use Rattle.std.specs.Prelude.{◌≡◌, map, IfOk};
ghost use Rattle.std.specs.Option.{option_map};
ghost use Rattle.bac_store.specs.Views.{file_view, object_view, property_view};

use bac_store::{File, Object, Property};
use bac_value::NoMemory;
use std::alloc::Global;

fn copied_property(alloc: Global, property: &Property) -> Result<Property, NoMemory>
    ensures { IfOk result (λ p. property_view p ≡ property_view property.now) }
{
    let values = property.values.as_data().to_owned(alloc)?;
    let allowed = property.allowed.copied(alloc)?;
    Ok(Property {
        number: property.number,
        values,
        writable: property.writable,
        allowed,
    })
}

fn copied_properties(alloc: Global, properties: &[Property]) -> Result<Vec<Property>, NoMemory>
    ensures { IfOk result (λ v. map property_view v.items ≡ map property_view properties.now) }
{
    let mut copies = Vec::with_capacity(alloc, properties.len())?;
    for property in properties {
        copies.push(copied_property(alloc, property)?)?;
    }
    Ok(copies)
}

fn copied_file(alloc: Global, file: Option<&File>) -> Result<Option<File>, NoMemory>
    ensures { IfOk result (λ f. option_map file_view f ≡ option_map (λ g. file_view g.now) file.entry) }
{
    match file {
        None => Ok(None),
        Some(file) => {
            let octets = Vec::from_slice(alloc, &file.octets)?;
            let writable = file.writable;
            Ok(Some(File { octets, writable }))
        }
    }
}

fn copied_object(alloc: Global, object: &Object) -> Result<Object, NoMemory>
    ensures { IfOk result (λ o. object_view o ≡ object_view object.now) }
{
    let name = String::from_str(alloc, &object.name)?;
    let properties = copied_properties(alloc, &object.properties)?;
    let file = copied_file(alloc, object.file.as_ref())?;
    Ok(Object {
        id: object.id,
        name,
        properties,
        file,
    })
}

/// Equal objects, with their own memory.
pub fn copied_objects(alloc: Global, objects: &[Object]) -> Result<Vec<Object>, NoMemory>
    ensures { IfOk result (λ v. map object_view v.items ≡ map object_view objects.now) }
{
    let mut copies = Vec::with_capacity(alloc, objects.len())?;
    for object in objects {
        copies.push(copied_object(alloc, object)?)?;
    }
    Ok(copies)
}
