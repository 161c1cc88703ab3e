//! Why the objects that a document describes are together no store: all reasons, as far as the objects can be read.
use crate::described::{DESCRIBED_LIMIT, filled_name};
use crate::described_property::described_property;
use crate::fault::ValueFault;
use crate::held::object_table;
use crate::identifier::{the_instance, the_type};
use crate::object::{file_of, is_reserved};
use crate::problem::Wanted;
use bac_store::{DescriptionFault, DescriptionFlaw, File, Object, Property, Store};
use bac_value::{NoMemory, ObjectIdentifier};
use std::alloc::Global;
use toml::value::Array;
use toml::{Table, Value};

/// How many reasons are told.
const MOST_REFUSALS: usize = 32;

/// What is read, if it is not wrong.
fn right<T: Drop>(read: Result<T, ValueFault>) -> Result<Option<T>, NoMemory> {
    match read {
        Ok(value) => Ok(Some(value)),
        Err(ValueFault::Wrong(_)) => Ok(None),
        Err(ValueFault::NoMemory) => Err(NoMemory),
    }
}

/// The identifier of an object, where it is right.
pub(crate) fn right_id(table: &Table) -> Option<ObjectIdentifier> {
    let kind = the_type(Wanted::ObjectType, table).ok()?;
    let instance = the_instance(4_194_302, Wanted::Instance, table).ok()?;
    ObjectIdentifier::new(kind as u16, instance as u32)
}

/// The properties of an object that are right.
fn right_properties(alloc: Global, kind: u16, table: &Table) -> Result<Vec<Property>, NoMemory> {
    let mut properties = Vec::new(alloc);
    for (key, value) in table.iter() {
        let key = key.as_str();
        if is_reserved(kind, key) {
            continue;
        }
        if let Some(property) = right(described_property(alloc, kind, key, value))? {
            properties.push(property)?;
        }
    }
    Ok(properties)
}

/// The file of an object; an empty one where it is wrong.
fn right_file(alloc: Global, kind: u16, table: &Table) -> Result<Option<File>, NoMemory> {
    match right(file_of(alloc, kind, table))? {
        Some(file) => Ok(file),
        None => Ok(Some(File {
            octets: Vec::new(alloc),
            writable: false,
        })),
    }
}

/// What is right of an object. None where it has no identifier or no name.
fn right_object(alloc: Global, value: &Value) -> Result<Option<Object>, NoMemory> {
    let Ok(table) = object_table(value) else {
        return Ok(None);
    };
    let Some(id) = right_id(table) else {
        return Ok(None);
    };
    let Some(name) = right(filled_name(alloc, table))? else {
        return Ok(None);
    };
    let file = right_file(alloc, id.kind, table)?;
    let properties = right_properties(alloc, id.kind, table)?;
    Ok(Some(Object {
        id,
        name,
        properties,
        file,
    }))
}

/// Whether an object at a place, or a property of it, was refused.
fn is_refused(refused: &[DescriptionFault], place: usize, property: Option<u32>) -> bool {
    refused.iter().any(|fault| fault.object == Some(place) && fault.property == property)
}

/// Objects, and the place of each in the list of the document.
#[derive(Drop)]
struct Placed {
    objects: Vec<Object>,
    places: Vec<usize>,
}

impl Placed {
    /// Adds what is right of an object at a place and was not refused.
    fn add(
        &mut self,
        alloc: Global,
        value: &Value,
        place: usize,
        refused: &[DescriptionFault],
    ) -> Result<(), NoMemory> {
        let Some(object) = right_object(alloc, value)? else {
            return Ok(());
        };
        let mut object = object;
        object.properties.retain(|property| !is_refused(refused, place, Some(property.number)));
        self.objects.push(object)?;
        Ok(self.places.push(place)?)
    }
}

/// The objects of a list, as far as they are right, without what was refused: as many as are needed to refuse them.
fn objects_without(
    alloc: Global,
    list: &Array,
    refused: &[DescriptionFault],
) -> Result<Placed, NoMemory> {
    let mut placed = Placed {
        objects: Vec::new(alloc),
        places: Vec::new(alloc),
    };
    for (place, value) in list.iter().enumerate() {
        if placed.objects.len() == DESCRIBED_LIMIT {
            break;
        }
        if !is_refused(refused, place, None) {
            placed.add(alloc, value, place, refused)?;
        }
    }
    Ok(placed)
}

/// Why the objects of a list are no store.
#[derive(Drop)]
pub(crate) struct Reasons {
    /// The first reasons.
    pub(crate) told: Vec<DescriptionFault>,
    /// The next one, where there are more.
    pub(crate) next: Option<DescriptionFault>,
}

/// The first reason why the objects of a list are no store without what was refused, as far as they are right. None where they are one.
fn refusal(
    alloc: Global,
    list: &Array,
    refused: &[DescriptionFault],
) -> Result<Option<DescriptionFault>, NoMemory> {
    let Placed { objects, places } = objects_without(alloc, list, refused)?;
    let Err(fault) = Store::describing(alloc, objects) else {
        return Ok(None);
    };
    let DescriptionFault {
        object,
        property,
        why,
    } = fault;
    if why == DescriptionFlaw::NoMemory {
        return Err(NoMemory);
    }
    let object = match object {
        Some(at) => places.get(at).copied(),
        None => None,
    };
    Ok(Some(DescriptionFault {
        object,
        property,
        why,
    }))
}

/// Why the objects of a list are no store, as far as they are right: each object that is refused by its place in the list, and each property of one. The last is perhaps
/// a reason of no single object.
pub(crate) fn refusals(alloc: Global, list: &Array) -> Result<Reasons, NoMemory> {
    let mut told = Vec::new(alloc);
    for _round in 0..MOST_REFUSALS {
        let Some(fault) = refusal(alloc, list, &told)? else {
            return Ok(Reasons { told, next: None });
        };
        told.push(fault)?;
        if fault.object.is_none() {
            return Ok(Reasons { told, next: None });
        }
    }
    let next = refusal(alloc, list, &told)?;
    Ok(Reasons { told, next })
}
