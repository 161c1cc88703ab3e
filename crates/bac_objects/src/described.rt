//! Documents that say `described = true`: objects of any type, with any properties.
ghost use Rattle.std.specs.Prelude.{◌≡◌, ◌+◌, [], length, map};
ghost use Rattle.std.specs.Option.{option_map};
ghost use Rattle.bac_value.specs.Steps.{ReadsAll};
ghost use Rattle.bac_value.specs.Views.{object_identifier_view};
ghost use Rattle.bac_store.specs.Views.{file_view, object_view, property_view};
ghost use Rattle.toml.specs.View.{array_view, table_view, view};
ghost use Rattle.std.specs.String.{string_bytes};
ghost use Rattle.bac_objects.specs.Answers.{Reads, ReadsObject};
ghost use Rattle.bac_objects.specs.Described.{all_properties as all_properties_of, completed as completed_of, filled_name as filled_name_of, identifier_in as identifier_of, is_described as is_described_in, list_in as list_of, object_of, objects_in as objects_of, objects_on, properties_on, with_object as with_object_of, with_property as with_property_of};
ghost use Rattle.bac_objects.specs.Documents.{IsDescribedTable, ReadsDocument};
ghost use Rattle.bac_objects.specs.Objects.{in_object as in_object_of};

use crate::consistency::consistent;
use crate::described_property::described_property;
use crate::document::in_object;
use crate::fault::{DocumentFault, Flaw, ObjectFault, Refusal, ValueFault};
use crate::held::{count, member, object_table};
use crate::identifier::{the_instance, the_type};
use crate::object::{at, file_of, is_reserved, name_in};
use crate::problem::{Given, Problem, Wanted};
use crate::scalars::array;
use crate::standard::{is_written, rows_of, with_rows};
use crate::states::limited;
use bac_store::{DescriptionFault, DescriptionFlaw, File, OBJECTS_LIMIT, Object, Property, Store};
use bac_value::ObjectIdentifier;
use std::alloc::Global;
use toml::value::Array;
use toml::{Table, Value};

/// How many objects of a document are read: one more than a store describes.
pub(crate) const DESCRIBED_LIMIT: usize = OBJECTS_LIMIT + 1;

/// Whether a document says that its objects are described.
pub(crate) fn is_described(table: &Table) -> bool
    ensures { result ≡ is_described_in (table_view table.now) }
{
    match member(table, "described") {
        Some(value) => match value.as_bool() {
            Some(is) => is,
            None => false,
        },
        None => false,
    }
}

/// Reads any type and the instance of an object.
#[tactic(auto, unfolding(crate::specs::Described::identifier_in))]
fn identifier_in<'a>(table: &Table) -> Result<ObjectIdentifier, ObjectFault<'a>>
    ensures { ReadsObject object_identifier_view result (identifier_of (table_view table.now)) }
{
    let kind = match the_type(Wanted::ObjectType, table) {
        Ok(kind) => kind,
        Err(problem) => return Err(at(None, "type", ValueFault::Wrong(problem))),
    };
    match the_instance(4_194_302, Wanted::Instance, table) {
        Ok(instance) => Ok(ObjectIdentifier {
            kind: kind as u16,
            instance: instance as u32,
        }),
        Err(problem) => Err(at(None, "instance", ValueFault::Wrong(problem))),
    }
}

/// Reads the name of an object, which is not empty.
pub(crate) fn filled_name(alloc: Global, table: &Table) -> Result<String, ValueFault>
    ensures { Reads string_bytes result (filled_name_of (table_view table.now)) }
{
    let name = name_in(alloc, table)?;
    if name.len() == 0 {
        return Err(ValueFault::Wrong(Problem {
            wanted: Wanted::FilledName,
            given: Given::Other,
        }));
    }
    Ok(name)
}

/// The properties, with one more if the key is that of a property.
fn with_property<'a>(
    alloc: Global,
    id: ObjectIdentifier,
    done: Vec<Property>,
    key: &'a str,
    value: &Value,
) -> Result<Vec<Property>, ObjectFault<'a>>
    ensures { ReadsObject (λ v. map property_view v.items) result
        (with_property_of (object_identifier_view id) (map property_view done.items) key.now (view value.now)) }
{
    if is_reserved(id.kind, key) {
        return Ok(done);
    }
    let mut properties = done;
    match described_property(alloc, id.kind, key, value) {
        Ok(property) => properties.push(property)?,
        Err(fault) => return Err(at(Some(id), key, fault)),
    }
    Ok(properties)
}

/// Reads the properties of an object, in the order of their keys.
fn properties_in<'a>(
    alloc: Global,
    id: ObjectIdentifier,
    table: &'a Table,
) -> Result<Vec<Property>, ObjectFault<'a>>
    ensures { ReadsObject (λ v. map property_view v.items) result (properties_on (object_identifier_view id) [] (table_view table.now)) }
{
    let mut properties = Vec::new(alloc);
    for (key, value) in table.iter() {
        properties = with_property(alloc, id, properties, key.as_str(), value)?;
    }
    Ok(properties)
}

/// The properties of an object of this type and a file that may be written or not: within its states, and with those that the standard requires and they lack.
fn completed(
    alloc: Global,
    kind: u16,
    written: bool,
    properties: Vec<Property>,
) -> Result<Vec<Property>, ValueFault>
    ensures { Reads (λ v. map property_view v.items) result (completed_of kind written (map property_view properties.items)) }
{
    let properties = limited(alloc, kind, properties)?;
    with_rows(alloc, properties, rows_of(kind, written))
}

/// Reads the properties of an object, which fit together, and adds those that the standard requires and the table lacks.
#[tactic(auto, unfolding(crate::specs::Described::all_properties))]
fn all_properties<'a>(
    alloc: Global,
    id: ObjectIdentifier,
    file: &Option<File>,
    table: &'a Table,
) -> Result<Vec<Property>, ObjectFault<'a>>
    ensures { ReadsObject (λ v. map property_view v.items) result
        (all_properties_of (object_identifier_view id) (option_map file_view file.now) (table_view table.now)) }
{
    let properties = properties_in(alloc, id, table)?;
    let properties = match consistent(id.kind, properties) {
        Ok(properties) => properties,
        Err(problem) => return Err(at(Some(id), "present-value", ValueFault::Wrong(problem))),
    };
    match completed(alloc, id.kind, is_written(file), properties) {
        Ok(properties) => Ok(properties),
        Err(fault) => Err(at(Some(id), "", fault)),
    }
}

/// Reads an object of any type.
#[tactic(auto, unfolding(crate::specs::Described::object_of))]
pub(crate) fn object_in(alloc: Global, value: &Value) -> Result<Object, ObjectFault<'_>>
    ensures { ReadsObject object_view result (object_of (view value.now)) }
{
    let table = match object_table(value) {
        Ok(table) => table,
        Err(problem) => return Err(at(None, "", ValueFault::Wrong(problem))),
    };
    let id = identifier_in(table)?;
    let name = match filled_name(alloc, table) {
        Ok(name) => name,
        Err(fault) => return Err(at(Some(id), "name", fault)),
    };
    let file = match file_of(alloc, id.kind, table) {
        Ok(file) => file,
        Err(fault) => return Err(at(Some(id), "file", fault)),
    };
    let properties = all_properties(alloc, id, &file, table)?;
    Ok(Object {
        id,
        name,
        properties,
        file,
    })
}

/// The objects, with one more.
fn with_object(
    alloc: Global,
    done: Vec<Object>,
    value: &Value,
) -> Result<Vec<Object>, ObjectFault<'_>>
    ensures { ReadsObject (λ v. map object_view v.items) result (with_object_of (map object_view done.items) (view value.now)) }
{
    let object = object_in(alloc, value)?;
    let mut objects = done;
    objects.push(object)?;
    Ok(objects)
}

/// The objects, with the next one of a list; or its fault, with its number.
fn with_next(alloc: Global, done: Vec<Object>, value: &Value) -> Result<Vec<Object>, DocumentFault>
    ensures { ReadsDocument (λ v. map object_view v.items) result
        (in_object_of (length (map object_view done.items) + 1) (with_object_of (map object_view done.items) (view value.now))) }
{
    let number = done.len() + 1;
    match with_object(alloc, done, value) {
        Ok(objects) => Ok(objects),
        Err(fault) => Err(in_object(alloc, number, fault)),
    }
}

/// All objects of a list, or as many as are needed to refuse it.
fn objects_of_list(alloc: Global, list: &Array) -> Result<Vec<Object>, DocumentFault>
    ensures { ReadsDocument (λ v. map object_view v.items) result (objects_on [] (array_view list.now)) }
{
    let mut objects = Vec::new(alloc);
    for value in list {
        if objects.len() == DESCRIBED_LIMIT {
            return Ok(objects);
        }
        objects = with_next(alloc, objects, value)?;
    }
    Ok(objects)
}

/// The list under the key `object`, which is the only key but `described`.
fn list_in(table: &Table) -> Result<&Array, Problem>
    ensures { ReadsAll (λ a. array_view a.now) result (list_of (table_view table.now)) }
{
    let Some(value) = member(table, "object") else {
        return Err(Problem {
            wanted: Wanted::DescribedObjects,
            given: Given::Nothing,
        });
    };
    let list = array(Wanted::DescribedObjects, value)?;
    if count(table) != 2 {
        return Err(Problem {
            wanted: Wanted::DescribedObjects,
            given: Given::More,
        });
    }
    Ok(list)
}

/// The objects of a document.
#[tactic(auto, unfolding(crate::specs::Described::objects_in))]
pub(crate) fn objects_in(alloc: Global, table: &Table) -> Result<Vec<Object>, DocumentFault>
    ensures { ReadsDocument (λ v. map object_view v.items) result (objects_of (table_view table.now)) }
{
    match list_in(table) {
        Ok(list) => objects_of_list(alloc, list),
        Err(problem) => Err(in_object(
            alloc,
            0,
            ObjectFault::Flaw(Flaw {
                id: None,
                key: "object",
                problem,
            }),
        )),
    }
}

/// The store that a document describes.
pub(crate) fn described_store(alloc: Global, table: &Table) -> Result<Store, DocumentFault>
    ensures { IsDescribedTable (table_view table.now) result }
{
    let objects = objects_in(alloc, table)?;
    match Store::describing(alloc, objects) {
        Ok(store) => Ok(store),
        Err(
            DescriptionFault {
                why: DescriptionFlaw::NoMemory,
                ..
            },
        ) => Err(DocumentFault::NoMemory),
        Err(fault) => Err(DocumentFault::Refused(Refusal { fault })),
    }
}
