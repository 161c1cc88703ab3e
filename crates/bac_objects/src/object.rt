//! An object in a document (clause 12).
ghost use Rattle.std.specs.Prelude.{◌≡◌, ◌<◌, ◌≤◌, [], false, length, map, IfOk, IsTrue};
ghost use Rattle.std.specs.Option.{option_map};
ghost use Rattle.std.specs.String.{string_bytes};
ghost use Rattle.bac_value.specs.Views.{object_identifier_view};
ghost use Rattle.bac_value.specs.Value.{characters};
ghost use Rattle.bac_value.specs.Writing.{value_spelling};
ghost use Rattle.bac_store.specs.Limits.{VALUE_LIMIT};
ghost use Rattle.bac_store.specs.Objects.{IsRight, is_right_file, is_right_id, is_right_type};
ghost use Rattle.bac_objects.specs.Right.{AreRight};
ghost use Rattle.bac_store.specs.Views.{file_view, object_view, property_view};
ghost use Rattle.toml.specs.View.{view, table_view};
ghost use Rattle.bac_objects.specs.Answers.{IsAt, Reads, ReadsObject};
ghost use Rattle.bac_objects.specs.Objects.{file_in as file_in_members, has_id as has_id_in, identifier_in as identifier_of, is_reserved as is_kept, kind_in as kind_of, name_in as name_of};
ghost use Rattle.bac_objects.specs.Objects.{object_of, object_with as object_by, own_identifier as own_identifier_of, properties_on, served_type, with_property as with_property_of};

use crate::fault::{Flaw, ObjectFault, ValueFault};
use crate::held::{member, object_table};
use crate::identifier::{the_instance, the_type};
use crate::problem::{Given, Problem, Wanted};
use crate::property::{file_in, own_property};
use crate::scalars::text;
use bac_store::{File, Object, Property};
use bac_value::ObjectIdentifier;
use std::alloc::Global;
use toml::{Table, Value};

/// The object type file.
const FILE: u16 = 10;

/// The greatest length of a name in octets: its encoding takes five more.
const NAME_LIMIT: usize = 4091;

/// The fault at a key of an object.
pub(crate) fn at<'a>(
    id: Option<ObjectIdentifier>,
    key: &'a str,
    fault: ValueFault,
) -> ObjectFault<'a>
    ensures { IsAt (option_map object_identifier_view id) key.now fault result }
{
    match fault {
        ValueFault::Wrong(problem) => ObjectFault::Flaw(Flaw { id, key, problem }),
        ValueFault::NoMemory => ObjectFault::NoMemory,
    }
}

/// An object type that a store supports.
pub(crate) fn served(kind: u64) -> Result<u16, Problem>
    ensures is { result ≡ served_type kind }
    ensures within { IfOk result (λ k. k < 1024) }
    ensures right { IfOk result (λ k. IsTrue (is_right_type k)) }
{
    match kind {
        0 | 2 | 5 | 8 | 10 | 128..=1023 => Ok(kind as u16),
        _ => Err(Problem {
            wanted: Wanted::ServedType,
            given: Given::Other,
        }),
    }
}

/// Reads the type of an object.
pub(crate) fn kind_in(table: &Table) -> Result<u16, Problem>
    ensures is { result ≡ kind_of (table_view table.now) }
    ensures within { IfOk result (λ k. k < 1024) }
    ensures right { IfOk result (λ k. IsTrue (is_right_type k)) }
{
    served(the_type(Wanted::ServedType, table)?)
}

/// Reads the type and the instance of an object.
#[tactic(auto, unfolding(crate::specs::Objects::identifier_in))]
fn identifier_in<'a>(table: &Table) -> Result<ObjectIdentifier, ObjectFault<'a>>
    ensures is { ReadsObject object_identifier_view result (identifier_of (table_view table.now)) }
    ensures right { IfOk result (λ i. IsTrue (is_right_id (object_identifier_view i))) }
{
    let kind = match kind_in(table) {
        Ok(kind) => kind,
        Err(problem) => return Err(at(None, "type", ValueFault::Wrong(problem))),
    };
    match the_instance(4_194_302, Wanted::Instance, table) {
        Ok(instance) => Ok(ObjectIdentifier {
            kind,
            instance: instance as u32,
        }),
        Err(problem) => Err(at(None, "instance", ValueFault::Wrong(problem))),
    }
}

/// Whether one of some objects has this identifier.
#[tactic(auto, using(crate::proofs::Identifiers::id_next))]
fn has_id(id: ObjectIdentifier, objects: &[Object]) -> bool
    ensures { result ≡ has_id_in (object_identifier_view id) (map object_view objects.now) }
{
    for object in objects {
        if object.id.kind == id.kind && object.id.instance == id.instance {
            return true;
        }
    }
    false
}

/// Reads the type and the instance of an object, which no earlier object may have.
fn own_identifier<'a>(done: &[Object], table: &Table) -> Result<ObjectIdentifier, ObjectFault<'a>>
    ensures is { ReadsObject object_identifier_view result (own_identifier_of (map object_view done.now) (table_view table.now)) }
    ensures right { IfOk result (λ i. IsTrue (is_right_id (object_identifier_view i))) }
    ensures new { IfOk result (λ i. has_id_in (object_identifier_view i) (map object_view done.now) ≡ false) }
{
    let id = identifier_in(table)?;
    if has_id(id, done) {
        return Err(ObjectFault::Flaw(Flaw {
            id: Some(id),
            key: "instance",
            problem: Problem {
                wanted: Wanted::OwnIdentifier,
                given: Given::Again,
            },
        }));
    }
    Ok(id)
}

/// Reads the name of an object.
#[tactic(auto, using(bac_store::proofs::ValueData::name_fits))]
pub(crate) fn name_in(alloc: Global, table: &Table) -> Result<String, ValueFault>
    ensures is { Reads string_bytes result (name_of (table_view table.now)) }
    ensures short { IfOk result (λ n. length (value_spelling (characters 0 (string_bytes n))) ≤ VALUE_LIMIT) }
{
    let Some(value) = member(table, "name") else {
        return Err(ValueFault::Wrong(Problem {
            wanted: Wanted::Text,
            given: Given::Nothing,
        }));
    };
    let name = text(Wanted::Text, value)?;
    if name.len() > NAME_LIMIT {
        return Err(ValueFault::Wrong(Problem {
            wanted: Wanted::ShortName,
            given: Given::More,
        }));
    }
    Ok(String::from_str(alloc, name)?)
}

/// Reads the contents of a file; None for all other objects.
pub(crate) fn file_of(alloc: Global, kind: u16, table: &Table) -> Result<Option<File>, ValueFault>
    ensures is { Reads (option_map file_view) result (file_in_members kind (table_view table.now)) }
    ensures right { IfOk result (λ f. IsTrue (is_right_file kind (option_map file_view f))) }
{
    if kind != FILE {
        return Ok(None);
    }
    let Some(value) = member(table, "file") else {
        return Err(ValueFault::Wrong(Problem {
            wanted: Wanted::File,
            given: Given::Nothing,
        }));
    };
    Ok(Some(file_in(alloc, value)?))
}

/// Whether a key is not that of a property.
pub(crate) fn is_reserved(kind: u16, key: &str) -> bool
    ensures { result ≡ is_kept kind key.now }
{
    key == "type" || key == "instance" || key == "name" || (kind == FILE && key == "file")
}

/// The properties, with one more if the key is that of a property.
fn with_property<'a>(
    alloc: Global,
    id: ObjectIdentifier,
    done: Vec<Property>,
    key: &'a str,
    value: &Value,
) -> Result<Vec<Property>, ObjectFault<'a>>
    requires { AreRight id.kind (map property_view done.items) }
    ensures is { ReadsObject (λ v. map property_view v.items) result
        (with_property_of (object_identifier_view id) (map property_view done.items) key.now (view value.now)) }
    ensures right { IfOk result (λ v. AreRight id.kind (map property_view v.items)) }
{
    if is_reserved(id.kind, key) {
        return Ok(done);
    }
    let mut properties = done;
    match own_property(alloc, id.kind, &properties, key, value) {
        Ok(property) => properties.push(property)?,
        Err(fault) => return Err(at(Some(id), key, fault)),
    }
    Ok(properties)
}

/// Reads the properties of an object, in the order of their keys.
fn properties_in<'a>(
    alloc: Global,
    id: ObjectIdentifier,
    table: &'a Table,
) -> Result<Vec<Property>, ObjectFault<'a>>
    ensures is { ReadsObject (λ v. map property_view v.items) result (properties_on (object_identifier_view id) [] (table_view table.now)) }
    ensures right { IfOk result (λ v. AreRight id.kind (map property_view v.items)) }
{
    let mut properties = Vec::new(alloc);
    for (key, value) in table.iter() {
        properties = with_property(alloc, id, properties, key.as_str(), value)?;
    }
    Ok(properties)
}

#[tactic(auto, unfolding(crate::specs::Objects::object_with))]
fn object_with<'a>(
    alloc: Global,
    id: ObjectIdentifier,
    table: &'a Table,
) -> Result<Object, ObjectFault<'a>>
    requires { IsTrue (is_right_id (object_identifier_view id)) }
    ensures is { ReadsObject object_view result (object_by (object_identifier_view id) (table_view table.now)) }
    ensures right { IfOk result (λ o. IsRight (object_view o)) }
    ensures id { IfOk result (λ o. o.id ≡ id) }
{
    let name = match name_in(alloc, table) {
        Ok(name) => name,
        Err(fault) => return Err(at(Some(id), "name", fault)),
    };
    let file = match file_of(alloc, id.kind, table) {
        Ok(file) => file,
        Err(fault) => return Err(at(Some(id), "file", fault)),
    };
    let properties = properties_in(alloc, id, table)?;
    Ok(Object {
        id,
        name,
        properties,
        file,
    })
}

/// Reads an object from its table, after the earlier objects.
#[tactic(auto, unfolding(crate::specs::Objects::object_of))]
pub(crate) fn object_in<'a>(
    alloc: Global,
    done: &[Object],
    value: &'a Value,
) -> Result<Object, ObjectFault<'a>>
    ensures is { ReadsObject object_view result (object_of (map object_view done.now) (view value.now)) }
    ensures right { IfOk result (λ o. IsRight (object_view o)) }
    ensures new { IfOk result (λ o. has_id_in (object_identifier_view o.id) (map object_view done.now) ≡ false) }
{
    let table = match object_table(value) {
        Ok(table) => table,
        Err(problem) => return Err(at(None, "", ValueFault::Wrong(problem))),
    };
    let id = own_identifier(done, table)?;
    object_with(alloc, id, table)
}
