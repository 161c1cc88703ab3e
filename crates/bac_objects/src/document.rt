//! Reading a whole document as a store.
ghost use Rattle.std.specs.Prelude.{◌≡◌, ◌+◌, [], length, map, IfOk};
ghost use Rattle.bac_value.specs.Steps.{ReadsAll};
ghost use Rattle.bac_store.specs.Views.{object_view};
ghost use Rattle.toml.specs.View.{array_view, items_view, table_view, view};
ghost use Rattle.bac_objects.specs.Answers.{ReadsObject};
ghost use Rattle.bac_objects.specs.Documents.{AreRead, AreReadTable, IsInObject, IsRead, IsReadTable, ReadsDocument};
ghost use Rattle.bac_objects.specs.Right.{AreFit};
ghost use Rattle.bac_objects.specs.Objects.{few_objects as few_objects_of, in_object as in_object_of, list_in as list_of, objects_in as objects_of, objects_on, with_object as with_object_of};

use crate::described;
use crate::described::{described_store, is_described};
use crate::fault::{DocumentFault, Flaw, ObjectFault, Place};
use crate::held::{count, member};
use crate::object::object_in;
use crate::outline::line_behind;
use crate::problem::{Given, Problem, Wanted};
use crate::scalars::array;
use bac_store::{Object, Store, StoreFault};
use std::alloc::Global;
use toml::de::Error;
use toml::value::Array;
use toml::{Table, Value};

/// The objects, with one more.
fn with_object<'a>(
    alloc: Global,
    done: Vec<Object>,
    value: &'a Value,
) -> Result<Vec<Object>, ObjectFault<'a>>
    requires { AreFit (map object_view done.items) }
    ensures is { ReadsObject (λ v. map object_view v.items) result (with_object_of (map object_view done.items) (view value.now)) }
    ensures fit { IfOk result (λ v. AreFit (map object_view v.items)) }
{
    let object = object_in(alloc, &done, value)?;
    let mut objects = done;
    objects.push(object)?;
    Ok(objects)
}

/// The fault of an object, with the object's number.
pub(crate) fn in_object(alloc: Global, object: usize, fault: ObjectFault<'_>) -> DocumentFault
    ensures { IsInObject object fault.entry result }
{
    let ObjectFault::Flaw(Flaw { id, key, problem }) = fault else {
        return DocumentFault::NoMemory;
    };
    match String::from_str(alloc, key) {
        Ok(key) => DocumentFault::Wrong {
            place: Place { object, id, key },
            problem,
        },
        Err(_) => DocumentFault::NoMemory,
    }
}

/// The objects, with the next one of a list; or its fault, with its number.
fn with_next(alloc: Global, done: Vec<Object>, value: &Value) -> Result<Vec<Object>, DocumentFault>
    requires { AreFit (map object_view done.items) }
    ensures is { ReadsDocument (λ v. map object_view v.items) result
        (in_object_of (length (map object_view done.items) + 1) (with_object_of (map object_view done.items) (view value.now))) }
    ensures fit { IfOk result (λ v. AreFit (map object_view v.items)) }
{
    let number = done.len() + 1;
    match with_object(alloc, done, value) {
        Ok(objects) => Ok(objects),
        Err(fault) => Err(in_object(alloc, number, fault)),
    }
}

/// All objects of a list.
fn objects_of_list(alloc: Global, list: &Array) -> Result<Vec<Object>, DocumentFault>
    ensures is { ReadsDocument (λ v. map object_view v.items) result (objects_on [] (array_view list.now)) }
    ensures fit { IfOk result (λ v. AreFit (map object_view v.items)) }
{
    let mut objects = Vec::new(alloc);
    for value in list {
        objects = with_next(alloc, objects, value)?;
    }
    Ok(objects)
}

/// The most objects of a document that is not described: each identifier is compared with those before it.
pub(crate) const LISTED_LIMIT: usize = 10_000;

/// A list of few objects.
#[tactic(auto, using(crate::proofs::Tables::count_items_length))]
pub(crate) fn few_objects(list: &Array) -> Result<&Array, Problem>
    ensures { ReadsAll (λ a. array_view a.now) result (few_objects_of (array_view list.now)) }
{
    if list.len() > LISTED_LIMIT {
        return Err(Problem {
            wanted: Wanted::FewObjects,
            given: Given::More,
        });
    }
    Ok(list)
}

/// The list under the key `object`, which is the only key.
fn list_in(table: &Table) -> Result<&Array, Problem>
    ensures { ReadsAll (λ a. array_view a.now) result (list_of (table_view table.now)) }
{
    let Some(value) = member(table, "object") else {
        return Err(Problem {
            wanted: Wanted::Objects,
            given: Given::Nothing,
        });
    };
    let list = array(Wanted::Objects, value)?;
    if count(table) != 1 {
        return Err(Problem {
            wanted: Wanted::Objects,
            given: Given::More,
        });
    }
    few_objects(list)
}

/// The objects of a document.
#[tactic(auto, unfolding(crate::specs::Objects::objects_in))]
fn objects_in(alloc: Global, table: &Table) -> Result<Vec<Object>, DocumentFault>
    ensures is { ReadsDocument (λ v. map object_view v.items) result (objects_of (table_view table.now)) }
    ensures fit { IfOk result (λ v. AreFit (map object_view v.items)) }
{
    match list_in(table) {
        Ok(list) => objects_of_list(alloc, list),
        Err(problem) => Err(in_object(
            alloc,
            0,
            ObjectFault::Flaw(Flaw {
                id: None,
                key: "object",
                problem,
            }),
        )),
    }
}

/// The store of a document's table.
fn store_in(alloc: Global, table: &Table) -> Result<Store, DocumentFault>
    ensures { IsReadTable (table_view table.now) result }
{
    let objects = objects_in(alloc, table)?;
    match Store::new(alloc, objects) {
        Ok(store) => Ok(store),
        Err(StoreFault::NoMemory) => Err(DocumentFault::NoMemory),
        // each object is valid, and has an identifier of its own
        Err(StoreFault::Duplicate | StoreFault::BadObject) => unreachable!(),
    }
}

/// The number of the line, from 1 on, that contains an error.
fn line_of(text: &[u8], error: &Error) -> usize {
    match error.span() {
        Some(span) => line_behind(text, span.start),
        None => 1,
    }
}

/// Reads a store from a document: TOML in UTF-8. A document with `described = true` before its objects describes a store
/// ([`Store::describing`]); all others have the objects of [`Store::new`]. Described objects get the properties that the standard requires of their type (clause 12)
/// and the document leaves out.
///
/// Where the standard names the numbers of a property, a text may be the name of one: in place of the number, or of the whole table, whose value is not writable
/// then.
///
/// An object has at most 1,024 keys; a document that is not described at most 10,000 objects. The name of a described object is not empty, its units are
/// Enumerated, and its number-of-states is an Unsigned from 1 on. If it is analog, binary or multi-state, it has a present-value, of a multi-state object none beyond
/// its number-of-states. Where a client may write that, and the document gives it no limits, they are from 1 to the number-of-states.
///
/// Returns `Refused` if a document that describes a store has a fault that its objects alone don't show.
///
/// Returns `NoToml` if the document is not TOML, and `Wrong` with the first fault: objects are read in the order of the document, and
/// in each `type`, `instance`, whether an earlier object has both, `name`, `file`, then the other keys in the order of their octets, and at last what a described
/// object says of its present-value.
/// Returns `NoMemory` if an allocation fails.
pub fn read_objects(alloc: Global, text: &[u8]) -> Result<Store, DocumentFault>
    ensures { IsRead text.now result }
{
    match toml::table_from_slice(alloc, text) {
        Ok(table) if is_described(&table) => described_store(alloc, &table),
        Ok(table) => store_in(alloc, &table),
        Err(error) if error.is_memory() => Err(DocumentFault::NoMemory),
        Err(error) => Err(DocumentFault::NoToml {
            line: line_of(text, &error),
            error,
        }),
    }
}

/// The objects of a document's table.
fn objects_of_table(alloc: Global, table: &Table) -> Result<Vec<Object>, DocumentFault>
    ensures { AreReadTable (table_view table.now) result }
{
    if is_described(table) {
        described::objects_in(alloc, table)
    } else {
        objects_in(alloc, table)
    }
}

/// Reads the objects of a document, in its order: those that [`read_objects`] makes a store of. Of a described document that lists more than a store has, the first
/// 820.
///
/// The faults are those of `read_objects`, but `Refused`, which the objects alone don't show.
pub fn read_object_list(alloc: Global, text: &[u8]) -> Result<Vec<Object>, DocumentFault>
    ensures { AreRead text.now result }
{
    match toml::table_from_slice(alloc, text) {
        Ok(table) => objects_of_table(alloc, &table),
        Err(error) if error.is_memory() => Err(DocumentFault::NoMemory),
        Err(error) => Err(DocumentFault::NoToml {
            line: line_of(text, &error),
            error,
        }),
    }
}
