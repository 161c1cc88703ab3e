//! Documents that changed between two starts: what was kept counts where the property is still there and may be written.
use super::playing::{Asked, Round, keep_rounds};
use bac_keep::KeepFault;
use bac_keep_file::CellKeeper;
use bac_rows::holds;
use bac_store::{Allowed, ChangeFault, Object, Property, Store as Objects};
use bac_value::{ObjectIdentifier, read_data};
use sqlite_trees::memory::MemStore;
use sqlite_trees::schema::Object as Table;
use sqlite_trees::store::{Shape, Store};
use std::alloc::Global;
use std::test::Fail;

/// A write of Unsigned 7 to property 512 of object 128:1.
const WRITE: &[Round] = &[Round {
    requests: &[Asked {
        choice: 15,
        data: b"\x0C\x20\x00\x00\x01\x1A\x02\x00\x3E\x21\x07\x3F",
    }],
}];

/// An object of type 128 with property 512, if there is one.
fn object_of(
    alloc: Global,
    instance: u32,
    values: &[u8],
    writable: bool,
) -> Result<Object, KeepFault> {
    let Some(id) = ObjectIdentifier::new(128, instance) else {
        return Err(KeepFault::BadRow);
    };
    let Ok((data, _)) = read_data(values) else {
        return Err(KeepFault::BadRow);
    };
    let mut properties = Vec::new(alloc);
    properties.push(Property {
        number: 512,
        values: data.to_owned(alloc)?,
        writable,
        allowed: Allowed::Any,
    })?;
    Ok(Object {
        id,
        name: String::from_str(alloc, "x")?,
        properties,
        file: None,
    })
}

fn store_of(alloc: Global, objects: Vec<Object>) -> Result<Objects, KeepFault> {
    match Objects::new(alloc, objects) {
        Ok(store) => Ok(store),
        Err(_) => Err(KeepFault::BadRow),
    }
}

/// A document of one object, whose property has these values.
fn document(
    alloc: Global,
    instance: u32,
    values: &[u8],
    writable: bool,
) -> Result<Objects, KeepFault> {
    let mut objects = Vec::new(alloc);
    objects.push(object_of(alloc, instance, values, writable)?)?;
    store_of(alloc, objects)
}

fn database(alloc: Global) -> Result<MemStore, KeepFault> {
    let table = Table {
        shape: Shape::Table,
        kind: "table",
        name: "cell",
        table: "cell",
        reals: 0,
        sql: None,
    };
    Ok(MemStore::new(alloc, &[table])?)
}

/// Keeps the write over the document with Unsigned 0. Returns the database.
fn written<S: Store + Drop>(alloc: Global, database: S) -> Result<S, KeepFault> {
    let first = document(alloc, 1, b"\x21\x00", true)?;
    let (mut keeper, mut store) = match CellKeeper::open(alloc, first, database) {
        Ok(opened) => opened,
        Err((fault, _)) => return Err(fault),
    };
    if keep_rounds(alloc, &mut keeper, &mut store, WRITE) != 1 {
        return Err(KeepFault::Shut);
    }
    Ok(keeper.into_database())
}

/// Whether the next start over a document finds this store.
fn finds<S: Store + Drop>(
    alloc: Global,
    database: S,
    next: Objects,
    wanted: &Objects,
) -> Result<bool, KeepFault> {
    let database = written(alloc, database)?;
    let (_keeper, store) = match CellKeeper::open(alloc, next, database) {
        Ok(opened) => opened,
        Err((fault, _)) => return Err(fault),
    };
    Ok(store.same(wanted))
}

fn counts_again(alloc: Global) -> Result<bool, KeepFault> {
    let next = document(alloc, 1, b"\x21\x05", true)?;
    let wanted = document(alloc, 1, b"\x21\x07", true)?;
    finds(alloc, database(alloc)?, next, &wanted)
}

#[test]
fn kept_values_count(rt: HostRuntime) -> Result<(), Fail> {
    holds(counts_again(rt.alloc()) == Ok(true), "kept")
}

fn is_fixed(alloc: Global) -> Result<bool, KeepFault> {
    let next = document(alloc, 1, b"\x21\x05", false)?;
    let wanted = document(alloc, 1, b"\x21\x05", false)?;
    finds(alloc, database(alloc)?, next, &wanted)
}

#[test]
fn a_property_that_may_no_longer_be_written_has_the_value_of_the_document(
    rt: HostRuntime,
) -> Result<(), Fail> {
    holds(is_fixed(rt.alloc()) == Ok(true), "fixed")
}

fn is_lost(alloc: Global) -> Result<bool, KeepFault> {
    let next = document(alloc, 2, b"\x21\x05", true)?;
    let wanted = document(alloc, 2, b"\x21\x05", true)?;
    finds(alloc, database(alloc)?, next, &wanted)
}

#[test]
fn cells_of_an_object_that_is_lost_have_no_effect(rt: HostRuntime) -> Result<(), Fail> {
    holds(is_lost(rt.alloc()) == Ok(true), "lost")
}

fn is_retyped(alloc: Global) -> Result<bool, KeepFault> {
    let next = document(alloc, 1, b"\x91\x05", true)?;
    let wanted = document(alloc, 1, b"\x91\x05", true)?;
    finds(alloc, database(alloc)?, next, &wanted)
}

#[test]
fn values_of_another_kind_are_refused(rt: HostRuntime) -> Result<(), Fail> {
    let is_refused = match is_retyped(rt.alloc()) {
        Err(
            KeepFault::BadValues {
                property,
                fault,
                ..
            },
        ) => property == 512 && fault == ChangeFault::BadValue,
        _ => false,
    };
    holds(is_refused, "retyped")
}
