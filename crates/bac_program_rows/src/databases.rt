//! Databases in memory that keep the store of a server.
use crate::lines::{Heading, first, of_block};
use crate::scene::Setup;
use bac_keep_file::{Loss, OpenFault};
use sqlite_trees::memory::MemStore;
use sqlite_trees::schema::Object;
use sqlite_trees::store::{Shape, Store};
use sqlite_value::row::Row;
use sqlite_value::value::ValueRef;
use std::alloc::Global;

/// A database with an empty table of cells.
fn database(alloc: Global) -> Option<MemStore> {
    let table = Object {
        shape: Shape::Table,
        kind: "table",
        name: "cell",
        table: "cell",
        reals: 0,
        sql: None,
    };
    MemStore::new(alloc, &[table]).ok()
}

/// Puts a cell into a table, `PLACE HEX`.
fn put_cell(alloc: Global, database: &mut MemStore, line: &str) -> Option<()> {
    let (place, digits) = first(line);
    let place = place.parse::<i64>().ok()?;
    let octets = hex::decode(alloc, digits).ok()?;
    let mut row = Row::new(alloc);
    let is_made = row.push(ValueRef::Int(place)).is_ok()
        && row.push(ValueRef::Null).is_ok()
        && row.push(ValueRef::Blob(&octets)).is_ok();
    let Shape::Table = database.shape(0) else {
        return None;
    };
    if is_made && database.put(0, &row).is_ok() {
        Some(())
    } else {
        None
    }
}

/// A database with the cells of a block.
fn database_of(alloc: Global, block: &str) -> Option<MemStore> {
    let mut database = database(alloc)?;
    for line in block.lines() {
        match of_block(line) {
            Some(line) => put_cell(alloc, &mut database, line)?,
            None => break,
        }
    }
    match database.commit() {
        Ok(()) => Some(database),
        Err(_) => None,
    }
}

fn made(alloc: Global, heading: Heading<'_>, is_new: bool) -> Result<(MemStore, bool), OpenFault> {
    match database_of(alloc, heading.below) {
        Some(database) => Ok((database, is_new)),
        None => Err(OpenFault::Disk),
    }
}

/// The database of that name in a scene, and whether it is new. One that is `alone`, `cut` or `torn` is opened only where a loss is accepted.
pub(crate) fn database_at(
    alloc: Global,
    setup: Setup<'_>,
    path: &str,
    loss: Loss,
) -> Result<(MemStore, bool), OpenFault> {
    let Some(heading) = setup.named("database", path, 0) else {
        return Err(OpenFault::CannotOpen);
    };
    match heading.words {
        "" => made(alloc, heading, false),
        "new" => made(alloc, heading, true),
        "alone" | "cut" | "torn" if loss == Loss::Accepted => made(alloc, heading, false),
        "alone" => Err(OpenFault::LogMissing),
        "cut" => Err(OpenFault::LogCut),
        "torn" => Err(OpenFault::LogDamaged),
        "gone" => Err(OpenFault::FileMissing),
        "locked" => Err(OpenFault::Locked),
        _ => Err(OpenFault::Damaged),
    }
}
