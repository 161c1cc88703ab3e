//! Putting cells into the table of a database.
ghost use Rattle.std.specs.Prelude.{◌≡◌, ◌≤◌, ◌<◌, ◌^◌, [], ◌∷◌, length, pos, true, Some, OnOk, IfErr, IfOk};
ghost use Rattle.sqlite_value.specs.declared.value.Value.TheVariants as value;
ghost use Rattle.sqlite_disk.specs.Disk.{MoreFaults};
ghost use Rattle.sqlite_trees.specs.View.{IsClean};
ghost use Rattle.bac_store.specs.Limits.{VALUE_LIMIT as VALUE_MOST};
ghost use Rattle.bac_keep.specs.Cells.{with_cell};
ghost use Rattle.bac_keep_file.specs.Refused.{IsUnput};
ghost use Rattle.bac_keep_file.specs.Rows.{cells_of};
ghost use Rattle.bac_keep_file.specs.Steps.{CommitsNothing, GetsCells, IsReadyIfClean};

use crate::fault::keep_fault;
use bac_keep::KeepFault;
use bac_value::ObjectIdentifier;
use sqlite_trees::store::Store;
use sqlite_value::row::Row;
use sqlite_value::value::ValueRef;
use std::alloc::{AllocError, Global};

/// The number of the table.
pub(crate) const TABLE: u32 = 0;

/// The column of the octets.
pub(crate) const OCTETS: usize = 2;

/// The key of a place.
fn key_of(place: u64) -> i64
    requires { place < 2 ^ 63 }
    ensures { result ≡ pos place }
{
    // a place has 55 bits at most
    place as i64
}

/// The row of a cell. The place is the key, so that its own column is NULL. The octets follow, and for people the object's type, its instance, and
/// the number of the property or of the part of the file.
fn row_of(
    alloc: Global,
    place: u64,
    octets: &[u8],
    object: ObjectIdentifier,
    number: u32,
) -> Result<Row, AllocError>
    requires { place < 2 ^ 63 }
    ensures { IfOk result (λ row. row ≡ value.Int (pos place) ∷ value.Null ∷ value.Blob octets.now ∷ value.Int (pos object.kind)
        ∷ value.Int (pos object.instance) ∷ value.Int (pos number) ∷ []) }
{
    let mut row = Row::new(alloc);
    row.push(ValueRef::Int(key_of(place)))?;
    row.push(ValueRef::Null)?;
    row.push(ValueRef::Blob(octets))?;
    row.push(ValueRef::Int(i64::from(object.kind)))?;
    row.push(ValueRef::Int(i64::from(object.instance)))?;
    row.push(ValueRef::Int(i64::from(number)))?;
    Ok(row)
}

/// Whether the table has these octets at that place.
fn has_cell<S: Store>(
    alloc: Global,
    database: &mut S,
    place: u64,
    octets: &[u8],
) -> Result<bool, KeepFault>
    requires ready { IsReadyIfClean (S.view database.old) }
    requires short { place < 2 ^ 63 }
    ensures quiet { CommitsNothing S.view S.faults S.recovers database.old database.new }
    ensures same { OnOk result (IsClean (S.view database.new) → S.view database.new ≡ S.view database.old) }
    ensures there { IfOk result (λ b. b ≡ true → IsClean (S.view database.new) → cells_of (S.view database.old).trees place ≡ Some octets.now) }
    ensures refused { IfErr result (λ e. IsClean (S.view database.new) → IsUnput (MoreFaults (S.faults database.old) (S.faults database.new)) e) }
{
    let mut row = Row::new(alloc);
    let found = database
        .get(TABLE, key_of(place), &mut row)
        .map_err(keep_fault)?;
    if !found {
        return Ok(false);
    }
    match row.get(OCTETS) {
        ValueRef::Blob(kept) => Ok(kept == octets),
        _ => Ok(false),
    }
}

/// Puts a cell into the table, if it does not have it.
pub(crate) fn put_cell<S: Store>(
    alloc: Global,
    database: &mut S,
    place: u64,
    octets: &[u8],
    object: ObjectIdentifier,
    number: u32,
) -> Result<(), KeepFault>
    requires ready { IsReadyIfClean (S.view database.old) }
    requires short { place < 2 ^ 63 }
    requires few { length octets.now ≤ VALUE_MOST }
    ensures quiet { CommitsNothing S.view S.faults S.recovers database.old database.new }
    ensures put { OnOk result (GetsCells (S.view database.old) (with_cell place octets.now (cells_of (S.view database.old).trees)) (S.view database.new)) }
    ensures refused { IfErr result (λ e. IsClean (S.view database.new) → IsUnput (MoreFaults (S.faults database.old) (S.faults database.new)) e) }
{
    if has_cell(alloc, database, place, octets)? {
        return Ok(());
    }
    let row = row_of(alloc, place, octets, object, number)?;
    database.put(TABLE, &row).map_err(keep_fault)?;
    Ok(())
}
