//! Noting what a store has now, in the table of a database.
ghost use Rattle.std.specs.Prelude.{◌≡◌, ◌≤◌, ◌+◌, ◌*◌, length, OnOk, IfErr};
ghost use Rattle.sqlite_disk.specs.Disk.{MoreFaults};
ghost use Rattle.sqlite_trees.specs.View.{IsClean};
ghost use Rattle.bac_value.specs.Views.{object_identifier_view};
ghost use Rattle.bac_store.specs.Limits.{FILE_LIMIT as FILE_MOST};
ghost use Rattle.bac_keep.specs.Noted.{chunk_count, octets_noted, values_noted};
ghost use Rattle.bac_keep.specs.Overlay.{CHUNK as CHUNK_SIZE, chunk, with_chunks, with_file};
ghost use Rattle.bac_keep_file.specs.Refused.{HasRoom, IsUnnotedValue, IsUnput};
ghost use Rattle.bac_keep_file.specs.Rows.{cells_of};
ghost use Rattle.bac_keep_file.specs.Steps.{CommitsNothing, GetsCells, IsReadyIfClean};

use crate::putting::put_cell;
use bac_keep::{CHUNK, KeepFault, NUMBERS, file_place, value_place};
use bac_store::{Store as Objects, stores_are_in_order};
use bac_value::ObjectIdentifier;
use sqlite_trees::store::Store;
use std::alloc::Global;

/// Notes the values that a property has now, if they may be written.
pub(crate) fn note_values<S: Store>(
    alloc: Global,
    database: &mut S,
    store: &Objects,
    object: ObjectIdentifier,
    number: u32,
) -> Result<(), KeepFault>
    requires { IsReadyIfClean (S.view database.old) }
    ensures quiet { CommitsNothing S.view S.faults S.recovers database.old database.new }
    ensures fits { OnOk result (HasRoom store.now (object_identifier_view object) number) }
    ensures noted { OnOk result (GetsCells (S.view database.old)
        (values_noted store.now (object_identifier_view object) number (cells_of (S.view database.old).trees)) (S.view database.new)) }
    ensures refused { IfErr result (λ e. IsClean (S.view database.new) → IsUnnotedValue number (MoreFaults (S.faults database.old) (S.faults database.new)) e) }
{
    let Some(listed) = store.listed(object, number) else {
        return Ok(());
    };
    if !listed.writable {
        return Ok(());
    }
    if u64::from(number) >= NUMBERS {
        return Err(KeepFault::HighNumber);
    }
    // so that identifier, number and octets are within their limits
    stores_are_in_order(store);
    let place = value_place(object, number);
    put_cell(alloc, database, place, listed.octets, object, number)?;
    Ok(())
}

/// One chunk of a file.
fn chunk_of(octets: &[u8], at: u8) -> &[u8]
    requires { at * CHUNK_SIZE ≤ length octets.now }
    ensures is { result.now ≡ chunk octets.now at }
    ensures short { length result.now ≤ CHUNK_SIZE }
{
    let start = usize::from(at) * CHUNK;
    if octets.len() - start <= CHUNK {
        return &octets[start..];
    }
    &octets[start..start + CHUNK]
}

/// Puts the first chunks of a file into the table.
fn put_chunks<S: Store>(
    alloc: Global,
    database: &mut S,
    object: ObjectIdentifier,
    octets: &[u8],
    count: u8,
) -> Result<(), KeepFault>
    requires ready { IsReadyIfClean (S.view database.old) }
    requires within { count * CHUNK_SIZE ≤ length octets.now + 1023 }
    ensures quiet { CommitsNothing S.view S.faults S.recovers database.old database.new }
    ensures put { OnOk result (GetsCells (S.view database.old)
        (with_chunks (object_identifier_view object) octets.now count (cells_of (S.view database.old).trees)) (S.view database.new)) }
    ensures refused { IfErr result (λ e. IsClean (S.view database.new) → IsUnput (MoreFaults (S.faults database.old) (S.faults database.new)) e) }
{
    for at in 0..count {
        let part = u32::from(at) + 1;
        let place = file_place(object, part);
        put_cell(alloc, database, place, chunk_of(octets, at), object, part)?;
    }
    Ok(())
}

/// Puts all octets of a file into the table: its chunks, then their number.
fn put_file<S: Store>(
    alloc: Global,
    database: &mut S,
    object: ObjectIdentifier,
    octets: &[u8],
) -> Result<(), KeepFault>
    requires ready { IsReadyIfClean (S.view database.old) }
    requires short { length octets.now ≤ FILE_MOST }
    ensures quiet { CommitsNothing S.view S.faults S.recovers database.old database.new }
    ensures put { OnOk result (GetsCells (S.view database.old)
        (with_file (object_identifier_view object) octets.now (chunk_count octets.now) (cells_of (S.view database.old).trees)) (S.view database.new)) }
    ensures refused { IfErr result (λ e. IsClean (S.view database.new) → IsUnput (MoreFaults (S.faults database.old) (S.faults database.new)) e) }
{
    // at most 60,000 octets, so at most 59 chunks
    let count = ((octets.len() + 1023) / CHUNK) as u8;
    put_chunks(alloc, database, object, octets, count)?;
    let place = file_place(object, 0);
    put_cell(alloc, database, place, &[count], object, 0)?;
    Ok(())
}

/// Notes the octets that a file has now, if they may be written.
pub(crate) fn note_octets<S: Store>(
    alloc: Global,
    database: &mut S,
    store: &Objects,
    object: ObjectIdentifier,
) -> Result<(), KeepFault>
    requires { IsReadyIfClean (S.view database.old) }
    ensures quiet { CommitsNothing S.view S.faults S.recovers database.old database.new }
    ensures noted { OnOk result (GetsCells (S.view database.old)
        (octets_noted store.now (object_identifier_view object) (cells_of (S.view database.old).trees)) (S.view database.new)) }
    ensures refused { IfErr result (λ e. IsClean (S.view database.new) → IsUnput (MoreFaults (S.faults database.old) (S.faults database.new)) e) }
{
    let Some(file) = store.file(object) else {
        return Ok(());
    };
    if !file.writable {
        return Ok(());
    }
    put_file(alloc, database, object, &file.octets)?;
    Ok(())
}
