//! Reading the cells of a database.
ghost use Rattle.std.specs.Prelude.{◌≡◌, ◌<◌, ◌^◌, ℕ, pos, None, IfErr, IfOk, IfSome};
ghost use Rattle.sqlite_value.specs.Order.{column};
ghost use Rattle.sqlite_value.specs.declared.value.Value.TheVariants.{Int};
ghost use Rattle.sqlite_disk.specs.Disk.{MoreFaults};
ghost use Rattle.sqlite_trees.specs.View.{IsClean};
ghost use Rattle.bac_keep_file.specs.Refused.{IsNoCell, IsUnreadable};
ghost use Rattle.bac_keep_file.specs.Rows.{IsRowOf};
ghost use Rattle.bac_keep_file.specs.Steps.{CommitsNothing, HasRead, IsReadyIfClean};

use crate::fault::keep_fault;
use crate::putting::{OCTETS, TABLE};
use bac_keep::{Cell, KeepFault};
use sqlite_trees::store::{Direction, Store};
use sqlite_value::row::Row;
use sqlite_value::value::ValueRef;
use std::alloc::{AllocError, Global};

/// The place of a row.
fn place_of(row: &Row) -> Option<u64>
    ensures is { IfSome result (λ p. column row.now 0 ≡ Int (pos p)) }
    ensures none { result ≡ None → (p : ℕ) → ¬ (column row.now 0 ≡ Int (pos p)) }
{
    match row.get(0) {
        ValueRef::Int(place) => u64::try_from(place).ok(),
        _ => None,
    }
}

/// The cell of a row, if it has one.
fn cell_of(alloc: Global, row: &Row) -> Result<Option<Cell>, AllocError>
    ensures is { IfOk result (λ c. IfSome c (λ c. IsRowOf c.place c.octets.items row.now)) }
    ensures none { IfOk result (λ c. c ≡ None → IsNoCell row.now) }
{
    let Some(place) = place_of(row) else {
        return Ok(None);
    };
    let ValueRef::Blob(octets) = row.get(OCTETS) else {
        return Ok(None);
    };
    let octets = Vec::from_slice(alloc, octets)?;
    Ok(Some(Cell { place, octets }))
}

/// The cells of the table, in ascending order of place.
pub(crate) fn read_cells<S: Store>(alloc: Global, database: &mut S) -> Result<Vec<Cell>, KeepFault>
    requires { IsReadyIfClean (S.view database.old) }
    ensures quiet { CommitsNothing S.view S.faults S.recovers database.old database.new }
    ensures read { IfOk result (λ cs. IsClean (S.view database.new) → HasRead (S.view database.old) cs.items (S.view database.new)) }
    ensures refused { IfErr result (λ e. IsClean (S.view database.new)
        → IsUnreadable ((S.view database.old).trees 0) (MoreFaults (S.faults database.old) (S.faults database.new)) e) }
{
    let mut cells = Vec::new(alloc);
    let mut row = Row::new(alloc);
    database
        .seek(0, TABLE, &Row::new(alloc), Direction::Forward)
        .map_err(keep_fault)?;
    for _ in 0..u64::MAX {
        if !database.next(0, &mut row).map_err(keep_fault)? {
            return Ok(cells);
        }
        let Some(cell) = cell_of(alloc, &row)? else {
            return Err(KeepFault::BadRow);
        };
        cells.push(cell)?;
    }
    // No memory holds so many cells.
    Err(KeepFault::NoMemory)
}
