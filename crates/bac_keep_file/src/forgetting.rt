//! Forgetting what is kept.
ghost use Rattle.std.specs.Prelude.{◌≡◌, ◌≤◌, IfOk, OnOk, OnErr};
ghost use Rattle.sqlite_trees.specs.View.{IsClean, doubt};
ghost use Rattle.bac_keep_file.specs.Rows.{cells_of};
ghost use Rattle.bac_keep_file.specs.Steps.{GetsCells, IsReadyIfClean, NoMore, StaysCommitted};
ghost use Rattle.bac_keep_file.specs.Forgotten.{AreSelected, HasForgotten, MayForget, has_place, is_of, is_place, without};

use crate::cells::make_ready;
use crate::fault::keep_fault;
use crate::listing::kept_cells;
use crate::putting::TABLE;
use crate::selection::Selection;
use bac_keep::{Cell, KeepFault};
use sqlite_trees::store::Store;
use std::alloc::Global;

/// The selected cells that a database has committed, after what no commit has finished is rolled back.
fn selected_cells<S: Store>(
    alloc: Global,
    database: &mut S,
    selection: Selection,
) -> Result<Vec<Cell>, KeepFault>
    ensures clean { doubt (S.view database.old).is_clean ≤ doubt (S.view database.new).is_clean }
    ensures cells { IfOk result (λ cs. IsClean (S.view database.new) → AreSelected (is_of selection) ((S.view database.old).committed 0) cs.items) }
    ensures ready { OnOk result (IsReadyIfClean (S.view database.new)) }
    ensures trees { OnOk result (IsClean (S.view database.new) → (S.view database.new).trees ≡ (S.view database.old).committed) }
    ensures committed { StaysCommitted (S.view database.old) (S.view database.new) }
    ensures crash { NoMore S.recovers database.old database.new }
{
    make_ready(database)?;
    let mut cells = kept_cells(alloc, database)?;
    make_ready(database)?;
    cells.retain(|cell| selection.has(cell.place));
    Ok(cells)
}

/// Deletes the cell at a place, if there is one.
fn delete_cell<S: Store>(database: &mut S, place: u64) -> Result<(), KeepFault>
    requires { IsReadyIfClean (S.view database.old) }
    ensures clean { doubt (S.view database.old).is_clean ≤ doubt (S.view database.new).is_clean }
    ensures deleted { OnOk result (GetsCells (S.view database.old) (without (is_place place) (cells_of (S.view database.old).trees)) (S.view database.new)) }
    ensures crash { NoMore S.recovers database.old database.new }
{
    let Ok(key) = i64::try_from(place) else {
        return Err(KeepFault::BadRow);
    };
    database.delete(TABLE, key).map_err(keep_fault)?;
    Ok(())
}

/// Deletes the cells at the places of these.
fn delete_cells<S: Store>(database: &mut S, cells: &[Cell]) -> Result<(), KeepFault>
    requires { IsReadyIfClean (S.view database.old) }
    ensures clean { doubt (S.view database.old).is_clean ≤ doubt (S.view database.new).is_clean }
    ensures deleted { OnOk result (GetsCells (S.view database.old) (without (has_place cells.now) (cells_of (S.view database.old).trees)) (S.view database.new)) }
    ensures crash { NoMore S.recovers database.old database.new }
{
    for at in 0..cells.len() {
        delete_cell(database, cells[at].place)?;
    }
    Ok(())
}

/// Forgets what is selected of what a database keeps, in one commit, after what no commit has finished is rolled back. Returns the
/// cells that were forgotten, in ascending order of place. It returns none, and commits nothing, if nothing of the selection is kept.
///
/// A node that starts with the database afterwards has the values, and the octets of the file, that its document has.
///
/// Returns `Shut` or `NoTable` if the database can't be used; `BadRow` if its table has a row that no write makes; `NoMemory` if an
/// allocation fails; `Database` if the database fails. After an `Err` all is kept as before; if the commit itself failed, the next
/// start may also find that all of the selection is forgotten.
pub fn forget<S: Store>(
    alloc: Global,
    database: &mut S,
    selection: Selection,
) -> Result<Vec<Cell>, KeepFault>
    ensures clean { doubt (S.view database.old).is_clean ≤ doubt (S.view database.new).is_clean }
    ensures cells { IfOk result (λ cs. IsClean (S.view database.new) → AreSelected (is_of selection) ((S.view database.old).committed 0) cs.items) }
    ensures forgot { OnOk result (HasForgotten selection (S.view database.old) (S.view database.new)) }
    ensures ready { OnOk result (IsReadyIfClean (S.view database.new)) }
    ensures kept { OnErr result (StaysCommitted (S.view database.old) (S.view database.new)) }
    ensures crash { MayForget S.view S.recovers selection database.old database.new }
{
    let cells = selected_cells(alloc, database, selection)?;
    if cells.is_empty() {
        return Ok(cells);
    }
    delete_cells(database, &cells)?;
    database.commit().map_err(keep_fault)?;
    Ok(cells)
}
