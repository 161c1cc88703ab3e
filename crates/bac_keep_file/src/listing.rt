//! What a database keeps, for people.
ghost use Rattle.std.specs.Prelude.{◌≡◌, ◌≤◌, IsTrue, IfOk, OnOk};
ghost use Rattle.sqlite_trees.specs.View.{IsClean, doubt};
ghost use Rattle.bac_keep_file.specs.Rows.{AreCells};
ghost use Rattle.bac_keep_file.specs.Steps.{IsReady, NoMore};

use crate::cells::make_ready;
use crate::reading::read_cells;
use bac_keep::{Cell, KeepFault};
use sqlite_trees::store::Store;
use std::alloc::Global;

/// All that a database keeps, in ascending order of place, after what no commit has finished is rolled back.
///
/// Returns `Shut` or `NoTable` if the database can't be used; `BadRow` if its table has a row that no write makes; `NoMemory` if an allocation fails.
pub fn kept_cells<S: Store>(alloc: Global, database: &mut S) -> Result<Vec<Cell>, KeepFault>
    ensures clean { doubt (S.view database.old).is_clean ≤ doubt (S.view database.new).is_clean }
    ensures cells { IfOk result (λ cs. IsClean (S.view database.new) → AreCells ((S.view database.old).committed 0) cs.items) }
    ensures ready { OnOk result (IsClean (S.view database.new) → IsReady (S.view database.new)) }
    ensures committed { IsClean (S.view database.new) → IsTrue (S.view database.new).is_open
        → (S.view database.new).committed ≡ (S.view database.old).committed }
    ensures crash { NoMore S.recovers database.old database.new }
{
    make_ready(database)?;
    let cells = read_cells(alloc, database)?;
    Ok(cells)
}
