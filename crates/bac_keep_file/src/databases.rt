//! Databases that keep the stores of servers.
ghost use Rattle.std.specs.Prelude.{◌≤◌, ℕ, Bool, List, IfOk};
ghost use Rattle.sqlite_trees.specs.View.{doubt};
ghost use Rattle.bac_keep_file.specs.Steps.{NoMore};

use crate::{Loss, OpenFault};
use bac_keep::KeepFault;
use sqlite_trees::store::Store;
use std::io;

/// The databases of a machine. Programs bring files of SQLite; tests bring their own.
pub trait Databases {
    type Database: Store + Drop;

    ghost is_database: { (path : List ℕ) → (is_new : Bool) → Self.Database → Type 0 };

    /// Opens the database of the file at a path, which is made if it is missing. Returns also whether it is new: it had no tables. While it is open, no other
    /// process can open it.
    ///
    /// The faults are those of `bac_keep_file::open`.
    fn open_database(&self, path: &str, loss: Loss) -> Result<(Self::Database, bool), OpenFault>
        ensures { IfOk result (λ r. Self.is_database path.now r.1 r.0) };

    /// Makes the file of a database whole, which is dropped next: a copy of the file alone then has all that is kept. The fault is that of the database.
    fn close_database(&self, database: &mut Self::Database) -> Result<(), KeepFault>
        ensures clean { doubt (Self.Database.view database.old).is_clean ≤ doubt (Self.Database.view database.new).is_clean }
        ensures crash { NoMore Self.Database.recovers database.old database.new };

    /// Why the system refuses to open the file at a path for reading and writing, or to make it. None if it does neither, or tells no reason.
    fn refusal_of_database(&self, _path: &str) -> Option<io::Error> {
        None
    }
}
