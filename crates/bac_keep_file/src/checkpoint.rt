//! Databases whose file can be made whole: it has all that is committed, and the log beside it has nothing.
ghost use Rattle.std.specs.Prelude.{◌≡◌, ◌≤◌, IsTrue, OnOk};
ghost use Rattle.sqlite_trees.specs.View.{IsClean, doubt};
ghost use Rattle.bac_keep_file.specs.Steps.{NoMore};

use crate::fault::keep_fault;
use bac_keep::KeepFault;
use sqlite::{Alter, FileStore};
use sqlite_disk::Disk;
use sqlite_trees::memory::MemStore;

/// A database whose file can be made whole.
pub trait Checkpoint: Alter {
    /// Makes the file whole: a copy of it alone has all that is committed. What no commit has finished must be rolled back before.
    ///
    /// Returns `Database` if the database fails. It has the same rows and commits as before, at Ok and Err alike.
    fn make_whole(&mut self) -> Result<(), KeepFault>
        ensures clean { doubt (Self.Store.view self.old).is_clean ≤ doubt (Self.Store.view self.new).is_clean }
        ensures open { OnOk result (IsClean (Self.Store.view self.new) → IsTrue (Self.Store.view self.old).is_open → IsTrue (Self.Store.view self.new).is_open) }
        ensures same { IsClean (Self.Store.view self.new) → IsTrue (Self.Store.view self.new).is_open → Self.Store.view self.new ≡ Self.Store.view self.old }
        ensures crash { NoMore Self.Store.recovers self.old self.new };
}

impl<D: Disk> Checkpoint for FileStore<D> {
    fn make_whole(&mut self) -> Result<(), KeepFault> {
        self.checkpoint().map_err(keep_fault)
    }
}

/// One in memory has no file.
impl Checkpoint for MemStore {
    fn make_whole(&mut self) -> Result<(), KeepFault> {
        Ok(())
    }
}
