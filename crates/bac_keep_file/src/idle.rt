//! What is kept and has no effect, since the document has no place for it.
ghost use Rattle.std.specs.Prelude.{◌≡◌, IfOk, OnOk};
ghost use Rattle.bac_value.specs.Views.{object_identifier_view};
ghost use Rattle.bac_store.specs.Writes.{file_at, listed_at};
ghost use Rattle.bac_keep.specs.Restored.{is_writable_file, is_writable_value};
ghost use Rattle.bac_keep_file.specs.Idle.{AreIdle, TellsIdle, TellsOne, is_told as is_told_in};
ghost use Rattle.bac_keep_file.specs.Steps.{CommitsNothing, IsReadyIfClean, SameCommitted, SameTrees};

use crate::cells::CellKeeper;
use crate::reading::read_cells;
use bac_keep::{Cell, KeepFault, Part};
use bac_store::Store as Objects;
use bac_value::ObjectIdentifier;
use sqlite_trees::store::Store;
use std::alloc::Global;

/// Whether a document has a property, and it may be written.
fn has_property(document: &Objects, object: ObjectIdentifier, property: u32) -> bool
    ensures { result ≡ is_writable_value (listed_at document.now (object_identifier_view object) property) }
{
    match document.listed(object, property) {
        Some(listed) => listed.writable,
        None => false,
    }
}

/// Whether a document has a file, and it may be written.
fn has_file(document: &Objects, object: ObjectIdentifier) -> bool
    ensures { result ≡ is_writable_file (file_at document.now (object_identifier_view object)) }
{
    match document.file(object) {
        Some(file) => file.writable,
        None => false,
    }
}

/// Whether a part has no place in a document; of a file only the number of its chunks is told.
fn is_told(document: &Objects, part: Part) -> bool
    ensures { result ≡ is_told_in document.now part }
{
    match part {
        Part::Values { object, property } => !has_property(document, object, property),
        Part::Count { object } => !has_file(document, object),
        Part::Chunk { .. } => false,
    }
}

/// Adds the part of a cell, if it is told.
fn add_idle(document: &Objects, cell: &Cell, idle: &mut Vec<Part>) -> Result<(), KeepFault>
    ensures { OnOk result (TellsOne document.now cell.now idle.old.items idle.new.items) }
{
    let Some(part) = cell.part() else {
        return Err(KeepFault::BadRow);
    };
    if is_told(document, part) {
        idle.push(part)?;
    }
    Ok(())
}

/// The parts without a place in a document; of a file only the number of its chunks.
fn idle_among(alloc: Global, document: &Objects, cells: &[Cell]) -> Result<Vec<Part>, KeepFault>
    ensures { IfOk result (λ v. AreIdle document.now cells.now v.items) }
{
    let mut idle = Vec::new(alloc);
    for at in 0..cells.len() {
        add_idle(document, &cells[at], &mut idle)?;
    }
    Ok(idle)
}

impl<S: Store + Drop> CellKeeper<S> {
    /// What is kept and has no effect, in ascending order of place. These are values of a property, and octets of a file, that the document does not
    /// have, or that may not be written in it. They stay, and count again once a document has a place for them.
    ///
    /// Returns `Database` if the database fails; `BadRow` if its table has a row that no write makes; `NoMemory` if an allocation fails. The keeper keeps and has noted what it did before.
    pub fn idle(&mut self) -> Result<Vec<Part>, KeepFault>
        requires { IsReadyIfClean (S.view self.old.database) }
        ensures quiet { CommitsNothing S.view S.faults S.recovers self.old.database self.new.database }
        ensures open { OnOk result (IsReadyIfClean (S.view self.new.database)) }
        ensures document { self.new.document ≡ self.old.document }
        ensures noted { OnOk result (SameTrees (S.view self.old.database) (S.view self.new.database)) }
        ensures kept { OnOk result (SameCommitted (S.view self.old.database) (S.view self.new.database)) }
        ensures idle { IfOk result (λ v. TellsIdle self.old.document (S.view self.old.database) (S.view self.new.database) v.items) }
    {
        let cells = read_cells(self.alloc, &mut self.database)?;
        let idle = idle_among(self.alloc, &self.document, &cells)?;
        Ok(idle)
    }
}
