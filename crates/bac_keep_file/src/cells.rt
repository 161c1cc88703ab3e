//! A keeper over the table of a database.
ghost use Rattle.std.specs.Prelude.{◌≡◌, IfErr, IfOk, OnOk};
ghost use Rattle.sqlite_disk.specs.Disk.{MoreFaults};
ghost use Rattle.sqlite_trees.specs.View.{IsClean};
ghost use Rattle.bac_store.specs.Stores.{Store as Overlaid};
ghost use Rattle.bac_keep.specs.Causes.{IsUnnoted};
ghost use Rattle.bac_keep.specs.Made.{made_view};
ghost use Rattle.bac_keep.specs.Overlay.{overlay};
ghost use Rattle.bac_keep_file.specs.Refused.{IsUnready, RefusesStart};
ghost use Rattle.bac_keep_file.specs.Rows.{cells_of};
ghost use Rattle.bac_keep_file.specs.Settling.{MayFind, settles};
ghost use Rattle.bac_keep_file.specs.Steps.{CommitsNothing, FindsStore, HasNoted, IsMadeOver, IsReady, IsReadyIfClean, StaysCommitted};

use crate::fault::keep_fault;
use crate::noting::{note_octets, note_values};
use crate::putting::TABLE;
use crate::reading::read_cells;
use bac_keep::{KeepFault, Keeper, Made, restored};
use bac_service::AnyRequest;
use bac_store::{Change, FILE_SIZE, Store as Objects, stores_are_in_order};
use sqlite_trees::store::{Shape, Store};
use std::alloc::Global;

/// A keeper over the table of a database: its cells lie over the store of a document.
#[derive(Drop)]
pub struct CellKeeper<S: Store> {
    pub(crate) alloc: Global,
    pub(crate) database: S,
    pub(crate) document: Objects,
}

/// Makes a database ready: what no commit has finished is rolled back.
pub(crate) fn make_ready<S: Store>(database: &mut S) -> Result<(), KeepFault>
    ensures quiet { CommitsNothing S.view S.faults S.recovers database.old database.new }
    ensures ready { OnOk result (IsReadyIfClean (S.view database.new)) }
    ensures trees { OnOk result (IsClean (S.view database.new) → (S.view database.new).trees ≡ (S.view database.old).committed) }
    ensures committed { StaysCommitted (S.view database.old) (S.view database.new) }
    ensures refused { IfErr result (λ e. IsClean (S.view database.new) → IsUnready (S.view database.old) (S.view database.new) e) }
{
    database.rollback();
    if database.is_broken() {
        return Err(KeepFault::Shut);
    }
    if database.shape(TABLE) != Shape::Table || database.reals(TABLE) != 0 {
        return Err(KeepFault::NoTable);
    }
    Ok(())
}

/// Notes what a node has made of its store.
fn note_made<S: Store>(
    alloc: Global,
    database: &mut S,
    document: &Objects,
    made: &Made<'_>,
    store: &Objects,
) -> Result<(), KeepFault>
    requires ready { IsReadyIfClean (S.view database.old) }
    requires made { IsClean (S.view database.old) → IsMadeOver document.now (made_view made.now) (S.view database.old) store.now }
    ensures quiet { CommitsNothing S.view S.faults S.recovers database.old database.new }
    ensures noted { OnOk result (IsClean (S.view database.new) → HasNoted document.now store.now (S.view database.old) (S.view database.new)) }
    ensures refused { IfErr result (λ e. IsClean (S.view database.new)
        → IsUnnoted (made_view made.now) (MoreFaults (S.faults database.old) (S.faults database.new)) e) }
{
    // so that an identifier finds its object in both
    stores_are_in_order(document);
    stores_are_in_order(store);
    match *made {
        Made::Performed(AnyRequest::WriteProperty(write)) => {
            let reference = write.reference;
            if reference.property == FILE_SIZE {
                // the file was cut, or made longer
                note_octets(alloc, database, store, reference.object)?;
            } else {
                note_values(alloc, database, store, reference.object, reference.property)?;
            }
            Ok(())
        }
        Made::Performed(AnyRequest::WriteFile(write)) => {
            note_octets(alloc, database, store, write.file)?;
            Ok(())
        }
        // reads change nothing
        Made::Performed(_) => Ok(()),
        Made::Changed(
            Change::Value {
                object,
                property,
                octets: _,
            },
        ) => {
            note_values(alloc, database, store, *object, *property)?;
            Ok(())
        }
        Made::Changed(Change::File { object, octets: _ }) => {
            note_octets(alloc, database, store, *object)?;
            Ok(())
        }
    }
}

/// The store that a document and the committed cells of a database make, after what no commit has finished is rolled back.
fn found_store<S: Store>(
    alloc: Global,
    database: &mut S,
    document: &Objects,
) -> Result<Objects, KeepFault>
    ensures quiet { CommitsNothing S.view S.faults S.recovers database.old database.new }
    ensures found { IfOk result (λ s. FindsStore document.now (S.view database.old) s (S.view database.new)) }
    ensures committed { StaysCommitted (S.view database.old) (S.view database.new) }
    ensures refused { IfErr result (RefusesStart S.view S.faults document.now database.old database.new) }
{
    make_ready(database)?;
    let cells = read_cells(alloc, database)?;
    let store = restored(alloc, document, &cells)?;
    Ok(store)
}

impl<S: Store + Drop> CellKeeper<S> {
    /// Opens the cells of a database over the store of a document, after what no commit has finished is rolled back. Returns the
    /// keeper and the store that they make, which a node starts with.
    ///
    /// Returns `Shut` if the database can't be used after an earlier failure; `NoTable` if its first table has no cells, or has a column of REAL values; `BadRow` if its table has a row
    /// that no write makes; `BadValues` or `BadOctets` if the document has a property or a file that can't have what is kept; `Database` if the
    /// database fails; `NoMemory` if an allocation fails. With the fault it returns the database: what it has committed is unchanged.
    pub fn open(
        alloc: Global,
        document: Objects,
        mut database: S,
    ) -> Result<(CellKeeper<S>, Objects), (KeepFault, S)>
        ensures quiet { IfOk result (λ r. CommitsNothing S.view S.faults S.recovers database r.0.database) }
        ensures document { IfOk result (λ r. r.0.document ≡ document) }
        ensures found { IfOk result (λ r. FindsStore document (S.view database) r.1 (S.view r.0.database)) }
        ensures refused { IfErr result (λ e. RefusesStart S.view S.faults document database e.1 e.0) }
        ensures refused_quiet { IfErr result (λ e. CommitsNothing S.view S.faults S.recovers database e.1) }
        ensures refused_kept { IfErr result (λ e. StaysCommitted (S.view database) (S.view e.1)) }
    {
        match found_store(alloc, &mut database, &document) {
            Ok(store) => {
                let keeper = CellKeeper {
                    alloc,
                    database,
                    document,
                };
                Ok((keeper, store))
            }
            Err(fault) => Err((fault, database)),
        }
    }

    /// The database, as it is.
    pub fn into_database(self) -> S
        ensures { result ≡ self.database }
    {
        let CellKeeper {
            alloc: _,
            database,
            document: _,
        } = self;
        database
    }
}

impl<S: Store + Drop> Keeper for CellKeeper<S> {
    ghost IsHonest = { λ k. IsClean (S.view k.database) };

    ghost IsOpen = { λ k. IsReady (S.view k.database) };

    ghost kept = { λ k. overlay (cells_of (S.view k.database).committed) k.document };

    ghost noted = { λ k. overlay (cells_of (S.view k.database).trees) k.document };

    ghost failed = { λ k l. MoreFaults (S.faults k.database) (S.faults l.database) };

    ghost may_find = { λ k. MayFind S.recovers k.database k.document };

    ghost Base = { Overlaid };

    ghost base = { λ k. k.document };

    fn note(&mut self, made: &Made<'_>, store: &Objects) -> Result<(), KeepFault> {
        note_made(self.alloc, &mut self.database, &self.document, made, store)?;
        Ok(())
    }

    fn keep(&mut self) -> Result<(), KeepFault> {
        self.database.commit().map_err(keep_fault)?;
        Ok(())
    }

    ghost settled = { λ k s honest ready may. settles S.view S.recovers S.settled k.database k.document s ready may };
}
