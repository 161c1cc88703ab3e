//! A keeper whose document may change: [`FollowingKeeper`].
ghost use Rattle.std.specs.Prelude.{◌≡◌, true, IfErr, IfOk, OnOk};
ghost use Rattle.bac_store.specs.Views.{change_view};
ghost use Rattle.bac_value.specs.Views.{object_identifier_view};
ghost use Rattle.bac_keep.specs.Made.{IsWritable, IsWritableFile, IsWritableValue};
ghost use Rattle.bac_driver.specs.Rounds.{HasNoted, IsKept};

use crate::changing::DocumentNews;
use bac_keep::{KeepFault, Keeper, Made, NUMBERS};
use bac_keep_file::CellKeeper;
use bac_store::{Change, ChangeFault, Store as Objects};
use bac_value::ObjectIdentifier;
use sqlite_trees::store::Store;
use std::alloc::Global;

/// A keeper that goes over to the document as it is now.
pub(crate) trait FollowingKeeper: Keeper + Sized {
    /// Goes over to the document as it is now, and keeps what that changes. `store` is what the node has made of these changes.
    ///
    /// The fault says why; then nothing more is kept.
    fn over(self, alloc: Global, news: DocumentNews<'_>, store: &Objects) -> Result<Self, KeepFault>
        ensures kept { IfOk result (λ k. Self.IsHonest k → IsKept Self.IsOpen Self.kept Self.noted k store.now) }
        ensures honest { IfOk result (λ k. Self.IsHonest k → Self.IsHonest self) };
}

/// Whether the values of a property are kept: they may be written, and its number has a place.
fn is_kept_value(store: &Objects, object: ObjectIdentifier, property: u32) -> bool
    ensures { result ≡ true → IsWritableValue store.now (object_identifier_view object) property }
{
    match store.listed(object, property) {
        Some(listed) => listed.writable && u64::from(property) < NUMBERS,
        None => false,
    }
}

/// Whether a file may be written.
fn is_kept_file(store: &Objects, object: ObjectIdentifier) -> bool
    ensures { result ≡ true → IsWritableFile store.now (object_identifier_view object) }
{
    match store.file(object) {
        Some(file) => file.writable,
        None => false,
    }
}

/// Whether a change is kept. What may not be written is as the document says at the next start.
fn is_kept(store: &Objects, change: &Change) -> bool
    ensures { result ≡ true → IsWritable (change_view change.now) store.now }
{
    match change {
        Change::Value {
            object,
            property,
            octets: _,
        } => is_kept_value(store, *object, *property),
        Change::File { object, octets: _ } => is_kept_file(store, *object),
    }
}

/// Why a change cannot be kept.
fn fault_of(change: &Change, fault: ChangeFault) -> KeepFault {
    match (change, fault) {
        (_, ChangeFault::NoMemory) => KeepFault::NoMemory,
        (
            Change::Value {
                object,
                property,
                ..
            },
            fault,
        ) => KeepFault::BadValues {
            object: *object,
            property: *property,
            fault,
        },
        (Change::File { object, .. }, fault) => KeepFault::BadOctets {
            object: *object,
            fault,
        },
    }
}

/// A keeper notes a change, if it is kept, and the store that it has changes so.
fn note_change<K: Keeper>(
    alloc: Global,
    change: &Change,
    store: &mut Objects,
    keeper: &mut K,
) -> Result<(), KeepFault>
    requires { K.IsHonest keeper.old → HasNoted K.IsOpen K.noted keeper.old store.old }
    ensures noted { OnOk result (K.IsHonest keeper.new → HasNoted K.IsOpen K.noted keeper.new store.new) }
    ensures honest { K.IsHonest keeper.new → K.IsHonest keeper.old }
{
    if !is_kept(store, change) {
        return Ok(());
    }
    if let Err(fault) = store.change(alloc, change) {
        return Err(fault_of(change, fault));
    }
    keeper.note(&Made::Changed(change), store)
}

/// A keeper notes changes, those that are kept, and the store that it has changes so.
fn note_all<K: Keeper>(
    alloc: Global,
    changes: &[Change],
    store: &mut Objects,
    keeper: &mut K,
) -> Result<(), KeepFault>
    requires { K.IsHonest keeper.old → HasNoted K.IsOpen K.noted keeper.old store.old }
    ensures noted { OnOk result (K.IsHonest keeper.new → HasNoted K.IsOpen K.noted keeper.new store.new) }
    ensures honest { OnOk result (K.IsHonest keeper.new → K.IsHonest keeper.old) }
{
    for change in changes {
        note_change(alloc, change, store, keeper)?;
    }
    Ok(())
}

/// A keeper that has a store keeps changes of it. They have to make of it the store of the node: `BadRow` where they do not.
fn keep_changes<K: Keeper>(
    alloc: Global,
    changes: &[Change],
    store: &Objects,
    kept: &mut Objects,
    keeper: &mut K,
) -> Result<(), KeepFault>
    requires { K.IsHonest keeper.old → HasNoted K.IsOpen K.noted keeper.old kept.old }
    ensures kept { OnOk result (K.IsHonest keeper.new → IsKept K.IsOpen K.kept K.noted keeper.new store.now) }
    ensures honest { OnOk result (K.IsHonest keeper.new → K.IsHonest keeper.old) }
{
    note_all(alloc, changes, kept, keeper)?;
    keeper.keep()?;
    if kept.same(store) {
        Ok(())
    } else {
        Err(KeepFault::BadRow)
    }
}

/// The same of a keeper with its store.
fn with_changes<K: Keeper>(
    alloc: Global,
    opened: (K, Objects),
    changes: &[Change],
    store: &Objects,
) -> Result<K, KeepFault>
    requires { K.IsHonest opened.0 → HasNoted K.IsOpen K.noted opened.0 opened.1 }
    ensures kept { IfOk result (λ k. K.IsHonest k → IsKept K.IsOpen K.kept K.noted k store.now) }
    ensures honest { IfOk result (λ k. K.IsHonest k → K.IsHonest opened.0) }
{
    let (mut keeper, mut kept) = opened;
    match keep_changes(alloc, changes, store, &mut kept, &mut keeper) {
        Ok(()) => {
            drop(kept);
            Ok(keeper)
        }
        Err(fault) => {
            drop(kept);
            Err(fault)
        }
    }
}

impl<S: Store + Drop> FollowingKeeper for CellKeeper<S> {
    fn over(
        self,
        alloc: Global,
        news: DocumentNews<'_>,
        store: &Objects,
    ) -> Result<CellKeeper<S>, KeepFault> {
        let document = news.document.copy(alloc)?;
        let database = self.into_database();
        match CellKeeper::open(alloc, document, database) {
            Ok(opened) => with_changes(alloc, opened, news.changes, store),
            Err((fault, _)) => Err(fault),
        }
    }
}
