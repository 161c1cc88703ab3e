//! What is forgotten is not there at the next start, which has the document's own, and the rest is still kept. That holds also where the power is cut
//! at every third call of the disk.
use super::cuts::{found, options};
use super::playing::{Asked, Round, keep_rounds, perform_rounds};
use bac_keep::KeepFault;
use bac_keep_file::{CellKeeper, Loss, Selection, forget, open_files};
use bac_rows::holds;
use bac_store::{Store as Objects, house};
use bac_value::ObjectIdentifier;
use sqlite_disk::{Crash, Disk, Files, Fuse, Memory};
use sqlite_trees::store::Store;
use std::alloc::Global;
use std::test::Fail;

/// WriteProperty of the present-value of analog-value 1.
const VALUE: Round = Round {
    requests: &[Asked {
        choice: 15,
        data: b"\x0C\x00\x80\x00\x01\x19\x55\x3E\x44\x41\xAC\x00\x00\x3F",
    }],
};

/// AtomicWriteFile of file 1.
const OCTETS: Round = Round {
    requests: &[Asked {
        choice: 7,
        data: b"\xC4\x02\x80\x00\x01\x0E\x31\x00\x62\x48\x69\x0F",
    }],
};

/// All rounds.
const ALL: &[Round] = &[VALUE, OCTETS];

/// The present-value of analog-value 1.
const PROPERTY: Selection = Selection {
    object: ObjectIdentifier {
        kind: 2,
        instance: 1,
    },
    property: Some(85),
};

/// All of file 1.
const FILE: Selection = Selection {
    object: ObjectIdentifier {
        kind: 10,
        instance: 1,
    },
    property: None,
};

/// A database that keeps all rounds over the house.
fn kept<S: Store + Drop>(alloc: Global, database: S) -> Result<S, KeepFault> {
    let (mut keeper, mut store) = match CellKeeper::open(alloc, house(alloc)?, database) {
        Ok(opened) => opened,
        Err((fault, _)) => return Err(fault),
    };
    if keep_rounds(alloc, &mut keeper, &mut store, ALL) != ALL.len() {
        return Err(KeepFault::Shut);
    }
    Ok(keeper.into_database())
}

/// Whether a store is the house after these rounds.
fn is_after(alloc: Global, store: &Objects, rounds: &[Round]) -> Result<bool, KeepFault> {
    let mut other = house(alloc)?;
    perform_rounds(alloc, &mut other, rounds)?;
    Ok(store.same(&other))
}

/// Whether a start over these files after a power cut finds the house after the write of the file alone, or, where nothing was forgotten, after all rounds.
fn starts_again(
    alloc: Global,
    mut files: Files<Fuse<Memory>>,
    is_forgotten: bool,
) -> Result<bool, KeepFault> {
    files.log.crash();
    files.db.crash();
    if !files.log.may_be_used() || !files.db.may_be_used() {
        return Ok(false);
    }
    let Ok((database, _)) = open_files(alloc, files, options(), Loss::Refused) else {
        return Ok(false);
    };
    let store = found(alloc, database)?;
    if is_after(alloc, &store, &[OCTETS])? {
        return Ok(true);
    }
    Ok(!is_forgotten && is_after(alloc, &store, ALL)?)
}

/// Whether that holds where the log fails after so many calls, and the database file too.
fn survives(alloc: Global, log: u64, db: u64) -> Result<bool, KeepFault> {
    let files = Files {
        log: Fuse::new(Memory::new(alloc), log),
        db: Fuse::new(Memory::new(alloc), db),
    };
    if !files.log.may_be_used() || !files.db.may_be_used() {
        return Ok(false);
    }
    let Ok((database, _)) = open_files(alloc, files, options(), Loss::Refused) else {
        return Ok(true);
    };
    let Ok(mut database) = kept(alloc, database) else {
        return Ok(true);
    };
    let is_forgotten = forget(alloc, &mut database, PROPERTY).is_ok();
    starts_again(alloc, database.close(), is_forgotten)
}

#[test]
fn survives_cuts_at_calls_of_the_log(rt: HostRuntime) -> Result<(), Fail> {
    for calls in 0..30u64 {
        let survived = survives(rt.alloc(), calls * 3, u64::MAX);
        holds(survived == Ok(true), "the log")?;
    }
    Ok(())
}

#[test]
fn survives_cuts_at_calls_of_the_database(rt: HostRuntime) -> Result<(), Fail> {
    for calls in 0..15u64 {
        let survived = survives(rt.alloc(), u64::MAX, calls * 3);
        holds(survived == Ok(true), "the database file")?;
    }
    Ok(())
}

/// Whether a new database forgets so many cells of a selection, and then once more none, and the next start finds the house after the other round.
fn forgets_in<S: Store + Drop>(
    alloc: Global,
    database: S,
    selection: Selection,
    cells: usize,
    left: Round,
) -> Result<bool, KeepFault> {
    let mut database = kept(alloc, database)?;
    let forgotten = forget(alloc, &mut database, selection)?;
    let again = forget(alloc, &mut database, selection)?;
    let store = found(alloc, database)?;
    Ok(forgotten.len() == cells && again.is_empty() && is_after(alloc, &store, &[left])?)
}

/// Whether that holds of a database in memory.
fn forgets(
    alloc: Global,
    selection: Selection,
    cells: usize,
    left: Round,
) -> Result<bool, KeepFault> {
    let files = Files {
        log: Memory::new(alloc),
        db: Memory::new(alloc),
    };
    if !files.log.may_be_used() || !files.db.may_be_used() {
        return Ok(false);
    }
    let Ok((database, _)) = open_files(alloc, files, options(), Loss::Refused) else {
        return Ok(false);
    };
    forgets_in(alloc, database, selection, cells, left)
}

#[test]
fn the_next_start_has_the_own_value_of_the_document(rt: HostRuntime) -> Result<(), Fail> {
    let forgets = forgets(rt.alloc(), PROPERTY, 1, OCTETS);
    holds(forgets == Ok(true), "a property")
}

#[test]
fn the_next_start_has_the_own_octets_of_the_document(rt: HostRuntime) -> Result<(), Fail> {
    let forgets = forgets(rt.alloc(), FILE, 2, VALUE);
    holds(forgets == Ok(true), "a file")
}
