//! The power is cut at every third call of the disk. The next start finds all rounds that were kept, and nothing of a later one, or all of the next.
use super::playing::{Asked, Round, keep_rounds, perform_rounds};
use bac_keep::KeepFault;
use bac_keep_file::{CellKeeper, Loss, open_files};
use bac_rows::holds;
use bac_store::{Store as Objects, house};
use sqlite_disk::{Crash, Disk, Files, Fuse, Memory};
use sqlite_pager::Options;
use sqlite_trees::store::Store;
use std::alloc::Global;
use std::test::Fail;

/// AtomicReadFile, AtomicWriteFile, ReadProperty and WriteProperty; the last round writes a property and a file.
const ROUNDS: &[Round] = &[
    Round {
        requests: &[Asked {
            choice: 15,
            data: b"\x0C\x00\x80\x00\x01\x19\x55\x3E\x44\x41\xAC\x00\x00\x3F",
        }],
    },
    Round {
        requests: &[
            Asked {
                choice: 12,
                data: b"\x0C\x00\x80\x00\x01\x19\x55",
            },
            Asked {
                choice: 6,
                data: b"\xC4\x02\x80\x00\x01\x0E\x31\x00\x21\x02\x0F",
            },
        ],
    },
    Round {
        requests: &[Asked {
            choice: 7,
            data: b"\xC4\x02\x80\x00\x01\x0E\x31\xFF\x62\x48\x69\x0F",
        }],
    },
    Round {
        requests: &[
            Asked {
                choice: 15,
                data: b"\x0C\x01\x40\x00\x01\x19\x55\x3E\x91\x01\x3F",
            },
            Asked {
                choice: 7,
                data: b"\xC4\x02\x80\x00\x01\x0E\x31\x00\x61\x41\x0F",
            },
        ],
    },
];

/// The options of a database whose log is copied after each fourth page. It keeps few pages in memory, since each start clears the room for all of them.
pub(super) fn options() -> Options {
    let mut options = Options::new(7);
    options.checkpoint_frames = 4;
    options.cache_pages = 50;
    options
}

/// Takes the rounds over a new database. Returns how many were kept, and the database.
fn play<S: Store + Drop>(alloc: Global, database: S) -> Result<(usize, S), KeepFault> {
    let (mut keeper, mut store) = match CellKeeper::open(alloc, house(alloc)?, database) {
        Ok(opened) => opened,
        Err((fault, _)) => return Err(fault),
    };
    let kept = keep_rounds(alloc, &mut keeper, &mut store, ROUNDS);
    Ok((kept, keeper.into_database()))
}

/// The store that the next start finds.
pub(super) fn found<S: Store + Drop>(alloc: Global, database: S) -> Result<Objects, KeepFault> {
    let (_keeper, store) = match CellKeeper::open(alloc, house(alloc)?, database) {
        Ok(opened) => opened,
        Err((fault, _)) => return Err(fault),
    };
    Ok(store)
}

/// Whether a store is the house after so many rounds.
fn is_after(alloc: Global, store: &Objects, rounds: usize) -> Result<bool, KeepFault> {
    let mut other = house(alloc)?;
    perform_rounds(alloc, &mut other, &ROUNDS[..rounds.min(ROUNDS.len())])?;
    Ok(store.same(&other))
}

/// Whether a start over these files after a power cut finds the house after so many rounds, or after one more.
fn starts_again(
    alloc: Global,
    mut files: Files<Fuse<Memory>>,
    kept: usize,
) -> Result<bool, KeepFault> {
    files.log.crash();
    files.db.crash();
    if !files.log.may_be_used() || !files.db.may_be_used() {
        return Ok(false);
    }
    let Ok((database, _)) = open_files(alloc, files, options(), Loss::Refused) else {
        return Ok(false);
    };
    let store = found(alloc, database)?;
    Ok(is_after(alloc, &store, kept)? || is_after(alloc, &store, kept.saturating_add(1))?)
}

/// Whether that holds where the log fails after so many calls, and the database file too.
fn survives(alloc: Global, log: u64, db: u64) -> Result<bool, KeepFault> {
    let files = Files {
        log: Fuse::new(Memory::new(alloc), log),
        db: Fuse::new(Memory::new(alloc), db),
    };
    if !files.log.may_be_used() || !files.db.may_be_used() {
        return Ok(false);
    }
    let Ok((database, _)) = open_files(alloc, files, options(), Loss::Refused) else {
        return Ok(true);
    };
    match play(alloc, database) {
        Ok((kept, database)) => starts_again(alloc, database.close(), kept),
        Err(_) => Ok(true),
    }
}

#[test]
fn survives_cuts_at_calls_of_the_log(rt: HostRuntime) -> Result<(), Fail> {
    for calls in 0..40u64 {
        let survived = survives(rt.alloc(), calls * 3, u64::MAX);
        holds(survived == Ok(true), "the log")?;
    }
    Ok(())
}

#[test]
fn survives_cuts_at_calls_of_the_database(rt: HostRuntime) -> Result<(), Fail> {
    for calls in 0..20u64 {
        let survived = survives(rt.alloc(), u64::MAX, calls * 3);
        holds(survived == Ok(true), "the database file")?;
    }
    Ok(())
}
