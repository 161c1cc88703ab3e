//! Opening a file.
ghost use Rattle.std.specs.Prelude.{◌≡◌, ◌^◌, true, IsTrue, IfOk};
ghost use Rattle.sqlite_trees.specs.View.{IsClean};
ghost use Rattle.sqlite_store.specs.FileStore.{view};
ghost use Rattle.sqlite.specs.Files.{AreFound, HoldsDatabase, image_of};
ghost use Rattle.bac_keep_file.specs.Made.{HasEmptyTable, HasTable, MakesTable};

use crate::fault::OpenFault;
use crate::table::{marked, store_of, whole};
use crate::traces::Traces;
use crate::whole::{Loss, check_files};
use sqlite::{Connection, FileFrom, FileStore, Options, Unknown};
use sqlite_disk::{Disk, Files};
use sqlite_std_file::OpenError;
use std::alloc::Global;
use std::hash::{BuildHasher, RandomState};

/// A database over the files at a path, whatever they hold.
pub type KeptFile = FileStore<FileFrom<Unknown>>;

/// How long the log grows before it is copied into the database file, in pages. A bit that flips in the log drops the commits from
/// there on without an error, so the log is short.
const CHECKPOINT_FRAMES: usize = 100;

/// How many pages a commit may have before it goes to the log in parts: more than any round changes. So no part of a commit looks like a commit.
const SPILL_PAGES: usize = 1 << 20;

/// Opens the database over a pair of files, which may be empty, and makes the database file whole. Returns whether it made the table of cells: it does so only if the
/// files have no table, and nothing is kept in the new one. In files that had the table, it finds just what they hold. It makes a
/// table, or finds one, only in a database that the files recover to, or where they stand for nothing.
pub fn open_files<D: Disk + Drop>(
    alloc: Global,
    mut files: Files<D>,
    options: Options,
    loss: Loss,
) -> Result<(FileStore<D>, bool), OpenFault>
    requires log { IsTrue (D.Disk.is_usable files.log) }
    requires db { IsTrue (D.Disk.is_usable files.db) }
    ensures found { IfOk result (λ r. HasTable (HoldsDatabase (image_of D.Disk files)) (AreFound D.Disk files) r.1 (view r.0)) }
    ensures made { IfOk result (λ r. MakesTable (HoldsDatabase (image_of D.Disk files)) (AreFound D.Disk files) r.1 (view r.0)) }
{
    check_files(alloc, &mut files, loss)?;
    let conn = match Connection::open_files_with(alloc, files, options, true) {
        Ok(conn) => conn,
        Err((error, _)) => return Err(OpenFault::from(error)),
    };
    let (store, is_new) = store_of(conn)?;
    let store = whole(alloc, store, is_new)?;
    Ok((store, is_new))
}

/// The options of a database, with a random number of the system.
fn options(rt: &HostRuntime) -> Result<Options, OpenFault>
    ensures { IfOk result (λ o. (o.checkpoint_frames ≡ 100) × (o.spill_pages ≡ 2 ^ 20)) }
{
    match RandomState::new(rt) {
        Ok(state) => Ok(Options {
            checkpoint_frames: CHECKPOINT_FRAMES,
            spill_pages: SPILL_PAGES,
            ..Options::new(state.hash_one(&0u8))
        }),
        Err(_) => Err(OpenFault::CannotOpen),
    }
}

/// Opens the file at a path, or makes it, and makes it whole: a copy of it alone has all that is kept. Returns the database, and whether it is new: the file
/// was missing, or it had no tables. While it is open no other process can open it. Nothing is kept in a new one. A refused open leaves no file that was not
/// there, except one that was being made when the disk or memory failed: the next open goes on with that.
///
/// Returns `Locked` if another process has it open; `Damaged` if it is no database, or a damaged one; `LogMissing`, `LogCut`, `LogDamaged` or `FileMissing` if
/// the file or its log lost some of what was kept, and that is to be refused; `Foreign` if its first table is not that of cells; `CannotOpen` if it can't be
/// opened or made; `Disk` if the disk fails; `NoMemory` if an allocation fails.
pub fn open(rt: &HostRuntime, path: &str, loss: Loss) -> Result<(KeptFile, bool), OpenFault>
    ensures empty { IfOk result (λ r. r.1 ≡ true → IsClean (view r.0) → HasEmptyTable (view r.0)) }
{
    let options = options(rt)?;
    // before the open, which may make both files
    let traces = Traces::at(rt, path);
    let files = match sqlite_std_file::open(rt, path, Unknown) {
        Ok(files) => files,
        Err(OpenError::Busy) => return Err(OpenFault::Locked),
        Err(OpenError::OutOfMemory) => return Err(OpenFault::NoMemory),
        Err(_) => return Err(OpenFault::CannotOpen),
    };
    match open_files(rt.alloc(), files, options, loss) {
        Ok((store, true)) => Ok((store, true)),
        Ok((store, false)) => Ok((marked(store)?, false)),
        Err(fault) => {
            traces.remove(rt, path, fault);
            Err(fault)
        }
    }
}
