//! Why a file is not opened, and why a database fails.
ghost use Rattle.std.specs.Prelude.{◌≡◌};
ghost use Rattle.bac_keep_file.specs.Faults.{keep_fault as keep_fault_of};

use bac_keep::{DatabaseFault, KeepFault};
use sqlite::{Error as SqlError, ErrorCode};
use sqlite_trees::error::StoreError;
use thiserror::Error;

/// Why a file is not opened.
#[derive(Clone, Copy, Debug, PartialEq, Eq, Error)]
pub enum OpenFault {
    /// Another process has the file open.
    #[error("another process has it open")]
    Locked,
    /// The file is no database, or it is damaged.
    #[error("not a database, or a damaged one")]
    Damaged,
    /// The file is a database of something else.
    #[error("a database of another program")]
    Foreign,
    /// The log, the file beside it whose name ends in `-wal`, is missing or empty.
    #[error("its log is missing")]
    LogMissing,
    /// The log ends before what it had.
    #[error("its log is cut off")]
    LogCut,
    /// The log is damaged in front, or before its last commit.
    #[error("its log is damaged")]
    LogDamaged,
    /// The file is missing or empty, and its log is there.
    #[error("it is missing or empty, but its log exists")]
    FileMissing,
    /// The file can't be opened or made.
    #[error("it cannot be opened; give a file, or a new one in a folder with write permission")]
    CannotOpen,
    /// The disk failed, or it is full.
    #[error("the disk failed or is full")]
    Disk,
    /// An allocation failed.
    #[error("no memory")]
    NoMemory,
    /// Any other fault of the database.
    #[error("{0}")]
    Database(SqlError),
}

impl From<SqlError> for OpenFault {
    fn from(error: SqlError) -> OpenFault {
        match error {
            SqlError::SqliteFailure(code) => match code {
                ErrorCode::DatabaseBusy => OpenFault::Locked,
                ErrorCode::NotADatabase | ErrorCode::DatabaseCorrupt => OpenFault::Damaged,
                ErrorCode::CannotOpen => OpenFault::CannotOpen,
                ErrorCode::SystemIoFailure | ErrorCode::DiskFull => OpenFault::Disk,
                ErrorCode::OutOfMemory => OpenFault::NoMemory,
                _ => OpenFault::Database(error),
            },
            _ => OpenFault::Database(error),
        }
    }
}

/// The fault of a keeper whose database fails.
pub(crate) fn keep_fault(error: StoreError) -> KeepFault
    ensures { result ≡ keep_fault_of error }
{
    KeepFault::Database(match error {
        StoreError::OutOfMemory => DatabaseFault::OutOfMemory,
        StoreError::Io => DatabaseFault::Io,
        StoreError::Corrupt => DatabaseFault::Corrupt,
        StoreError::Full => DatabaseFault::Full,
        StoreError::Broken => DatabaseFault::Broken,
        StoreError::Unstorable => DatabaseFault::Unstorable,
    })
}
