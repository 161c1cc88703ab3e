//! Why a store is not kept, or not restored.
ghost use Rattle.std.specs.Prelude.{◌≡◌};
ghost use Rattle.bac_keep.specs.declared.fault.KeepFault.TheVariants as fault;

use bac_store::ChangeFault;
use bac_value::{NoMemory, ObjectIdentifier};
use std::alloc::{AllocError, AllocFailed};
use thiserror::Error;

/// Why a database fails. Each keeper tells the faults of its own database by these.
#[derive(Clone, Copy, Debug, PartialEq, Eq, Error)]
pub enum DatabaseFault {
    /// An allocation failed.
    #[error("out of memory")]
    OutOfMemory,
    /// The disk failed.
    #[error("disk I/O error")]
    Io,
    /// What the disk holds is damaged.
    #[error("database disk image is malformed")]
    Corrupt,
    /// The disk or the file has no room.
    #[error("database or disk is full")]
    Full,
    /// An earlier call failed, so what no commit has finished can only be rolled back; or the files were found damaged.
    #[error("the transaction must be rolled back")]
    Broken,
    /// The database can't hold such a row.
    #[error("the row has a NaN, an integer in a REAL column, no column or too many, or over a billion bytes")]
    Unstorable,
}

/// Why a store is not kept, or not restored.
#[derive(Clone, Copy, Debug, PartialEq, Eq, Error)]
pub enum KeepFault {
    /// The database failed: its disk, its files, or an earlier call.
    #[error("{0}")]
    Database(DatabaseFault),
    /// The database has a row that no write makes.
    #[error("a row that no write makes")]
    BadRow,
    /// The database can't be used after an earlier failure.
    #[error("the database is shut")]
    Shut,
    /// The database has no table for cells.
    #[error("the database has no table of cells")]
    NoTable,
    /// The document has the property, and it can't have the values that are kept.
    #[error("kept values that the property cannot have")]
    BadValues {
        /// The object.
        object: ObjectIdentifier,
        /// The number of the property.
        property: u32,
        /// Why it can't have them.
        fault: ChangeFault,
    },
    /// The document has the file, and it can't have the octets that are kept.
    #[error("kept octets that the file cannot have")]
    BadOctets {
        /// The file.
        object: ObjectIdentifier,
        /// Why it can't have them.
        fault: ChangeFault,
    },
    /// A property whose number has more than 22 bits (clause 23.1) is not kept.
    #[error("a property number of more than 22 bits")]
    HighNumber,
    /// An allocation failed.
    #[error("no memory")]
    NoMemory,
}

impl From<DatabaseFault> for KeepFault {
    ghost from_gives = { λ e f. f ≡ fault.Database e };

    fn from(fault: DatabaseFault) -> KeepFault {
        KeepFault::Database(fault)
    }
}

impl From<NoMemory> for KeepFault {
    ghost from_gives = { λ _ f. f ≡ fault.NoMemory };

    fn from(_error: NoMemory) -> KeepFault {
        KeepFault::NoMemory
    }
}

impl From<AllocError> for KeepFault {
    ghost from_gives = { λ _ f. f ≡ fault.NoMemory };

    fn from(_error: AllocError) -> KeepFault {
        KeepFault::NoMemory
    }
}

impl<T: Drop> From<AllocFailed<T>> for KeepFault {
    ghost from_gives = { λ _ f. f ≡ fault.NoMemory };

    fn from(_error: AllocFailed<T>) -> KeepFault {
        KeepFault::NoMemory
    }
}
