//! The error of reading octets in pieces: refused, or out of memory.

use std::fmt::Display;
use thiserror::Error;

/// Why octets in pieces were not read.
#[derive(Clone, Copy, Debug, Drop, PartialEq, Eq, Error)]
#[error_bound(E: Display)]
pub enum ReadError<E> {
    /// The joined octets are not valid, for this reason.
    #[error("{0}")]
    Refused(E),
    /// The octets are valid, but an allocation failed.
    #[error("no memory")]
    NoMemory,
}
