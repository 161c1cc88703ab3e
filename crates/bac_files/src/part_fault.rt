//! Why a part of a file is not taken.
use thiserror::Error;

/// Why a part of a file is not taken.
#[derive(Clone, Copy, Debug, PartialEq, Eq, Error)]
pub enum PartFault {
    /// The part before it reached the end of the file.
    #[error("a part beyond the end of the file")]
    AfterEnd,
    /// It does not start where the part before it ended.
    #[error("a part at another position than requested")]
    WrongStart,
    /// It has no octets, and does not reach the end of the file.
    #[error("no octets before the end of the file")]
    NoOctets,
    /// With it the file is longer than 67,108,864 octets (own limit).
    #[error("more than 67108864 octets")]
    TooLong,
    /// An allocation failed.
    #[error("no memory")]
    NoMemory,
}
