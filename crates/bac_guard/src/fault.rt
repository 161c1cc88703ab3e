//! Why a text is no blocks of addresses. Programs match on it and print it: new cases and texts are changes of the interface.
use thiserror::Error;

/// Why a part of a text is no block of addresses.
#[derive(Clone, Copy, Debug, PartialEq, Eq, Error)]
pub enum BlockFlaw {
    /// What stands before the slash is no address as `192.168.1.20`.
    #[error("no IPv4 address")]
    NoAddress,
    /// What stands behind the slash is no number from 0 to 32.
    #[error("the number of bits is not 0 to 32")]
    NoBits,
    /// The address has bits that are set behind its first ones, so many as stand behind the slash.
    #[error("bits are set that do not count")]
    MoreBits,
}

/// Why a text is no blocks of addresses.
#[derive(Clone, Copy, Debug, PartialEq, Eq, Error)]
pub enum SourcesFault {
    /// A part of it is no block: which one, from 1 on, and why. It is the first such part.
    #[error("block {place}: {flaw}")]
    BadBlock { place: usize, flaw: BlockFlaw },
    /// It has more than 32 parts.
    #[error("more than 32 blocks")]
    TooMany,
}
