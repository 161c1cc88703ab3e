//! What a C program asks a peer for.
use crate::records::Reference;

/// What a C program asks a peer for.
#[derive(Clone, Copy)]
pub enum Question<'a> {
    /// A property is read.
    Read(Reference),
    /// Octets of data are written to a property, with a priority where it is not 0.
    Write {
        reference: Reference,
        octets: &'a [u8],
        priority: u8,
    },
    /// Octets are written to a file from a position on; position -1 appends them.
    Put {
        file: u32,
        position: i64,
        octets: &'a [u8],
    },
    /// Octets of a file are read from a position on, at most `count` of them.
    Get {
        file: u32,
        position: i64,
        count: u64,
    },
}
