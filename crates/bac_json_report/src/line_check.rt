//! The lines of a capture that were checked.
use bac_text::LineTally;
use std::alloc::Global;

/// The lines so far.
#[derive(Drop)]
pub(crate) struct LineCheck {
    pub(crate) alloc: Global,
    /// Whether notes are taken.
    pub(crate) notes: bool,
    /// The memory of each line's datagram.
    pub(crate) datagram: Vec<u8>,
    pub(crate) tally: LineTally,
}
