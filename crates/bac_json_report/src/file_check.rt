//! The frames of a capture file that were checked.
use bac_capture::FrameTally;
use std::alloc::Global;

/// The frames so far.
#[derive(Clone, Copy)]
pub(crate) struct FileCheck {
    pub(crate) alloc: Global,
    pub(crate) tally: FrameTally,
}
