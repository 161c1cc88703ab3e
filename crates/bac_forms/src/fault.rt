//! Why a text is not read.
use crate::place::Position;
use thiserror::Error;

/// Why a text is not read.
#[derive(Clone, Copy, Debug, PartialEq, Eq, Error)]
pub enum FormFault {
    /// The character found at this place, or the end of the text there, does not fit the form.
    #[error("line {}, column {}: invalid in this form", .position.line, .position.column)]
    Misfit {
        position: Position,
        found: Option<u8>,
    },
    /// An allocation failed.
    #[error("no memory")]
    NoMemory,
}

/// The same, with the number of characters that stand before that place.
#[derive(Clone, Copy)]
pub(crate) enum ScanFault {
    At(usize),
    NoMemory,
}
