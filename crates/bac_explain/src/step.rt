//! The frames of a transaction.
use crate::finding::Finding;
use crate::part::Role;

/// A frame that carries an APDU of a transaction.
#[derive(Clone, Copy, Debug)]
pub struct Step {
    /// The number of the frame, counted from 1.
    pub frame: u64,
    /// The moment of the frame, in milliseconds.
    pub moment: u64,
    /// The role of the APDU.
    pub role: Role,
    /// What is wrong with it, if anything.
    pub finding: Option<Finding>,
}
