//! Standard error, which may be a pipe that nobody reads.

/// The standard error of a machine.
pub trait StandardError {
    /// Whether standard error takes 4,096 octets now without a wait. This does not wait itself.
    fn has_room(&self) -> bool;
}
