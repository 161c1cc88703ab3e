//! Standard input, with which a server may end.

/// The standard input of a machine.
pub trait StandardInput {
    /// Whether standard input has ended, or cannot be read. This does not wait; what is there is read and forgotten.
    fn has_input_ended(&self) -> bool;
}
