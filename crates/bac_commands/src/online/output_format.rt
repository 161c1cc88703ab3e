//! How the end of an ask is printed.

/// How the end of an ask is printed.
#[derive(Clone, Copy, Debug, PartialEq, Eq)]
pub enum Style {
    /// By a line of numbers and octets, as in a script.
    Numbers,
    /// By a line of words: values by their kinds, an Error and reasons by their names in the standard. What is of another property than was asked for
    /// stands behind its name.
    Words,
    /// By the octets of a file alone, where it was answered with them; where it was not, by numbers on standard error.
    Octets,
}

/// How the end of an ask is printed.
#[derive(Clone, Copy, Debug, PartialEq, Eq)]
pub struct OutputFormat {
    /// How it is printed.
    pub style: Style,
    /// Whether an Error is no success, nor a reply that names another object, property or index than was asked.
    pub strict: bool,
}
