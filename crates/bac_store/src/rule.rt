//! The rules by which a store takes objects.

/// Which objects a store takes.
#[derive(Clone, Copy, Debug, PartialEq, Eq)]
pub(crate) enum Rule {
    /// Those of [`Store::new`](crate::Store::new).
    Profile,
    /// Those of [`Store::describing`](crate::Store::describing), each with the properties that are computed at construction.
    Described,
}
