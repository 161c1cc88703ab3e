//! How what comes of the events of a script is told.

/// How what comes of the events of a script is told.
#[derive(Clone, Copy, PartialEq, Eq)]
pub(crate) enum EventStyle {
    /// In words: each event at its moment, and below it what came of it, or why nothing did.
    Words,
    /// In objects of JSON, one a line: what came of each event.
    Objects,
}
