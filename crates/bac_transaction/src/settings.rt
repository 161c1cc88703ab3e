//! The settings of an end.
use bac_apdu::{Limits, Window};

/// What a node is set to.
#[derive(Clone, Copy, Debug, PartialEq, Eq)]
pub struct Settings {
    /// What it takes of an APDU, and of a reply in segments.
    pub limits: Limits,
    /// The greatest window that it proposes or grants.
    pub window: Window,
}
