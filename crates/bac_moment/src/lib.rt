//! Moments as texts of RFC 3339, in UTC, with milliseconds.
#![tactic(auto)]

mod time;

pub use time::{TimeText, time_text};
