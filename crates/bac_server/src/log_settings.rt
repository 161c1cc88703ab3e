//! How a log is written.

/// The form of the lines of a log.
#[derive(Clone, Copy, Debug, PartialEq, Eq)]
pub enum LogFormat {
    /// Words.
    Lines,
    /// An object of JSON a line, in the place of each line of words.
    Objects {
        /// The time of day at moment 0 of the clock, in milliseconds since 1970 began in UTC; None where it cannot be read.
        epoch: Option<u64>,
    },
}

/// How a log is written.
#[derive(Clone, Copy, Debug, PartialEq, Eq)]
pub struct LogSettings {
    pub format: LogFormat,
    /// The first moment at which the server performs requests, in milliseconds: 0 where it did not restart.
    pub serves_from: u64,
    /// Whether it shares its slots among IP addresses.
    pub shares: bool,
}
