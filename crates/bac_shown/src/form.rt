//! The forms of an escape.

/// How what would do harm is written.
#[derive(Clone, Copy, Debug, PartialEq, Eq)]
pub enum Form {
    /// A character as `\u{202E}`, an octet that is no UTF-8 as `\x9B`.
    Text,
    /// Within strings of JSON: a character as `\u202e`, in two halves beyond U+FFFF; an octet that is no UTF-8 as `\ufffd`.
    Json,
}
