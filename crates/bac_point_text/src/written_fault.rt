//! Why a text is not a value of the kind that is wanted.
use thiserror::Error;

/// Why [`value_as_written`](crate::value_as_written) read no value.
#[derive(Clone, Copy, Debug, Error)]
pub enum WrittenFault {
    /// The text is no number, as a number's kind requires, nor a name, if the number stands for one.
    #[error("not a number")]
    NoNumber,
    /// The text is a number that the kind cannot hold, as `1e39` in a Real, or is infinite or NaN.
    #[error("not a finite number")]
    NotFinite,
    /// The number is below 0, and the kind has none below 0.
    #[error("a number below 0")]
    Negative,
    /// The number has more bits than the kind.
    #[error("a number out of range")]
    OutOfRange,
    /// The text is not a name of the enumeration, nor a number.
    #[error("an unknown name")]
    UnknownName {
        /// The name of the enumeration that is most like the text, where one is like it.
        nearest: Option<&'static str>,
    },
    /// The text is neither `true` nor `false`.
    #[error("neither true nor false")]
    NoBoolean,
    /// The text is no octets: `hex:` and an even number of hexadecimal digits.
    #[error("not octets, such as hex:0102")]
    NoOctets,
    /// The text is not UTF-8.
    #[error("not UTF-8")]
    NotUtf8,
    /// The text has more octets than a value can have, `2^32 - 2`.
    #[error("too long")]
    TooLong,
    /// The text does not consist of the digits 0 and 1.
    #[error("not bits")]
    NoBits,
    /// The text is no date, as `2024-2-29-4`: year, month, day and day of the week, where `*` stands for any. The last one may be left out.
    #[error("not a date, such as 2026-12-24")]
    NoDate,
    /// The text is no time, as `12:30:0.0`: hours, minutes, seconds and hundredths, where `*` stands for any. The last ones may be left out.
    #[error("not a time, such as 8:15:30")]
    NoTime,
    /// The text is no object identifier, as `analog-input:5`.
    #[error("not an object identifier")]
    NoObject,
    /// The text is not `null`.
    #[error("not null")]
    NoNull,
    /// An allocation failed.
    #[error("no memory")]
    NoMemory,
}
