//! The reasons of a Reject (clause 18.9).
ghost use Rattle.std.specs.Prelude.{◌≡◌};
ghost use Rattle.bac_service.specs.Refusals.{reason_number};

use thiserror::Error;

/// Why a request is rejected (clause 18.9). The number of each reason is its position in this list, from 0.
#[derive(Clone, Copy, Debug, PartialEq, Eq, Error)]
pub enum Reject {
    /// Never returned by the readers of this crate.
    #[error("other")]
    Other,
    /// Never returned by the readers of this crate.
    #[error("buffer overflow")]
    BufferOverflow,
    /// A count that differs from the number of items that follow it.
    #[error("inconsistent parameters")]
    InconsistentParameters,
    /// A tag whose number or length takes more octets than it needs, or whose low bits are invalid for its number; contents that
    /// are invalid for their type.
    #[error("invalid parameter data type")]
    InvalidParameterDataType,
    /// A tag other than the expected member's, a reserved tag, unbalanced tags, or more than eight open tags.
    #[error("invalid tag")]
    InvalidTag,
    /// The octets end before the request is complete.
    #[error("missing required parameter")]
    MissingRequiredParameter,
    /// A priority outside 1 to 16.
    #[error("parameter out of range")]
    ParameterOutOfRange,
    /// More octets after the last member.
    #[error("too many arguments")]
    TooManyArguments,
    /// Never returned by the readers of this crate.
    #[error("undefined enumeration")]
    UndefinedEnumeration,
    /// A service choice other than 6, 7, 12 and 15.
    #[error("unrecognized service")]
    UnrecognizedService,
}

impl Reject {
    /// The number of the reason, 0 to 9 (clause 18.9).
    pub fn reason(self) -> u8
        ensures { result ≡ reason_number self }
    {
        self as u8
    }
}
