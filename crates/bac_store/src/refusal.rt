//! Why the reply to a request is an Error.
ghost use Rattle.std.specs.Prelude.{◌≡◌};
ghost use Rattle.bac_service.specs.Views.{owned_reply_view};
ghost use Rattle.bac_store.specs.Answers.{refused};

use bac_service::{AnyReply, OwnedReply};

/// Why the reply to a request is an Error (clause 18).
#[derive(Clone, Copy, Debug, PartialEq, Eq)]
pub(crate) enum Refusal {
    UnknownObject,
    UnknownProperty,
    PropertyIsNotAnArray,
    InvalidArrayIndex,
    WriteAccessDenied,
    InvalidDataType,
    ValueOutOfRange,
    NoSpaceToWrite,
    InvalidFileAccessMethod,
    FileAccessDenied,
    InvalidFileStartPosition,
}

impl Refusal {
    /// The error class and the error code.
    pub(crate) fn reply(self) -> OwnedReply
        ensures { owned_reply_view result ≡ refused self }
    {
        let (class, code) = match self {
            Refusal::UnknownObject => (1, 31),
            Refusal::UnknownProperty => (2, 32),
            Refusal::PropertyIsNotAnArray => (2, 50),
            Refusal::InvalidArrayIndex => (2, 42),
            Refusal::WriteAccessDenied => (2, 40),
            Refusal::InvalidDataType => (2, 9),
            Refusal::ValueOutOfRange => (2, 37),
            Refusal::NoSpaceToWrite => (3, 20),
            Refusal::InvalidFileAccessMethod => (5, 10),
            Refusal::FileAccessDenied => (5, 5),
            Refusal::InvalidFileStartPosition => (5, 11),
        };
        AnyReply::Error { class, code }
    }
}
