//! Why reading stopped, and how that maps to a Reject reason and to a fault of the service data of a ComplexACK.
ghost use Rattle.std.specs.Prelude.{◌≡◌, ◌≢◌, ◌≤◌};
ghost use Rattle.bac_service.specs.Stops.{reason_of, kind_of, fault_of};

use crate::reject::Reject;
use bac_value::{Fault, FaultKind};

/// Why reading the members stopped.
#[derive(Clone, Copy, Debug)]
pub(crate) enum Why {
    /// A tag, contents or data with a fault.
    Fault(FaultKind),
    /// The octets end before a required member.
    Missing,
    /// The next tag is not that of the required member.
    Unexpected,
    /// A priority outside 1 to 16.
    OutOfRange,
    /// A count that differs from the number of items that follow it.
    Inconsistent,
    /// Octets after the last member.
    Surplus,
}

/// Why reading stopped, and how many octets were left at the tag where it stopped.
#[derive(Clone, Copy, Debug)]
pub(crate) struct Stop {
    pub why: Why,
    pub left: usize,
}

impl Stop {
    pub(crate) fn new(why: Why, left: usize) -> Stop
        ensures { result ≡ record { why = why; left = left } }
    {
        Stop { why, left }
    }

    /// The reason for rejecting the request (own rule of this profile, see docs/PROTOCOL.md, "Departures").
    pub(crate) fn reject(self) -> Reject
        ensures same { result ≡ reason_of self.why }
        ensures known { result ≢ Reject.UnrecognizedService }
    {
        match self.why {
            Why::Fault(FaultKind::Truncated) | Why::Missing => Reject::MissingRequiredParameter,
            Why::Fault(FaultKind::ReservedTag | FaultKind::Unbalanced | FaultKind::TooDeep)
            | Why::Unexpected => Reject::InvalidTag,
            Why::Fault(
                FaultKind::LongForm
                | FaultKind::BadLength
                | FaultKind::NotShortest
                | FaultKind::ReservedBits,
            ) => Reject::InvalidParameterDataType,
            Why::OutOfRange => Reject::ParameterOutOfRange,
            Why::Inconsistent => Reject::InconsistentParameters,
            Why::Surplus => Reject::TooManyArguments,
        }
    }

    /// The fault of the service data of a ComplexACK that had `all` octets (own rule of this profile: a missing or unexpected member
    /// is `ReservedTag` at its place, octets after the last member are `BadLength` at theirs).
    pub(crate) fn fault_in(self, all: usize) -> Fault
        ensures same { result ≡ fault_of all self }
        ensures place { result.at ≤ all }
    {
        let kind = match self.why {
            Why::Fault(kind) => kind,
            Why::Missing | Why::Unexpected => FaultKind::ReservedTag,
            Why::OutOfRange | Why::Inconsistent | Why::Surplus => FaultKind::BadLength,
        };
        Fault {
            kind,
            at: all.saturating_sub(self.left),
        }
    }
}
