//! Why octets are not an APDU.

ghost use Rattle.std.specs.Prelude.{◌≡◌};
ghost use Rattle.bac_apdu.specs.Faults.{fault_number};

use thiserror::Error;

/// Why octets are not an APDU. `number` returns the number that is printed for it.
#[derive(Clone, Copy, Debug, PartialEq, Eq, Error)]
pub enum ApduFault {
    /// The octets end too early.
    #[error("truncated")]
    Truncated = 1,
    /// A bit is set that this type of APDU does not use.
    #[error("reserved bits")]
    ReservedBits = 2,
    /// A max-APDU code above 5.
    #[error("reserved code")]
    ReservedCode = 3,
    /// A window size of 0, or above 127.
    #[error("bad window")]
    BadWindow = 4,
    /// A PDU type above 7.
    #[error("bad type")]
    BadType = 5,
    /// More octets after the last member.
    #[error("octets after the last member")]
    Trailing = 6,
    /// The flag for more segments is set on an unsegmented APDU.
    #[error("more segments of an unsegmented APDU")]
    MorWithoutSeg = 7,
    /// The error class or the error code is a whole element, but not an application Enumerated.
    #[error("bad error class or code")]
    BadError = 8,
}

impl ApduFault {
    /// The number of the fault, 1 to 8, by which it is printed (own numbers of this profile).
    pub fn number(self) -> u8
        ensures { result ≡ fault_number self }
    {
        self as u8
    }
}
