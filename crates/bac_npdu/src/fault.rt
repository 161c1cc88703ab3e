//! Why octets are not a frame, and why datagrams are dropped.
ghost use Rattle.std.specs.Prelude.{◌≡◌};
ghost use Rattle.bac_npdu.specs.Faults.{fault_number};

use thiserror::Error;

/// Why octets are not a frame. `number` returns the number that is printed for it.
#[derive(Clone, Copy, Debug, PartialEq, Eq, Error)]
pub enum FrameFault {
    /// The octets end too early.
    #[error("truncated")]
    Truncated = 1,
    /// A BVLL that does not begin with 0x81, or an NPDU that does not begin with 0x01.
    #[error("bad version")]
    Version = 2,
    /// Bit 6 or bit 4 of the control octet is set.
    #[error("reserved bits")]
    ReservedBits = 3,
    /// A network number that is not valid for a destination or a source.
    #[error("bad network number")]
    BadNet = 4,
    /// The length of a BVLL differs from that of the datagram, or an address is too long or too short.
    #[error("bad length")]
    BadLength = 5,
    /// A BVLL function other than Original-Unicast-NPDU.
    #[error("not an Original-Unicast-NPDU")]
    NotUnicast = 6,
}

impl FrameFault {
    /// The number of the fault, 1 to 6, by which it is printed (own numbers of this profile).
    pub fn number(self) -> u8
        ensures { result ≡ fault_number self }
    {
        self as u8
    }
}

/// Why a datagram is dropped, that is, has no peer and APDU. The first reason that applies is returned.
#[derive(Clone, Copy, Debug, PartialEq, Eq, Error)]
pub enum Dropped {
    /// The datagram is not a BVLL.
    #[error("bad BVLL: {0}")]
    Bvll(FrameFault),
    /// The contents of the BVLL are not an NPDU.
    #[error("bad NPDU: {0}")]
    Npdu(FrameFault),
    /// The NPDU is for another network: it has a destination.
    #[error("to be routed to another network")]
    Routed,
    /// The NPDU is a network layer message.
    #[error("network layer message")]
    NetworkMessage,
}
