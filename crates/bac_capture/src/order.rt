//! The byte order of the numbers in a capture file: that of the machine that wrote it.
ghost use Rattle.std.specs.Prelude.{◌≡◌, ◌≤◌, length};
ghost use Rattle.bac_capture.specs.Orders.{number_of};

use byteorder::{BigEndian, ByteOrder, LittleEndian};

/// Which octet of a number comes first.
#[derive(Clone, Copy, Debug, PartialEq, Eq)]
pub enum Order {
    /// The most significant.
    Big,
    /// The least significant.
    Little,
}

impl Order {
    /// The number in the first two octets.
    pub(crate) fn word(self, octets: &[u8]) -> u16
        requires { 2 ≤ length octets.now }
        ensures { result ≡ number_of self 2 octets.now }
    {
        match self {
            Order::Big => BigEndian::read_u16(octets),
            Order::Little => LittleEndian::read_u16(octets),
        }
    }

    /// The number in the first four octets.
    pub(crate) fn long(self, octets: &[u8]) -> u32
        requires { 4 ≤ length octets.now }
        ensures { result ≡ number_of self 4 octets.now }
    {
        match self {
            Order::Big => BigEndian::read_u32(octets),
            Order::Little => LittleEndian::read_u32(octets),
        }
    }
}
