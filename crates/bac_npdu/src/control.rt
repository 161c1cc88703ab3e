//! The control octet of an NPDU (clause 6.2.2).
ghost use Rattle.std.specs.Prelude.{◌≡◌, ◌<◌};
ghost use Rattle.bac_value.specs.Steps.{has_bit};

/// Bit 7: the NPDU is a network message.
pub(crate) const NETWORK_MESSAGE: u8 = 0x80;
/// Bit 6: reserved.
pub(crate) const RESERVED_HIGH: u8 = 0x40;
/// Bit 5: a destination and a hop count are present.
pub(crate) const DESTINATION: u8 = 0x20;
/// Bit 4: reserved.
pub(crate) const RESERVED_LOW: u8 = 0x10;
/// Bit 3: a source is present.
pub(crate) const SOURCE: u8 = 0x08;
/// Bit 2: the sender expects a reply.
pub(crate) const EXPECTING_REPLY: u8 = 0x04;

/// Whether the bit with this weight is set.
pub(crate) fn has(octet: u8, weight: u8) -> bool
    requires { 0 < weight }
    ensures { result ≡ has_bit octet weight }
{
    octet / weight % 2 == 1
}
