//! The flags in the first octet, by weight, and how to test one (clauses 20.1.2.1 to 20.1.2.3, 20.1.6.1, 20.1.6.2 and 20.1.9.1).

ghost use Rattle.std.specs.Prelude.{◌≡◌, ◌<◌};
ghost use Rattle.bac_value.specs.Steps.{has_bit};

/// SEG: the APDU is a segment.
pub(crate) const SEG: u8 = 8;
/// MOR: more segments follow.
pub(crate) const MOR: u8 = 4;
/// SA: the sender accepts a segmented response.
pub(crate) const SA: u8 = 2;
/// NAK: a segment was out of order.
pub(crate) const NAK: u8 = 2;
/// SRV: the sender is the server.
pub(crate) const SRV: u8 = 1;

/// Whether the bit with this weight is set.
pub(crate) fn has(octet: u8, weight: u8) -> bool
    requires { 0 < weight }
    ensures { result ≡ has_bit octet weight }
{
    octet / weight % 2 == 1
}
