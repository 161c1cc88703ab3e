//! Bits that are being packed into octets.
ghost use Rattle.std.specs.Prelude.{◌≤◌, ◌+◌, ◌*◌};

/// Whole octets, and a last octet with room for `left` more bits.
#[derive(Drop)]
pub(crate) struct Packing {
    pub(crate) octets: Vec<u8>,
    pub(crate) left: u8,
    /// The weight of the next bit.
    pub(crate) weight: u8,
    pub(crate) octet: u8,
    pub(crate) ghost some: { 1 ≤ left },
    pub(crate) ghost room: { octet + 2 * weight ≤ 256 },
}
