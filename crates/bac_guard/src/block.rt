//! A block of IPv4 addresses. `sources` has several; all here is private to the crate.
ghost use Rattle.std.specs.Prelude.{◌≡◌, ◌≤◌, nat_eq};
ghost use Rattle.bac_guard.specs.Sources.{block, first_bits, holds};

/// How many bits an address has.
pub(crate) const BITS: u8 = 32;

/// The first bits of an address, so many, as a number.
pub(crate) fn first_bits(bits: u8, host: u32) -> u64
    ensures { result ≡ first_bits bits host }
{
    // a u64, since a u32 takes no shift by 32 bits
    u64::from(host) >> BITS.saturating_sub(bits)
}

/// The addresses whose first bits are those of a first one.
#[derive(Clone, Copy, Debug, PartialEq, Eq)]
pub struct Block {
    first: u32,
    bits: u8,
}

impl Block {
    /// The addresses whose first bits, so many, are those of a first one.
    pub(crate) fn new(first: u32, bits: u8) -> Block
        ensures { result ≡ block first bits }
    {
        Block { first, bits }
    }

    /// Whether all addresses are in the block: it has no first bits.
    pub(crate) fn holds_all(&self) -> bool
        ensures { result ≡ nat_eq self.now.bits 0 }
    {
        self.bits == 0
    }

    /// Whether an address is in the block.
    pub(crate) fn holds(&self, host: u32) -> bool
        ensures { result ≡ holds host self.now }
    {
        first_bits(self.bits, host) == first_bits(self.bits, self.first)
    }
}
