//! Reading header fields.
ghost use Rattle.std.specs.Prelude.{◌≡◌, IfOk, length};
ghost use Rattle.bac_value.specs.Steps.{Reads, octet_at};
ghost use Rattle.bac_capture.specs.declared.fault.PacketFault.TheVariants.{Truncated};
ghost use Rattle.bac_capture.specs.Fields.{cut_at, word_at, long_at};

use crate::fault::PacketFault;
use byteorder::{BigEndian, ByteOrder};

/// Reads this many octets, and returns them and the octets after them.
#[tactic(auto, unfolding(crate::specs::Fields::cut_at))]
pub(crate) fn cut(octets: &[u8], count: usize) -> Result<(&[u8], &[u8]), PacketFault>
    ensures reads { Reads (λ x. x.now) (λ r. r.now) octets.now result (cut_at count) }
    ensures len { IfOk result (λ r. length r.0.now ≡ count) }
{
    if octets.len() < count {
        return Err(PacketFault::Truncated);
    }
    Ok((&octets[..count], &octets[count..]))
}

/// Reads the first octet, and returns it and the octets after it.
pub(crate) fn octet(octets: &[u8]) -> Result<(u8, &[u8]), PacketFault>
    ensures { Reads (λ x. x) (λ r. r.now) octets.now result (octet_at Truncated) }
{
    match octets.split_first() {
        Some((first, rest)) => Ok((*first, rest)),
        None => Err(PacketFault::Truncated),
    }
}

/// Reads a number of two octets, and returns it and the octets after it.
#[tactic(auto, unfolding(crate::specs::Fields::word_at, crate::specs::Fields::cut_at))]
pub(crate) fn word(octets: &[u8]) -> Result<(u16, &[u8]), PacketFault>
    ensures { Reads (λ x. x) (λ r. r.now) octets.now result word_at }
{
    let (number, rest) = cut(octets, 2)?;
    Ok((BigEndian::read_u16(number), rest))
}

/// Reads a number of four octets, and returns it and the octets after it.
#[tactic(auto, unfolding(crate::specs::Fields::long_at, crate::specs::Fields::cut_at))]
pub(crate) fn long(octets: &[u8]) -> Result<(u32, &[u8]), PacketFault>
    ensures { Reads (λ x. x) (λ r. r.now) octets.now result long_at }
{
    let (number, rest) = cut(octets, 4)?;
    Ok((BigEndian::read_u32(number), rest))
}
