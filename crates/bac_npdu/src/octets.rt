//! Reading one octet, a number of two octets, or several octets.
ghost use Rattle.std.specs.Prelude.{◌≡◌};
ghost use Rattle.bac_value.specs.Steps.{Reads, octet_at};
ghost use Rattle.bac_npdu.specs.declared.fault.FrameFault.TheVariants.{Truncated};
ghost use Rattle.bac_npdu.specs.Reading.{word_at, cut_at};

use crate::fault::FrameFault;
use byteorder::{BigEndian, ByteOrder};

/// Reads the first octet, and returns it and the octets after it.
pub(crate) fn octet(octets: &[u8]) -> Result<(u8, &[u8]), FrameFault>
    ensures { Reads (λ x. x) (λ r. r.now) octets.now result (octet_at Truncated) }
{
    match octets.split_first() {
        Some((first, rest)) => Ok((*first, rest)),
        None => Err(FrameFault::Truncated),
    }
}

/// Reads a number of two octets, and returns it and the octets after it.
#[tactic(auto, unfolding(crate::specs::Reading::word_at, crate::specs::Reading::cut_at))]
pub(crate) fn word(octets: &[u8]) -> Result<(u16, &[u8]), FrameFault>
    ensures { Reads (λ x. x) (λ r. r.now) octets.now result word_at }
{
    let (number, rest) = cut(octets, 2)?;
    Ok((BigEndian::read_u16(number), rest))
}

/// Reads this many octets, and returns them and the octets after them.
#[tactic(auto, unfolding(crate::specs::Reading::cut_at))]
pub(crate) fn cut(octets: &[u8], count: usize) -> Result<(&[u8], &[u8]), FrameFault>
    ensures { Reads (λ x. x.now) (λ r. r.now) octets.now result (cut_at count) }
{
    if octets.len() < count {
        return Err(FrameFault::Truncated);
    }
    Ok((&octets[..count], &octets[count..]))
}
