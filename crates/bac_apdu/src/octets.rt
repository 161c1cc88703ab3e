//! Reading an octet, and checking for the end of an APDU.

ghost use Rattle.std.specs.Prelude.{◌≡◌};
ghost use Rattle.bac_value.specs.Steps.{Reads, ReadsAll, octet_at};
ghost use Rattle.bac_apdu.specs.declared.fault.ApduFault.TheVariants.{Truncated};
ghost use Rattle.bac_apdu.specs.Views.{apdu_view};
ghost use Rattle.bac_apdu.specs.Reading.{end_at};

use crate::apdu::Apdu;
use crate::fault::ApduFault;

/// Reads the first octet, and returns it and the octets after it.
#[inline(always)]
pub(crate) fn octet(octets: &[u8]) -> Result<(u8, &[u8]), ApduFault>
    ensures { Reads (λ x. x) (λ r. r.now) octets.now result (octet_at Truncated) }
{
    match octets.split_first() {
        Some((first, rest)) => Ok((*first, rest)),
        None => Err(ApduFault::Truncated),
    }
}

/// Returns the APDU if no octets follow it.
pub(crate) fn ended<'a>(rest: &[u8], apdu: Apdu<'a>) -> Result<Apdu<'a>, ApduFault>
    ensures { ReadsAll apdu_view result (end_at rest.now (apdu_view apdu.entry)) }
{
    if rest.is_empty() {
        Ok(apdu)
    } else {
        Err(ApduFault::Trailing)
    }
}
