//! Reading a BVLL (clause J.2).
ghost use Rattle.std.specs.Prelude.{◌≡◌, ℕ, List, IfOk, IfErr};
ghost use Rattle.bac_value.specs.Steps.{ReadsAll};
ghost use Rattle.bac_npdu.specs.Npdu.{SpellsBvll};
ghost use Rattle.bac_npdu.specs.Reading.{bvll_at};

use crate::fault::FrameFault;

/// The first octet of a BVLL: BACnet/IP (clause J.2).
pub(crate) const TYPE: u8 = 0x81;
/// The second octet of a BVLL: the function Original-Unicast-NPDU (clause J.2.11).
pub(crate) const ORIGINAL_UNICAST_NPDU: u8 = 0x0A;

/// Returns the octets of the NPDU in a BVLL with function Original-Unicast-NPDU (clause J.2.11).
///
/// Fewer than four octets are `Truncated`; otherwise `Version`, `NotUnicast` and `BadLength` are tested in this order.
#[tactic(auto, unfolding(crate::specs::Reading::bvll_at))]
pub fn read_bvll(octets: &[u8]) -> Result<&[u8], FrameFault>
    ensures found { IfOk result (λ n. SpellsBvll n.now octets.now) }
    ensures refused { IfErr result (λ e. (n : List ℕ) → SpellsBvll n octets.now → ⊥) }
    // the fault is the first from left to right
    ensures exact { ReadsAll (λ n. n.now) result (bvll_at octets.now) }
{
    let [kind, function, high, low, npdu @ ..] = octets else {
        return Err(FrameFault::Truncated);
    };
    if *kind != TYPE {
        Err(FrameFault::Version)
    } else if *function != ORIGINAL_UNICAST_NPDU {
        Err(FrameFault::NotUnicast)
    } else if usize::from(u16::from_be_bytes([*high, *low])) != octets.len() {
        Err(FrameFault::BadLength)
    } else {
        Ok(npdu)
    }
}
