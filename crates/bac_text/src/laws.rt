//! Laws of the definitions: each function's contract is one.
ghost use Rattle.std.specs.Prelude.{List, ℕ};
ghost use Rattle.bac_text.specs.Layers.{IsFine, IsAtFault};

use crate::fault::LayerFault;
use bac_apdu::one_apdu_spelling;
use bac_npdu::{one_bvll_spelling, one_npdu_spelling};

/// No datagram is without a fault and has one too.
pub fn fine_or_at_fault()
    ensures { (datagram : List ℕ) (fault : LayerFault) → IsFine datagram → IsAtFault datagram fault → ⊥ }
{
    // each layer has one reading, so that no datagram has a fault and none
    one_bvll_spelling();
    one_npdu_spelling();
    one_apdu_spelling();
}
