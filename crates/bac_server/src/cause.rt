//! Why a datagram was dropped, in words.
ghost use Rattle.std.specs.Prelude.{◌≡◌, IfOk, string_bytes};
ghost use Rattle.bac_node.specs.Views.{cause_view};
ghost use Rattle.bac_server.specs.LogWords.{cause_words, layer_words};

use bac_node::Cause;
use bac_npdu::FrameFault;
use bac_text::frame_reason;
use std::alloc::{AllocError, Global};

/// A fault of a layer, as `bvll 6 (not Original-Unicast-NPDU)`.
fn layer_words(alloc: Global, layer: &str, fault: FrameFault) -> Result<String, AllocError>
    ensures { IfOk result (λ t. string_bytes t ≡ layer_words layer.now fault) }
{
    let number = fault.number();
    let reason = frame_reason(fault);
    format!(in alloc; "{layer} {number} ({reason})")
}

/// Why a datagram was dropped.
pub(crate) fn cause_words(alloc: Global, cause: &Cause) -> Result<String, AllocError>
    ensures { IfOk result (λ t. string_bytes t ≡ cause_words (cause_view cause.now)) }
{
    match cause {
        Cause::Bvll(fault) => layer_words(alloc, "bvll", *fault),
        Cause::Npdu(fault) => layer_words(alloc, "npdu", *fault),
        Cause::Routed => String::from_str(alloc, "to be routed"),
        Cause::NetworkMessage => String::from_str(alloc, "network message"),
        Cause::Apdu => String::from_str(alloc, "invalid APDU"),
        Cause::OwnLink => String::from_str(alloc, "from its own link"),
    }
}
