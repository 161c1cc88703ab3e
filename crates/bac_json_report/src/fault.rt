//! What is wrong with a datagram, a line or a frame.
ghost use Rattle.std.specs.Prelude.{◌≡◌, IfOk};
ghost use Rattle.bac_json_report.specs.Faults.{fault_form, outer_fault_form, reason_of};
ghost use Rattle.serde_json.specs.Data.{string};
ghost use Rattle.serde_json.specs.View.{view};

use bac_json::Members;
use bac_text::{LayerFault, apdu_reason, frame_reason, kind_reason};
use bac_value_text::reject_text;
use serde_json::Value as Json;
use std::alloc::{AllocError, Global};

/// Why a layer cannot be read, in the words of `decode --text`.
fn reason_json(alloc: Global, fault: LayerFault) -> Result<Json, AllocError>
    ensures { IfOk result (λ v. view v ≡ string (reason_of fault)) }
{
    match fault {
        LayerFault::Bvll(why) | LayerFault::Npdu(why) => {
            Json::try_from_str(alloc, frame_reason(why))
        }
        LayerFault::Apdu(why) => Json::try_from_str(alloc, apdu_reason(why)),
        LayerFault::Request(reject) => Ok(Json::String(reject_text(alloc, reject.reason())?)),
        LayerFault::ComplexAck(kind) => Json::try_from_str(alloc, kind_reason(kind)),
    }
}

/// The fault of a datagram: its layer, its number there, its text as the plain lines print it, and in words why the layer cannot be read. An Err is out of
/// memory.
pub fn fault_json(alloc: Global, fault: LayerFault) -> Result<Json, AllocError>
    ensures { IfOk result (λ v. view v ≡ fault_form fault) }
{
    let text = format!(in alloc; "{fault}")?;
    let words = reason_json(alloc, fault)?;
    Members::new(alloc)
        .text("layer", fault.name())
        .number("number", u64::from(fault.number()))
        .text("text", text.as_str())
        .json("words", words)
        .end()
}

/// The fault of what is around a datagram, as a line or a frame, which has no number.
pub(crate) fn outer_fault_json(alloc: Global, layer: &str, text: &str) -> Result<Json, AllocError>
    ensures { IfOk result (λ v. view v ≡ outer_fault_form layer.now text.now) }
{
    Members::new(alloc)
        .text("layer", layer)
        .json("number", Json::Null)
        .text("text", text)
        .text("words", text)
        .end()
}
