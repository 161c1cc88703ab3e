//! What is told of a node that does not answer, or refuses requests for now.

use bac_ask_report::Outcome;
use bac_asking::{outcome_of, tell_no_answer, tell_unsent};
use bac_driver::AskEnd;
use bac_environment::ClientSockets;
use bac_npdu::Peer;
use bac_point_report::is_refused;
use bac_service::AnyReply;
use bac_text::Status;
use std::alloc::Global;
use std::io::Write;

/// What is told of a node that aborts a request for a reason of its own.
const REFUSED: &str =
    "the device refuses the request for now: a bac serve that was just restarted does so for up to 65 seconds";

/// What is told of a node that has no such object.
const UNKNOWN: &str = "bac points lists the objects of a device";

/// What is told of a node that takes no null.
const NO_NULL: &str = "this property takes no null: it has no priority array";

/// Tells that a node did not answer, how long it was waited for, what to look at, and why the system sends nothing to it, if the system tells that.
pub(crate) fn tell_silence<M: ClientSockets, E: Write>(
    alloc: Global,
    machine: &M,
    peer: Peer,
    timeout: Option<u64>,
    outcome: Outcome<'_>,
    err: &mut E,
) {
    tell_no_answer(alloc, peer, timeout, outcome, err);
    tell_unsent(Status::Faulty, machine, peer.link, err);
}

/// Tells why a node may refuse requests for now, where it refused one.
pub(crate) fn tell_refused<E: Write>(ends: &[AskEnd], err: &mut E) {
    if ends.iter().any(|end| is_refused(outcome_of(end))) {
        // if that fails too, only the status is left
        let _ = err.writeln(REFUSED);
    }
}

/// Whether a node answered that it has no such object (clause 18.2).
pub(crate) fn is_unknown(outcome: Outcome<'_>) -> bool {
    matches!(
        outcome,
        Outcome::Answered(AnyReply::Error { class: 1, code: 31 })
    )
}

/// Whether a node answered that a value has a type that the property does not take (clause 18.3).
fn is_invalid_type(outcome: Outcome<'_>) -> bool {
    matches!(
        outcome,
        Outcome::Answered(AnyReply::Error { class: 2, code: 9 })
    )
}

/// Tells why a property takes no null, where the write of one ended so.
pub(crate) fn tell_no_null<E: Write>(end: &AskEnd, err: &mut E) {
    if is_invalid_type(outcome_of(end)) {
        // if that fails too, only the status is left
        let _ = err.writeln(NO_NULL);
    }
}

/// Tells what to do next where a node refused a request for now, or has no such object.
pub(crate) fn tell_next<E: Write>(ends: &[AskEnd], err: &mut E) {
    tell_refused(ends, err);
    if ends.iter().any(|end| is_unknown(outcome_of(end))) {
        // if that fails too, only the status is left
        let _ = err.writeln(UNKNOWN);
    }
}
