//! The first sending of a request (clause 5.4.4.1).
//!
//! `asking` calls [`ClientTransaction::begin`]. All here is private to the crate.
ghost use Rattle.std.specs.Prelude.{◌≡◌, ◌+◌, IfOk, nat_le, length};
ghost use Rattle.bac_segment.specs.Window.{Outgoing as Sender, in_window};
ghost use Rattle.bac_requester.specs.Fits.{IsShort};
ghost use Rattle.bac_requester.specs.Transitions.{IsBegun};
ghost use Rattle.bac_requester.specs.Requests.{ask_at};

use crate::outgoing_request::OutgoingRequest;
use crate::sending::{whole_request, window};
use crate::transaction::{ClientTransaction, Phase, RequestState};
use bac_segment::{N_RETRY, Outgoing};
use bac_transaction::{Context, Datagram};
use bac_value::NoMemory;
use std::alloc::Global;

/// Whether the window ends with the last piece.
pub(crate) fn ends_all(outgoing: &Outgoing) -> bool
    ensures { result ≡ nat_le (length outgoing.now.pieces) (outgoing.now.first + in_window outgoing.now) }
{
    outgoing.count() <= outgoing.window().end
}

impl ClientTransaction {
    /// Sends a request for the first time: the transaction after that, and the whole request or its first window. After `NoMemory` there is no transaction.
    pub(crate) fn begin(
        alloc: Global,
        context: &Context,
        request: OutgoingRequest,
    ) -> Result<(ClientTransaction, Vec<Datagram>), NoMemory>
        ensures { IfOk result (λ begun. IsBegun context.now (ask_at context.now.moment request) begun.0 begun.1.items) }
    {
        let OutgoingRequest {
            choice,
            whole,
            outgoing,
        } = request;
        let (sends, phase) = if whole {
            let sends = whole_request(alloc, context, choice, outgoing.octets())?;
            (sends, Phase::AwaitConfirmation)
        } else {
            let all_sent = ends_all(&outgoing);
            let sends = window(alloc, context, choice, &outgoing)?;
            (sends, Phase::SegmentedRequest { all_sent })
        };
        let core = RequestState {
            first: context.moment,
            choice,
            whole,
            outgoing,
            repeats: N_RETRY,
            since: context.moment,
        };
        Ok((ClientTransaction { core, phase }, sends))
    }
}
