//! SEGMENTED_REQUEST (clause 5.4.4.2): a request that goes in segments, one window after the other.
//!
//! `transaction_on_apdu` calls [`on_segment_ack`]. All here is private to the crate.
ghost use Rattle.bac_segment.specs.Window.{acknowledged};
ghost use Rattle.bac_protocol.specs.Client.{moves_request_window};
ghost use Rattle.bac_requester.specs.Fits.{IsShort};
ghost use Rattle.bac_requester.specs.Transitions.{TriesTransition};
ghost use Rattle.bac_transaction.specs.Views.{context_view};
ghost use Rattle.bac_requester.specs.TransactionViews.{ticket_view};

use crate::begin::ends_all;
use crate::sending::window;
use crate::transaction::{Phase, RequestState};
use crate::transition::{Transition, nothing};
use bac_apdu::Window;
use bac_segment::Progress;
use bac_transaction::Context;
use bac_value::NoMemory;
use std::alloc::Global;

/// What a SegmentACK of the server says (clause 20.1.6).
#[derive(Clone, Copy)]
pub(crate) struct ReceivedAck {
    /// The number of the last segment that the server took in order, modulo 256.
    pub(crate) number: u8,
    /// The window that it grants.
    pub(crate) window: Window,
}

/// A SegmentACK of the server comes in SEGMENTED_REQUEST.
pub(crate) fn on_segment_ack(
    alloc: Global,
    context: &Context,
    core: &mut RequestState,
    phase: &mut Phase,
    all_sent: bool,
    ack: ReceivedAck,
) -> Result<Transition, NoMemory>
    requires { IsShort core.old.whole core.old.outgoing }
    ensures short { IsShort core.new.whole core.new.outgoing }
    ensures reacts { TriesTransition context.now (ticket_view core.old phase.old) (moves_request_window (context_view context.now) core.old.choice all_sent
        (acknowledged context.now.settings.window.size core.old.outgoing ack.number ack.window.size)) result (ticket_view core.new phase.new) }
{
    // to go back to, should the next window find no memory
    let was = core.outgoing.position();
    match core
        .outgoing
        .on_ack(ack.number, ack.window, context.settings.window)
    {
        // DuplicateACK_Received; own: the timer runs on
        Progress::Ignored => Ok(nothing(alloc)),
        // FinalACK_Received
        Progress::Finished => {
            core.since = context.moment;
            *phase = Phase::AwaitConfirmation;
            Ok(nothing(alloc))
        }
        // NewACK_Received
        Progress::Moved => {
            let Ok(sends) = window(alloc, context, core.choice, &core.outgoing) else {
                core.outgoing.go_back(was);
                return Err(NoMemory);
            };
            let all_sent = all_sent || ends_all(&core.outgoing);
            core.since = context.moment;
            *phase = Phase::SegmentedRequest { all_sent };
            Ok(Transition {
                sends,
                ending: None,
            })
        }
    }
}
