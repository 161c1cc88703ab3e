//! SEGMENTED_CONF (clause 5.4.4.4): a reply that comes in segments.
//!
//! `transaction_on_apdu` calls [`on_next_segment`], `await_confirmation` calls [`takes_segment`] for the first one. All here is private to the crate.
ghost use Rattle.std.specs.Prelude.{◌≡◌, ◌∷◌, [], IfOk, Ok, false, length};
ghost use Rattle.bac_apdu.specs.Views.{segment_view};
ghost use Rattle.bac_segment.specs.Pieces.{join};
ghost use Rattle.bac_segment.specs.Answers.{answer_of};
ghost use Rattle.bac_segment.specs.Window.{takes};
ghost use Rattle.bac_segment.specs.Window.Taking.{TooLong};
ghost use Rattle.bac_segment.specs.declared.incoming.Step.TheVariants.{Whole};
ghost use Rattle.bac_service.specs.Services.{reads_reply};
ghost use Rattle.bac_protocol.specs.Client.{answered_with, client_ack, conf_segment_taken, on_next_segment};
ghost use Rattle.bac_requester.specs.Fits.{IsShort};
ghost use Rattle.bac_requester.specs.Transitions.{IsClosing, TakesSegment, TriesTransition};
ghost use Rattle.bac_transaction.specs.Views.{context_view};
ghost use Rattle.bac_requester.specs.TransactionViews.{ask_view, ticket_view};
ghost use Rattle.bac_requester.specs.declared.transaction.Phase.TheVariants.{SegmentedConf as Conf};

use crate::ending::Ending;
use crate::reading::read_parts;
use crate::sending::abort;
use crate::transaction::RequestState;
use crate::transition::{Closing, Transition, closes, nothing};
use bac_apdu::Segment;
use bac_protocol::reasons::{BUFFER_OVERFLOW, OTHER};
use bac_segment::{Incoming, Step};
use bac_service::AnyReply;
use bac_transaction::{Context, only_abort, only_ack, step_acks};
use bac_value::NoMemory;
use std::alloc::Global;

/// All segments are there.
fn close_with_segments(
    alloc: Global,
    context: &Context,
    choice: u8,
    incoming: &Incoming,
    number: u8,
) -> Result<Closing, NoMemory>
    ensures { IfOk result (IsClosing context.now choice (answered_with (context_view context.now) reads_reply choice
        (client_ack (context_view context.now) false number incoming.now.window ∷ []) (join incoming.now.parts))) }
{
    let mut sends = only_ack(alloc, context, false, false, number, incoming.window())?;
    let Some(complex) = read_parts(alloc, choice, incoming)? else {
        // the last segment is acknowledged all the same, before the Abort
        let abort = abort(alloc, context, OTHER)?;
        sends.push(abort)?;
        return Ok(Closing {
            sends,
            ending: Ending::Aborted(OTHER),
        });
    };
    Ok(Closing {
        sends,
        ending: Ending::Answered(AnyReply::Complex(complex)),
    })
}

/// The reassembly has grown too long (NewSegmentReceived_NoSpace).
fn too_long(
    alloc: Global,
    context: &Context,
    core: &RequestState,
    incoming: &Incoming,
) -> Result<Transition, NoMemory>
    ensures { TakesSegment context.now (conf_segment_taken (context_view context.now) reads_reply core.now.choice 0 0 TooLong) core.now incoming.now result
        incoming.now }
{
    let sends = only_abort(alloc, context, false, BUFFER_OVERFLOW)?;
    let closing = Closing {
        sends,
        ending: Ending::Aborted(BUFFER_OVERFLOW),
    };
    Ok(closes(closing))
}

/// The last segment comes (LastSegmentOfComplexACK_Received).
fn takes_last(
    alloc: Global,
    context: &Context,
    core: &RequestState,
    incoming: &mut Incoming,
    segment: Segment,
    octets: &[u8],
) -> Result<Transition, NoMemory>
    requires { answer_of (takes incoming.old segment.number segment.more octets.now) ≡ Ok Whole }
    ensures { TakesSegment context.now (conf_segment_taken (context_view context.now) reads_reply core.now.choice segment.number incoming.old.window
        (takes incoming.old segment.number segment.more octets.now)) core.now incoming.old result incoming.new }
{
    // to take the segment back, should the answer find no memory
    let unacknowledged = incoming.unacknowledged();
    let Ok(_) = incoming.on_segment(segment.number, segment.more, octets) else {
        return Err(NoMemory);
    };
    let Ok(closing) = close_with_segments(alloc, context, core.choice, incoming, segment.number)
    else {
        incoming.take_back(unacknowledged);
        return Err(NoMemory);
    };
    Ok(closes(closing))
}

/// A segment comes, of the reply that is awaited (NewSegmentReceived, LastSegmentOfGroupReceived, SegmentReceivedOutOfOrder and those above).
pub(crate) fn takes_segment(
    alloc: Global,
    context: &Context,
    core: &RequestState,
    incoming: &mut Incoming,
    segment: Segment,
    octets: &[u8],
) -> Result<Transition, NoMemory>
    ensures { TakesSegment context.now (conf_segment_taken (context_view context.now) reads_reply core.now.choice segment.number incoming.old.window
        (takes incoming.old segment.number segment.more octets.now)) core.now incoming.old result incoming.new }
{
    let Ok(step) = incoming.answer(segment.number, segment.more, octets) else {
        return too_long(alloc, context, core, incoming);
    };
    if let Step::Whole = step {
        return takes_last(alloc, context, core, incoming, segment, octets);
    }
    let (window, taken) = (incoming.window(), incoming.taken());
    let sends = step_acks(alloc, context, false, segment.number, window, taken, step)?;
    let Ok(_) = incoming.on_segment(segment.number, segment.more, octets) else {
        return Err(NoMemory);
    };
    Ok(Transition {
        sends,
        ending: None,
    })
}

/// A segment of a ComplexACK (clause 20.1.5): its place, the service choice, and its octets of service data.
#[derive(Clone, Copy)]
pub(crate) struct ReceivedSegment<'a> {
    pub(crate) segment: Segment,
    pub(crate) choice: u8,
    pub(crate) octets: &'a [u8],
}

/// A further segment of a ComplexACK comes in SEGMENTED_CONF.
pub(crate) fn on_next_segment(
    alloc: Global,
    context: &Context,
    core: &mut RequestState,
    incoming: &mut Incoming,
    received: ReceivedSegment<'_>,
) -> Result<Transition, NoMemory>
    requires { IsShort core.old.whole core.old.outgoing }
    ensures short { IsShort core.new.whole core.new.outgoing }
    ensures reacts { TriesTransition context.now (ticket_view core.old (Conf incoming.old))
        (on_next_segment (context_view context.now) reads_reply (ask_view core.old) incoming.old
        (segment_view received.entry.segment) received.entry.choice received.entry.octets.now) result
        (ticket_view core.new (Conf incoming.new)) }
{
    let ReceivedSegment {
        segment,
        choice,
        octets,
    } = received;
    if choice != core.choice {
        return Ok(nothing(alloc));
    }
    let transition = takes_segment(alloc, context, core, incoming, segment, octets)?;
    // each segment starts the timer anew, also one out of order
    core.since = context.moment;
    Ok(transition)
}
