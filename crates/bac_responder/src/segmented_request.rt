//! SEGMENTED_REQUEST (clause 5.4.5.2): a request that is received in segments. `live` calls it for each APDU in this state, and `idle` for segment 0.
ghost use Rattle.std.specs.Prelude.{◌≡◌, IfOk, Ok};
ghost use Rattle.std.specs.Option.{option_map};
ghost use Rattle.bac_apdu.specs.Views.{apdu_view, limits_view, segment_view};
ghost use Rattle.bac_segment.specs.Answers.{answer_of};
ghost use Rattle.bac_segment.specs.Pieces.{join};
ghost use Rattle.bac_segment.specs.Window.{takes};
ghost use Rattle.bac_segment.specs.declared.incoming.Step.TheVariants as step;
ghost use Rattle.bac_protocol.specs.Server as machine;
ghost use Rattle.bac_responder.specs.Segments.{IsWhole, Receives, TakesLast, TakesSegment};
ghost use Rattle.bac_transaction.specs.Services.{service_of};
ghost use Rattle.bac_transaction.specs.Views.{context_view, peer_of};
ghost use Rattle.bac_responder.specs.TransactionViews.{entry_of, reassembly_state};

use crate::performed::Performed;
use crate::performing::commit;
use crate::reading::read_segments;
use crate::replying::{PreparedReply, prepare_reply};
use crate::server_transaction::{Origin, Reassembly, State, Terms};
use bac_apdu::{Apdu, Segment};
use bac_protocol::reasons::{BUFFER_OVERFLOW, OTHER};
use bac_protocol::times::T_WAIT_FOR_SEG;
use bac_segment::{Incoming, Step};
use bac_store::Store;
use bac_transaction::{Context, only_abort, only_ack, step_acks};
use bac_value::{NoMemory, copy_of};
use std::alloc::Global;

/// The whole request is there: the SegmentACK of its last segment, and its reply.
fn prepare_whole(
    alloc: Global,
    context: &Context,
    terms: Terms,
    incoming: &Incoming,
    number: u8,
    store: &Store,
) -> Result<PreparedReply, NoMemory>
    ensures { IfOk result (IsWhole (context_view context.now) (peer_of context.now) terms.choice (limits_view terms.limits) store.now number
        incoming.now.window (join incoming.now.parts)) }
{
    let mut sends = only_ack(alloc, context, true, false, number, incoming.window())?;
    let found = read_segments(alloc, terms.choice, incoming)?;
    let PreparedReply {
        state,
        sends: mut last,
        commit,
    } = prepare_reply(alloc, context, terms, found, store)?;
    sends.append(&mut last)?;
    Ok(PreparedReply {
        state,
        sends,
        commit,
    })
}

/// The first piece of a request that is whole, where no other one has its number, which counts modulo 256.
fn first_kept(alloc: Global, incoming: &Incoming) -> Result<Option<Vec<u8>>, NoMemory>
    ensures { IfOk result (λ first. option_map (λ v. v.items) first ≡ machine.first_of incoming.now.parts) }
{
    if incoming.taken() > 256 {
        return Ok(None);
    }
    let first = copy_of(alloc, incoming.first())?;
    Ok(Some(first))
}

/// The whole request is there: its reply, as above, and its first piece, where it is kept.
fn prepare_last(
    alloc: Global,
    context: &Context,
    terms: Terms,
    incoming: &Incoming,
    number: u8,
    store: &Store,
) -> Result<(PreparedReply, Option<Vec<u8>>), NoMemory>
    ensures { IfOk result (λ x. IsWhole (context_view context.now) (peer_of context.now) terms.choice (limits_view terms.limits) store.now number
        incoming.now.window (join incoming.now.parts) x.0 × (option_map (λ v. v.items) x.1 ≡ machine.first_of incoming.now.parts)) }
{
    let first = first_kept(alloc, incoming)?;
    let reply = prepare_whole(alloc, context, terms, incoming, number, store)?;
    Ok((reply, first))
}

/// A segment of a request that was received: its place, and its octets of service data.
#[derive(Clone, Copy)]
pub(crate) struct ReceivedSegment<'a> {
    pub(crate) segment: Segment,
    pub(crate) octets: &'a [u8],
}

impl Reassembly {
    /// The last segment comes (LastSegmentOfMessageReceived): the reply, and the first piece, where it is kept. Where an allocation fails, the segment is
    /// taken back.
    fn take_last(
        &mut self,
        alloc: Global,
        context: &Context,
        terms: Terms,
        received: ReceivedSegment<'_>,
        store: &Store,
    ) -> Result<(PreparedReply, Option<Vec<u8>>), NoMemory>
        requires { Ok step.Whole ≡ answer_of (takes self.old.incoming received.segment.number received.segment.more received.octets.now) }
        ensures { TakesLast (context_view context.now) (peer_of context.now) terms.choice (limits_view terms.limits) store.now
            received.entry.segment.number (takes self.old.incoming received.entry.segment.number received.entry.segment.more received.entry.octets.now)
            self.old self.new result }
    {
        let ReceivedSegment { segment, octets } = received;
        // to take the segment back, should the reply find no memory
        let unacknowledged = self.incoming.unacknowledged();
        let Ok(_) = self
            .incoming
            .on_segment(segment.number, segment.more, octets)
        else {
            return Err(NoMemory);
        };
        let incoming = &self.incoming;
        let Ok(prepared) = prepare_last(alloc, context, terms, incoming, segment.number, store)
        else {
            self.incoming.take_back(unacknowledged);
            return Err(NoMemory);
        };
        Ok(prepared)
    }

    /// A segment comes in time: what it makes the entry send, what is performed, and the state that follows; None where more segments are awaited
    /// (NewSegmentReceived, LastSegmentOfGroupReceived, SegmentReceivedOutOfOrder, NewSegmentReceived_NoSpace, LastSegmentOfMessageReceived). After an Err
    /// the reassembly and the store are as they were.
    pub(crate) fn take_segment(
        &mut self,
        alloc: Global,
        context: &Context,
        origin: &mut Origin,
        received: ReceivedSegment<'_>,
        store: &mut Store,
    ) -> Result<(Performed, Option<State>), NoMemory>
        ensures { TakesSegment (λ z. machine.request_segment_taken (context_view context.now) (service_of store.old) (entry_of origin.old z)
            received.entry.segment.number self.old.incoming.window
            (takes self.old.incoming received.entry.segment.number received.entry.segment.more received.entry.octets.now))
            (peer_of context.now) origin.old origin.new self.old self.new store.old result store.new }
    {
        let ReceivedSegment { segment, octets } = received;
        let Ok(step) = self.incoming.answer(segment.number, segment.more, octets) else {
            let sends = only_abort(alloc, context, true, BUFFER_OVERFLOW)?;
            return Ok((Performed::sends(sends), Some(State::Dropped)));
        };
        if let Step::Whole = step {
            let (prepared, first) = self.take_last(alloc, context, origin.terms, received, store)?;
            let PreparedReply {
                state,
                sends,
                commit: change,
            } = prepared;
            let effect = commit(change, store);
            origin.first = first;
            return Ok((Performed { sends, effect }, Some(state)));
        }
        let (window, taken) = (self.incoming.window(), self.incoming.taken());
        let sends = step_acks(alloc, context, true, segment.number, window, taken, step)?;
        let Ok(_) = self
            .incoming
            .on_segment(segment.number, segment.more, octets)
        else {
            return Err(NoMemory);
        };
        // each segment in time starts the timer anew, also one out of order
        self.since = context.moment;
        Ok((Performed::sends(sends), None))
    }

    /// A segment comes; one that comes 8,000 ms after the last one, or later, ends the reassembly.
    fn on_segment(
        &mut self,
        alloc: Global,
        context: &Context,
        origin: &mut Origin,
        received: ReceivedSegment<'_>,
        store: &mut Store,
    ) -> Result<(Performed, Option<State>), NoMemory>
        ensures { TakesSegment (λ z. machine.segmented_request_on_segment (context_view context.now) (service_of store.old) (entry_of origin.old z)
            self.old.incoming self.old.since (segment_view received.entry.segment) received.entry.octets.now)
            (peer_of context.now) origin.old origin.new self.old self.new store.old result store.new }
    {
        if context.moment.saturating_sub(self.since) >= T_WAIT_FOR_SEG {
            let sends = only_abort(alloc, context, true, OTHER)?;
            return Ok((Performed::sends(sends), Some(State::Dropped)));
        }
        self.take_segment(alloc, context, origin, received, store)
    }

    /// An APDU comes while a request is received in segments: what it makes the entry send, what is performed, and the state that follows; None where it
    /// stays in this one. After an Err the reassembly and the store are as they were.
    pub(crate) fn on_apdu(
        &mut self,
        alloc: Global,
        context: &Context,
        origin: &mut Origin,
        apdu: &Apdu<'_>,
        store: &mut Store,
    ) -> Result<(Performed, Option<State>), NoMemory>
        ensures { Receives (machine.segmented_request_on_apdu (context_view context.now) (service_of store.old) (entry_of origin.old (reassembly_state self.old))
            self.old.incoming self.old.since (apdu_view apdu.now)) (peer_of context.now) origin.old origin.new self.old self.new store.old result store.new }
    {
        match *apdu {
            Apdu::ConfirmedRequest {
                segment,
                service: octets,
                ..
            } => match segment {
                Some(segment) => {
                    let received = ReceivedSegment { segment, octets };
                    self.on_segment(alloc, context, origin, received, store)
                }
                None => Ok((Performed::nothing(alloc), None)),
            },
            // AbortPDU_Received; own: the entry is remembered
            Apdu::Abort { server: false, .. } => {
                Ok((Performed::nothing(alloc), Some(State::Dropped)))
            }
            _ => Ok((Performed::nothing(alloc), None)),
        }
    }
}
