//! IDLE (clause 5.4.5.1): an APDU where no entry of its key is live. `beginning` calls it for all but reads that are performed anew.
ghost use Rattle.std.specs.Prelude.{◌≡◌, true};
ghost use Rattle.bac_apdu.specs.Views.{apdu_view, limits_view, segment_view};
ghost use Rattle.bac_protocol.specs.Server as machine;
ghost use Rattle.bac_responder.specs.Reactions.{IdleReacts, BeginsAt, BeginsWhereFree};
ghost use Rattle.bac_transaction.specs.Services.{service_of};
ghost use Rattle.bac_transaction.specs.Views.{context_view, peer_of};

use crate::performed::Performed;
use crate::performing::commit;
use crate::reading::read_whole;
use crate::replying::{PreparedReply, prepare_reply};
use crate::segmented_request::ReceivedSegment;
use crate::server_transaction::{Origin, Reassembly, ServerTransaction, State, Terms};
use bac_apdu::{Apdu, Segment};
use bac_protocol::reasons::OTHER;
use bac_segment::Incoming;
use bac_store::Store;
use bac_transaction::{Context, only_abort};
use bac_value::NoMemory;
use std::alloc::Global;

/// A request without SEG comes, and a slot is free (ConfirmedUnsegmentedReceived): it is performed.
fn on_request(
    alloc: Global,
    context: &Context,
    terms: Terms,
    octets: &[u8],
    store: &mut Store,
) -> Result<(Performed, Option<ServerTransaction>), NoMemory>
    ensures { IdleReacts (λ dead. machine.idle_on_request (context_view context.now) (service_of store.old) dead true terms.choice
        (limits_view terms.limits) octets.now) (peer_of context.now) store.old result store.new }
{
    let found = read_whole(alloc, terms.choice, octets)?;
    let PreparedReply {
        state,
        sends,
        commit: change,
    } = prepare_reply(alloc, context, terms, found, store)?;
    // before the commit, so that nothing can fail once the store has changed
    let request = Vec::from_slice(alloc, octets)?;
    let effect = commit(change, store);
    let origin = Origin {
        begin: context.moment,
        terms,
        request: Some(request),
        first: None,
    };
    let transaction = ServerTransaction { origin, state };
    Ok((Performed { sends, effect }, Some(transaction)))
}

/// Segment 0 of a request comes, and a slot is free (ConfirmedSegmentedReceived).
fn on_first_segment(
    alloc: Global,
    context: &Context,
    terms: Terms,
    segment: Segment,
    octets: &[u8],
    store: &mut Store,
) -> Result<(Performed, Option<ServerTransaction>), NoMemory>
    requires { segment.number ≡ 0 }
    ensures { IdleReacts (λ dead. machine.idle_on_segment (context_view context.now) (service_of store.old) dead true terms.choice
        (limits_view terms.limits) (segment_view segment) octets.now) (peer_of context.now) store.old result store.new }
{
    let mut origin = Origin {
        begin: context.moment,
        terms,
        request: None,
        first: None,
    };
    let mut reassembly = Reassembly {
        incoming: Incoming::new(alloc, segment.window, context.settings.window),
        since: context.moment,
    };
    let received = ReceivedSegment { segment, octets };
    let (performed, next) = reassembly.take_segment(alloc, context, &mut origin, received, store)?;
    match next {
        None => {
            let state = State::SegmentedRequest(reassembly);
            Ok((performed, Some(ServerTransaction { origin, state })))
        }
        Some(state) => Ok((performed, Some(ServerTransaction { origin, state }))),
    }
}

/// An APDU comes where no entry of its key is live; `free` says whether a slot of the reply table has no live entry. What is sent, what is performed, and the
/// entry that begins, if any.
///
/// A request is performed, and segment 0 of one begins to be received, where a slot is free. Otherwise an Abort with reason 0 is sent, and nothing is
/// remembered. All else is ignored. An Err says that an allocation failed; the store is then as before.
pub fn idle_on_apdu(
    alloc: Global,
    context: &Context,
    free: bool,
    apdu: &Apdu<'_>,
    store: &mut Store,
) -> Result<(Performed, Option<ServerTransaction>), NoMemory>
    ensures does { IdleReacts (λ dead. machine.idle_on_apdu (context_view context.now) (service_of store.old) dead free (apdu_view apdu.now)) (peer_of context.now)
        store.old result store.new }
    ensures free { BeginsWhereFree free result }
    ensures begin { BeginsAt context.now.moment result }
{
    let Apdu::ConfirmedRequest {
        limits,
        segment,
        choice,
        service,
        ..
    } = *apdu
    else {
        return Ok((Performed::nothing(alloc), None));
    };
    let terms = Terms { choice, limits };
    match segment {
        // own: any segment but segment 0 is dropped
        Some(segment) if segment.number != 0 => Ok((Performed::nothing(alloc), None)),
        Some(segment) if free => {
            on_first_segment(alloc, context, terms, segment, service, store)
        }
        None if free => on_request(alloc, context, terms, service, store),
        _ => {
            let sends = only_abort(alloc, context, true, OTHER)?;
            Ok((Performed::sends(sends), None))
        }
    }
}
