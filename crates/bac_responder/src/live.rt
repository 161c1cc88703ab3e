//! An APDU for a live entry, in each of its states. `hearing` calls it.
ghost use Rattle.std.specs.Prelude.{◌≡◌};
ghost use Rattle.bac_apdu.specs.Views.{apdu_view};
ghost use Rattle.bac_protocol.specs.Server as machine;
ghost use Rattle.bac_protocol.specs.Server.State.{Done};
ghost use Rattle.bac_store.specs.Stores.{Store as Objects};
ghost use Rattle.bac_protocol.specs.Short.{IsShort};
ghost use Rattle.bac_responder.specs.Reactions.{Answers};
ghost use Rattle.bac_transaction.specs.Services.{service_of};
ghost use Rattle.bac_transaction.specs.Views.{context_view, peer_of};
ghost use Rattle.bac_responder.specs.TransactionViews.{entry_of, kept_reply_view};

use crate::kept_reply::KeptReply;
use crate::performed::Performed;
use crate::repeats::is_repeated;
use crate::server_transaction::{Origin, ServerTransaction, State};
use bac_apdu::Apdu;
use bac_protocol::reasons::OTHER;
use bac_store::Store;
use bac_transaction::{Context, only_abort, only_apdu};
use bac_value::NoMemory;
use std::alloc::Global;

/// An APDU comes where a reply of one APDU is kept: it is sent again for a copy of the request.
fn done_on_apdu(
    alloc: Global,
    context: &Context,
    origin: &Origin,
    invoke_id: u8,
    kept: &KeptReply,
    apdu: &Apdu<'_>,
) -> Result<Performed, NoMemory>
    requires { IsShort (kept_reply_view invoke_id origin.now.terms.choice kept.now) }
    ensures { (s : Objects) → Answers (machine.done_on_apdu (context_view context.now)
        (entry_of origin.now (Done (kept_reply_view invoke_id origin.now.terms.choice kept.now))) (kept_reply_view invoke_id origin.now.terms.choice kept.now)
        (apdu_view apdu.now)) (peer_of context.now) (entry_of origin.now (Done (kept_reply_view invoke_id origin.now.terms.choice kept.now)))
        (entry_of origin.now (Done (kept_reply_view invoke_id origin.now.terms.choice kept.now))) s result s }
{
    let Apdu::ConfirmedRequest {
        segment,
        choice,
        service,
        ..
    } = *apdu
    else {
        return Ok(Performed::nothing(alloc));
    };
    if !is_repeated(origin, segment, choice, service) {
        let sends = only_abort(alloc, context, true, OTHER)?;
        return Ok(Performed::sends(sends));
    }
    let kept = kept.as_apdu(invoke_id, origin.terms.choice);
    let sends = only_apdu(alloc, context, &kept)?;
    Ok(Performed::sends(sends))
}

/// After a reassembly that was given up, each request and each segment gets an Abort.
fn dropped_on_apdu(alloc: Global, context: &Context, apdu: &Apdu<'_>) -> Result<Performed, NoMemory>
    ensures { (e : machine.ServerTransaction) (s : Objects) → Answers (machine.dropped_on_apdu (context_view context.now) e (apdu_view apdu.now))
        (peer_of context.now) e e s result s }
{
    match apdu {
        Apdu::ConfirmedRequest { .. } => {
            let sends = only_abort(alloc, context, true, OTHER)?;
            Ok(Performed::sends(sends))
        }
        _ => Ok(Performed::nothing(alloc)),
    }
}

impl ServerTransaction {
    /// An APDU comes for the entry, which must be live, and the entry goes on by its state (clause 5.4.5).
    ///
    /// A request that is being received goes on with its next segment, and is performed with its last one. A kept reply is sent again, or its
    /// transfer in segments goes on. Another request with the invoke ID gets an Abort with reason 0, and so does each request after a reassembly that
    /// was given up. What the state does not name is ignored. An Err says that an allocation failed; the entry and the store are then as before.
    pub fn on_apdu(
        &mut self,
        alloc: Global,
        context: &Context,
        apdu: &Apdu<'_>,
        store: &mut Store,
    ) -> Result<Performed, NoMemory>
        ensures { Answers (machine.live_on_apdu (context_view context.now) (service_of store.old) self.old self.old.state (apdu_view apdu.now))
            (peer_of context.now) self.old self.new store.old result store.new }
    {
        let ServerTransaction { origin, state } = self;
        match state {
            State::SegmentedRequest(reassembly) => {
                let (performed, next) = reassembly.on_apdu(alloc, context, origin, apdu, store)?;
                match next {
                    None => Ok(performed),
                    Some(next) => {
                        *state = next;
                        Ok(performed)
                    }
                }
            }
            State::Done { invoke_id, kept } => {
                done_on_apdu(alloc, context, origin, *invoke_id, kept, apdu)
            }
            State::SegmentedResponse(reply) => reply.on_apdu(alloc, context, origin, apdu),
            State::Dropped => dropped_on_apdu(alloc, context, apdu),
        }
    }
}
