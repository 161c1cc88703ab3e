//! What either end answers at once: the datagrams of one short APDU, in a vector.
ghost use Rattle.std.specs.Prelude.{◌≡◌, ◌∷◌, [], IfOk};
ghost use Rattle.bac_apdu.specs.Apdu.Apdu.{Abort};
ghost use Rattle.bac_apdu.specs.Views.{apdu_view};
ghost use Rattle.bac_protocol.specs.Short.{IsShort};
ghost use Rattle.bac_transaction.specs.Segments.{ack_of, acks_of};
ghost use Rattle.bac_transaction.specs.Sends.{IsSent, Pairwise, to_all};
ghost use Rattle.bac_transaction.specs.Views.{context_view, peer_of};

use crate::context::Context;
use crate::datagram::{Datagram, datagram_of};
use bac_apdu::{Apdu, Window};
use bac_segment::Step;
use bac_value::NoMemory;
use std::alloc::Global;

/// An APDU to the other end, alone. `NoMemory` if memory is refused, as of each call here.
pub fn only_apdu(
    alloc: Global,
    context: &Context,
    apdu: &Apdu<'_>,
) -> Result<Vec<Datagram>, NoMemory>
    requires { IsShort (apdu_view apdu.now) }
    ensures { IfOk result (λ v. Pairwise IsSent (to_all (peer_of context.now) (apdu_view apdu.now ∷ [])) v.items) }
{
    let mut sends = Vec::with_capacity(alloc, 1)?;
    let datagram = datagram_of(alloc, &context.key.peer, apdu)?;
    sends.push_reserved(datagram);
    Ok(sends)
}

/// An Abort, alone (clause 20.1.9); `server` says whether the sender is the server.
#[tactic(auto, using(crate::proofs::Short::short_abort))]
pub fn only_abort(
    alloc: Global,
    context: &Context,
    server: bool,
    reason: u8,
) -> Result<Vec<Datagram>, NoMemory>
    ensures { IfOk result (λ v. Pairwise IsSent (to_all (peer_of context.now) (Abort server (context_view context.now).invoke_id reason ∷ [])) v.items) }
{
    let abort = Apdu::Abort {
        server,
        invoke_id: context.key.invoke_id,
        reason,
    };
    only_apdu(alloc, context, &abort)
}

/// A SegmentACK, alone (clause 20.1.6); `server` says whether the sender is the server, `nak` whether a segment was out of order, and `number` is
/// that of the last segment taken in order, modulo 256.
#[tactic(auto, using(crate::proofs::Short::short_ack))]
pub fn only_ack(
    alloc: Global,
    context: &Context,
    server: bool,
    nak: bool,
    number: u8,
    window: Window,
) -> Result<Vec<Datagram>, NoMemory>
    ensures { IfOk result (λ v. Pairwise IsSent (to_all (peer_of context.now) (ack_of server (context_view context.now) nak number window.size ∷ [])) v.items) }
{
    let ack = Apdu::SegmentAck {
        nak,
        server,
        invoke_id: context.key.invoke_id,
        number,
        window,
    };
    only_apdu(alloc, context, &ack)
}

/// What a segment of that number is answered by a receiver that took so many before it and has that window: a SegmentACK, or nothing
/// (clauses 5.4.4.4 and 5.4.5.2); `server` says whether the sender is the server.
pub fn step_acks(
    alloc: Global,
    context: &Context,
    server: bool,
    number: u8,
    window: Window,
    taken: usize,
    step: Step,
) -> Result<Vec<Datagram>, NoMemory>
    ensures { IfOk result (λ v. Pairwise IsSent (to_all (peer_of context.now) (acks_of server (context_view context.now) number window.size taken step)) v.items) }
{
    match step {
        Step::Taken { ack: false } => Ok(Vec::new(alloc)),
        Step::Taken { ack: true } | Step::Whole => only_ack(
            alloc, context, server, false, number, window,
        ),
        Step::Nak => {
            let last = (taken.saturating_sub(1) % 256) as u8;
            only_ack(alloc, context, server, true, last, window)
        }
    }
}
