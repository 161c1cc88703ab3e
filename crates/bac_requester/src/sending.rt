//! The datagrams that a client sends. The handlers of the states call it; all here is private to the crate.
ghost use Rattle.std.specs.Prelude.{◌≡◌, ◌+◌, ◌-◌, ◌<◌, ◌≤◌, ◌∷◌, [], None, IfOk, length};
ghost use Rattle.bac_apdu.specs.Apdu.Apdu.{ConfirmedRequest};
ghost use Rattle.bac_apdu.specs.Views.{apdu_view};
ghost use Rattle.bac_segment.specs.Window.{in_window};
ghost use Rattle.bac_protocol.specs.Client.{client_abort, request_piece, request_window};
ghost use Rattle.bac_protocol.specs.Wire.{pieces_from};
ghost use Rattle.bac_transaction.specs.Sends.{IsSent, Pairwise, to_all, to_peer};
ghost use Rattle.bac_transaction.specs.Segments.{ArePiecesShort};
ghost use Rattle.bac_transaction.specs.Views.{context_view, peer_of};

use bac_apdu::{Apdu, Segment};
use bac_segment::Outgoing;
use bac_transaction::{Context, Datagram, datagram_of, only_apdu};
use bac_value::NoMemory;
use std::alloc::Global;

/// An Abort.
#[tactic(auto, using(bac_transaction::proofs::Short::short_abort))]
pub(crate) fn abort(alloc: Global, context: &Context, reason: u8) -> Result<Datagram, NoMemory>
    ensures { IfOk result (IsSent (to_peer (peer_of context.now) (client_abort (context_view context.now) reason))) }
{
    let abort = Apdu::Abort {
        server: false,
        invoke_id: context.key.invoke_id,
        reason,
    };
    datagram_of(alloc, &context.key.peer, &abort)
}

/// The whole request, in one APDU.
#[tactic(auto, using(crate::proofs::Short::whole_is_short))]
pub(crate) fn whole_request(
    alloc: Global,
    context: &Context,
    choice: u8,
    service: &[u8],
) -> Result<Vec<Datagram>, NoMemory>
    requires { length service.now ≤ 1472 }
    ensures { IfOk result (λ v. Pairwise IsSent (to_all (peer_of context.now)
        (ConfirmedRequest (context_view context.now).settings.limits (context_view context.now).invoke_id None choice service.now ∷ [])) v.items) }
{
    let request = Apdu::ConfirmedRequest {
        limits: context.settings.limits,
        invoke_id: context.key.invoke_id,
        segment: None,
        choice,
        service,
    };
    only_apdu(alloc, context, &request)
}

/// Piece `n` of a request as an APDU, counted from 0 (clause 20.1.2).
fn piece_apdu<'a>(context: &Context, choice: u8, outgoing: &'a Outgoing, n: usize) -> Apdu<'a>
    requires { n < length outgoing.now.pieces }
    ensures { apdu_view result ≡ request_piece (context_view context.now) choice outgoing.now.pieces n }
{
    let count = outgoing.count();
    let segment = Segment {
        more: n + 1 < count,
        // sequence numbers count modulo 256
        number: (n % 256) as u8,
        window: context.settings.window,
    };
    Apdu::ConfirmedRequest {
        limits: context.settings.limits,
        invoke_id: context.key.invoke_id,
        segment: Some(segment),
        choice,
        service: outgoing.piece(n),
    }
}

/// The datagram of piece `n` of a request.
fn piece(
    alloc: Global,
    context: &Context,
    choice: u8,
    outgoing: &Outgoing,
    n: usize,
) -> Result<Datagram, NoMemory>
    requires within { n < length outgoing.now.pieces }
    requires short { ArePiecesShort 1470 outgoing.now }
    ensures { IfOk result (IsSent (to_peer (peer_of context.now) (request_piece (context_view context.now) choice outgoing.now.pieces n))) }
{
    let apdu = piece_apdu(context, choice, outgoing, n);
    datagram_of(alloc, &context.key.peer, &apdu)
}

/// The pieces of a request from one on, up to another.
pub(crate) fn pieces(
    alloc: Global,
    context: &Context,
    choice: u8,
    outgoing: &Outgoing,
    start: usize,
    end: usize,
) -> Result<Vec<Datagram>, NoMemory>
    requires forward { start ≤ end }
    requires within { end ≤ length outgoing.now.pieces }
    requires short { ArePiecesShort 1470 outgoing.now }
    ensures { IfOk result (λ v. Pairwise IsSent (to_all (peer_of context.now)
        (pieces_from (request_piece (context_view context.now) choice outgoing.now.pieces) start (end - start))) v.items) }
{
    let mut sends = Vec::with_capacity(alloc, end - start)?;
    for n in start..end {
        let datagram = piece(alloc, context, choice, outgoing, n)?;
        sends.push_reserved(datagram);
    }
    Ok(sends)
}

/// The window of a request.
pub(crate) fn window(
    alloc: Global,
    context: &Context,
    choice: u8,
    outgoing: &Outgoing,
) -> Result<Vec<Datagram>, NoMemory>
    requires { ArePiecesShort 1470 outgoing.now }
    ensures { IfOk result (λ v. Pairwise IsSent (to_all (peer_of context.now) (request_window (context_view context.now) choice outgoing.now)) v.items) }
{
    let window = outgoing.window();
    pieces(alloc, context, choice, outgoing, window.start, window.end)
}
