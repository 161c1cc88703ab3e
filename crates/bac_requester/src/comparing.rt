//! Whether contracts see a difference between two transactions. `Requester::same` calls it, through `Client`; all here is private to the crate.
ghost use Rattle.std.specs.Prelude.{◌≡◌, ◌<◌, ◌↔◌, IsTrue, length};
ghost use Rattle.bac_segment.specs.Pieces.{piece_at};
ghost use Rattle.bac_requester.specs.TransactionViews.{ask_view, held_view};

use crate::transaction::{ClientTransaction, Phase, RequestState};
use crate::transaction_slot::TransactionSlot;
use bac_segment::Outgoing;

/// Whether a piece of both is the same.
fn same_piece(one: &Outgoing, other: &Outgoing, n: usize) -> bool
    requires ours { n < length one.now.pieces }
    requires theirs { n < length other.now.pieces }
    ensures { IsTrue result ↔ (piece_at one.now.pieces n ≡ piece_at other.now.pieces n) }
{
    one.piece(n) == other.piece(n)
}

/// Whether both senders have the same pieces, whatever they have sent.
fn same_pieces(one: &Outgoing, other: &Outgoing) -> bool
    ensures { IsTrue result ↔ (one.now.pieces ≡ other.now.pieces) }
{
    if one.count() != other.count() {
        return false;
    }
    for n in 0..one.count() {
        if !same_piece(one, other, n) {
            return false;
        }
    }
    true
}

/// Whether both have asked the same at the same moment.
fn same_ask(one: &RequestState, other: &RequestState) -> bool
    ensures { IsTrue result ↔ (ask_view one.now ≡ ask_view other.now) }
{
    if one.first != other.first {
        return false;
    }
    if one.choice != other.choice {
        return false;
    }
    if one.whole != other.whole {
        return false;
    }
    // one that goes whole is not cut, so it has no pieces to compare
    if one.whole {
        one.outgoing.octets() == other.outgoing.octets()
    } else {
        same_pieces(&one.outgoing, &other.outgoing)
    }
}

/// Whether both are in the same state, with the same progress of their transfers.
fn same_phase(one: &ClientTransaction, other: &ClientTransaction) -> bool
    ensures { IsTrue result ↔ (one.now.phase ≡ other.now.phase) }
{
    match &one.phase {
        Phase::SegmentedRequest { all_sent } => match &other.phase {
            Phase::SegmentedRequest { all_sent: sent } => {
                all_sent == sent && one.core.outgoing.same(&other.core.outgoing)
            }
            _ => false,
        },
        Phase::AwaitConfirmation => matches!(other.phase, Phase::AwaitConfirmation),
        Phase::SegmentedConf { incoming } => match &other.phase {
            Phase::SegmentedConf { incoming: taken } => incoming.same(taken),
            _ => false,
        },
    }
}

impl ClientTransaction {
    /// Whether contracts see no difference: the same request at the same moment, in the same state.
    pub(crate) fn same(&self, other: &ClientTransaction) -> bool
        ensures { IsTrue result ↔ (self.now ≡ other.now) }
    {
        if self.core.repeats != other.core.repeats {
            return false;
        }
        if self.core.since != other.core.since {
            return false;
        }
        if !same_ask(&self.core, &other.core) {
            return false;
        }
        same_phase(self, other)
    }
}

impl TransactionSlot {
    /// Whether contracts see no difference between what both keep.
    pub(crate) fn same(&self, other: &TransactionSlot) -> bool
        ensures { IsTrue result ↔ (held_view self.now ≡ held_view other.now) }
    {
        match self {
            TransactionSlot::Open(transaction) => match other {
                TransactionSlot::Open(open) => transaction.same(open),
                TransactionSlot::Closed { .. } => false,
            },
            TransactionSlot::Closed { first } => match other {
                TransactionSlot::Open(_) => false,
                TransactionSlot::Closed { first: ended } => first == ended,
            },
        }
    }
}
