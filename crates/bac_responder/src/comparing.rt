//! Whether contracts see a difference between two entries.
ghost use Rattle.std.specs.Prelude.{◌≡◌, ◌↔◌, ℕ, IsTrue, MatchBool};
ghost use Rattle.bac_protocol.specs.Server as machine;
ghost use Rattle.bac_responder.specs.TransactionViews.{spelled_view, kept_reply_view, state_view, transfer_view, entry_of};

use crate::kept_reply::{KeptReply, SpelledReply};
use crate::server_transaction::{Origin, ServerTransaction, State, Transfer};
use bac_slots::Same;

/// Whether two replies are equal, in their octets or their codes.
fn is_same_spelled(reply: &SpelledReply, other: &SpelledReply) -> bool
    ensures { MatchBool result (spelled_view reply.now ≡ spelled_view other.now) (spelled_view reply.now ≡ spelled_view other.now → ⊥) }
{
    match (reply, other) {
        (SpelledReply::Simple, SpelledReply::Simple) => true,
        (SpelledReply::Complex(octets), SpelledReply::Complex(others)) => octets == others,
        (
            SpelledReply::Error { class, code },
            SpelledReply::Error {
                class: other_class,
                code: other_code,
            },
        ) => class == other_class && code == other_code,
        _ => false,
    }
}

/// Whether two kept replies of one APDU are equal.
fn is_same_kept(kept: &KeptReply, other: &KeptReply) -> bool
    ensures { MatchBool result ((i c : ℕ) → kept_reply_view i c kept.now ≡ kept_reply_view i c other.now)
        ((i j c : ℕ) → kept_reply_view i c kept.now ≡ kept_reply_view j c other.now → ⊥) }
{
    match (kept, other) {
        (KeptReply::Reply(reply), KeptReply::Reply(other)) => is_same_spelled(reply, other),
        (KeptReply::Reject(reason), KeptReply::Reject(other)) => reason == other,
        (KeptReply::Abort(reason), KeptReply::Abort(other)) => reason == other,
        _ => false,
    }
}

/// Whether two transfers are equally far.
fn is_same_transfer(transfer: Transfer, other: Transfer) -> bool
    ensures { MatchBool result (transfer_view transfer ≡ transfer_view other) (transfer_view transfer ≡ transfer_view other → ⊥) }
{
    matches!(
        (transfer, other),
        (Transfer::Running, Transfer::Running)
            | (Transfer::Stopped, Transfer::Stopped)
            | (Transfer::Finished, Transfer::Finished)
    )
}

/// Whether two states are equal, with all that they keep.
fn is_same_state(state: &State, other: &State) -> bool
    ensures { MatchBool result ((c : ℕ) → state_view c state.now ≡ state_view c other.now)
        ((c : ℕ) → state_view c state.now ≡ state_view c other.now → ⊥) }
{
    match (state, other) {
        (State::SegmentedRequest(reassembly), State::SegmentedRequest(other)) => {
            reassembly.since == other.since && reassembly.incoming.same(&other.incoming)
        }
        (
            State::Done { invoke_id, kept },
            State::Done {
                invoke_id: other_id,
                kept: other_kept,
            },
        ) => invoke_id == other_id && is_same_kept(kept, other_kept),
        (State::SegmentedResponse(reply), State::SegmentedResponse(other)) => {
            reply.since == other.since
                && is_same_transfer(reply.transfer, other.transfer)
                && reply.outgoing.same(&other.outgoing)
        }
        (State::Dropped, State::Dropped) => true,
        _ => false,
    }
}

/// Whether two entries are for the same request, and began at the same moment.
fn is_same_origin(origin: &Origin, other: &Origin) -> bool
    ensures { MatchBool result ((z : machine.State) → entry_of origin.now z ≡ entry_of other.now z)
        ((y z : machine.State) → entry_of origin.now y ≡ entry_of other.now z → ⊥) }
{
    origin.begin == other.begin
        && origin.terms.choice == other.terms.choice
        && origin.terms.limits == other.terms.limits
        && origin.request == other.request
        && origin.first == other.first
}

impl Same for ServerTransaction {
    ghost Seen = { machine.ServerTransaction };

    ghost seen = { λ e. e };

    fn same(&self, other: &ServerTransaction) -> bool {
        is_same_origin(&self.origin, &other.origin) && is_same_state(&self.state, &other.state)
    }
}
