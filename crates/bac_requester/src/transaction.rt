//! An open transaction of the client: its request, its state and its timer (clause 5.4.4). All here is private to the crate.
ghost use Rattle.std.specs.Prelude.{◌≡◌, ◌-◌, ◌<◌, ◌≤◌, false, length, nat_lt};
ghost use Rattle.bac_segment.specs.Pieces.{join};
ghost use Rattle.bac_segment.specs.Limits.{DATA};
ghost use Rattle.bac_requester.specs.Transitions.{parts_taken};
ghost use Rattle.bac_protocol.specs.Client as client;

use bac_protocol::times::DEADLINE;
use bac_segment::{Incoming, Outgoing};
use std::marker::Model;

/// What a transaction keeps in each state.
#[derive(Drop)]
pub(crate) struct RequestState {
    /// The moment of the first sending.
    pub(crate) first: u64,
    /// The service choice of the request.
    pub(crate) choice: u8,
    /// Whether the request goes in one APDU.
    pub(crate) whole: bool,
    /// The request's service data, as their sender.
    pub(crate) outgoing: Outgoing,
    /// The repeats of the request that are left.
    pub(crate) repeats: u8,
    /// The moment at which the timer was started.
    pub(crate) since: u64,
}

/// The states of an open transaction (clauses 5.4.4.2 to 5.4.4.4).
#[derive(Drop)]
pub(crate) enum Phase {
    /// SEGMENTED_REQUEST; `all_sent` is SentAllSegments.
    SegmentedRequest { all_sent: bool },
    /// AWAIT_CONFIRMATION.
    AwaitConfirmation,
    /// SEGMENTED_CONF, with the segments that were taken.
    SegmentedConf { incoming: Incoming },
}

/// A transaction of the client that has not ended.
#[derive(Drop)]
pub(crate) struct ClientTransaction {
    pub(crate) core: RequestState,
    pub(crate) phase: Phase,
}

impl Model for ClientTransaction {
    ghost use Rattle.bac_protocol.specs.Client as client;

    ghost Value = { client.ClientTransaction };

    ghost use Rattle.bac_requester.specs.TransactionViews.{ticket_view};
    ghost use Rattle.bac_requester.specs.Fits.{IsShort};

    ghost view = { λ t. ticket_view t.core t.phase };

    ghost invariant = { λ t. IsShort t.core.whole t.core.outgoing };
}

impl ClientTransaction {
    /// The moment of the first sending, in milliseconds.
    pub(crate) fn first(&self) -> u64
        ensures { result ≡ self.now.ask.first }
    {
        self.core.first
    }

    /// The service choice of the request.
    pub(crate) fn choice(&self) -> u8
        ensures { result ≡ self.now.ask.choice }
    {
        self.core.choice
    }

    /// How many octets of a reply in segments it keeps (SEGMENTED_CONF, clause 5.4.4.4): at most 65,535, in at most 65,535 segments; 0 in other states.
    pub(crate) fn reassembled(&self) -> usize
        ensures number { result ≡ length (join (parts_taken self.now.phase)) }
        ensures short { result ≤ DATA }
        ensures few { length (parts_taken self.now.phase) ≤ DATA }
    {
        match &self.phase {
            Phase::SegmentedRequest { .. } => 0,
            Phase::AwaitConfirmation => 0,
            Phase::SegmentedConf { incoming } => {
                // that the segments are few
                let _segments = incoming.taken();
                incoming.len()
            }
        }
    }

    /// Whether more than 60,000 milliseconds have passed since the first sending: nothing is sent from then on (own rule of this profile).
    pub(crate) fn is_expired(&self, now: u64) -> bool
        ensures expired { result ≡ client.is_expired now self.now.ask }
        ensures open { client.is_idle self.now.phase ≡ false }
    {
        now.saturating_sub(self.core.first) > DEADLINE
    }
}
