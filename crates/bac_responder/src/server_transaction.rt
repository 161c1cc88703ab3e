//! One entry of the reply table: what it keeps, in each state of clause 5.4.5. Used by every file of this crate that handles an APDU or a tick. A new
//! state needs an arm in `live`, `tick`, timers and comparing, and a case in the machine's definitions.
ghost use Rattle.std.specs.Prelude.{◌≡◌, ◌≤◌, length};
ghost use Rattle.bac_segment.specs.Limits.{DATA};
ghost use Rattle.bac_segment.specs.Pieces.{join};
ghost use Rattle.bac_protocol.specs.Server.{is_live};
ghost use Rattle.bac_responder.specs.Reactions.{parts_taken};

use crate::kept_reply::KeptReply;
use bac_apdu::Limits;
use bac_protocol::times::KEEP;
use bac_segment::{Incoming, Outgoing};
use std::marker::Model;

/// What a request says beside its service data.
#[derive(Clone, Copy)]
pub(crate) struct Terms {
    pub(crate) choice: u8,
    pub(crate) limits: Limits,
}

/// What an entry keeps of its request: when it began, and what the request says, with its service data where it came without SEG. Once one that came in
/// segments is whole, its first piece is kept, where no other piece has that number.
#[derive(Drop)]
pub(crate) struct Origin {
    pub(crate) begin: u64,
    pub(crate) terms: Terms,
    pub(crate) request: Option<Vec<u8>>,
    pub(crate) first: Option<Vec<u8>>,
}

/// A request that is received in segments (SEGMENTED_REQUEST, clause 5.4.5.2).
#[derive(Drop)]
pub(crate) struct Reassembly {
    pub(crate) incoming: Incoming,
    /// The moment of the last segment that arrived.
    pub(crate) since: u64,
}

/// How far the transfer of a reply in segments is.
#[derive(Clone, Copy)]
pub(crate) enum Transfer {
    Running,
    Stopped,
    Finished,
}

/// A reply that is sent in segments, and kept (SEGMENTED_RESPONSE, clause 5.4.5.4).
#[derive(Drop)]
pub(crate) struct ReplyTransfer {
    pub(crate) outgoing: Outgoing,
    pub(crate) transfer: Transfer,
    /// The moment from which its timer runs.
    pub(crate) since: u64,
}

/// The states of an entry (clause 5.4.5); Done and Dropped are the reply table's own. Moments are in milliseconds.
#[derive(Drop)]
pub(crate) enum State {
    SegmentedRequest(Reassembly),
    /// A reply of one APDU is kept, with its invoke ID.
    Done { invoke_id: u8, kept: KeptReply },
    SegmentedResponse(ReplyTransfer),
    /// A reassembly was given up.
    Dropped,
}

/// An entry of the reply table: a request that came, and what became of it.
#[derive(Drop)]
pub struct ServerTransaction {
    pub(crate) origin: Origin,
    pub(crate) state: State,
}

impl Model for ServerTransaction {
    ghost use Rattle.bac_protocol.specs.Server as server;

    ghost Value = { server.ServerTransaction };

    ghost use Rattle.bac_responder.specs.TransactionViews.{entry_view, IsSendable};

    ghost view = { λ e. entry_view e.origin e.state };

    ghost invariant = { λ e. IsSendable e.origin.terms.choice e.state };
}

impl ServerTransaction {
    /// The moment at which the first copy of its request came, or its first segment.
    pub fn begin(&self) -> u64
        ensures { result ≡ self.now.begin }
    {
        self.origin.begin
    }

    /// How many octets of a request in segments it keeps (SEGMENTED_REQUEST, clause 5.4.5.2): at most 65,535, in at most 65,535 segments; 0 in other states.
    pub fn reassembled(&self) -> usize
        ensures number { result ≡ length (join (parts_taken self.now.state)) }
        ensures short { result ≤ DATA }
        ensures few { length (parts_taken self.now.state) ≤ DATA }
    {
        match &self.state {
            State::SegmentedRequest(reassembly) => {
                // that the segments are few
                let _segments = reassembly.incoming.taken();
                reassembly.incoming.len()
            }
            State::Done { .. } => 0,
            State::SegmentedResponse(_) => 0,
            State::Dropped => 0,
        }
    }

    /// Whether it is live: for 65,000 ms from its beginning on, the last of them too (own rule of this profile). One that is not live counts as no entry.
    pub fn is_live(&self, now: u64) -> bool
        ensures { result ≡ is_live now self.now }
    {
        now.saturating_sub(self.origin.begin) <= KEEP
    }
}
