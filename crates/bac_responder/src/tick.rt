//! A tick of an entry, in two steps: what it sends (ticking calls it), and what it changes (aging calls it). Its moments are those of timers.
ghost use Rattle.std.specs.Prelude.{◌≡◌, Some, IfOk};
ghost use Rattle.bac_protocol.specs.Server.{segmented_response_ticks, server_ticks};
ghost use Rattle.bac_transaction.specs.Ends.{entry_or};
ghost use Rattle.bac_transaction.specs.Sends.{Pairwise, IsSent, to_all};
ghost use Rattle.bac_transaction.specs.Views.{context_view, peer_of};
ghost use Rattle.bac_transaction.specs.Segments.{ArePiecesShort};
ghost use Rattle.bac_responder.specs.TransactionViews.{LONGEST_PIECE, entry_of, transfer_state, transfer_view};
ghost use Rattle.bac_responder.specs.declared.server_transaction.Origin.{Origin};

use crate::segmented_response::window_sends;
use crate::server_transaction::{ReplyTransfer, ServerTransaction, State, Transfer};
use bac_protocol::times::{T_SEG, T_WAIT_FOR_SEG};
use bac_segment::Timeout;
use bac_transaction::{Context, Datagram};
use bac_value::NoMemory;
use std::alloc::Global;

impl ReplyTransfer {
    /// The transfer after a tick (Timeout, FinalTimeout).
    fn commit_tick(&mut self, context: &Context)
        requires { ArePiecesShort LONGEST_PIECE self.old.outgoing }
        ensures short { ArePiecesShort LONGEST_PIECE self.new.outgoing }
        ensures ticked { (o : Origin) → entry_of o (transfer_state self.new) ≡ entry_or (entry_of o (transfer_state self.old))
            (segmented_response_ticks (context_view context.now) (entry_of o (transfer_state self.old)) self.old.outgoing (transfer_view self.old.transfer)
            self.old.since).entry }
    {
        let Transfer::Running = self.transfer else {
            return;
        };
        if context.moment.saturating_sub(self.since) < T_SEG {
            return;
        }
        match self.outgoing.on_timeout() {
            Timeout::Again => self.since = context.moment,
            Timeout::GivenUp => self.transfer = Transfer::Stopped,
        }
    }
}

impl ServerTransaction {
    /// What a tick sends: the window again, where the transfer of a reply runs, no SegmentACK came for 2,000 ms or longer, and a retry is left. An Err
    /// says that an allocation failed.
    pub fn prepare_tick(&self, alloc: Global, context: &Context) -> Result<Vec<Datagram>, NoMemory>
        ensures { IfOk result (λ v. Pairwise IsSent (to_all (peer_of context.now) (server_ticks (context_view context.now) (Some self.now)).sends) v.items) }
    {
        if !self.is_live(context.moment) {
            return Ok(Vec::new(alloc));
        }
        let State::SegmentedResponse(reply) = &self.state else {
            return Ok(Vec::new(alloc));
        };
        let Transfer::Running = reply.transfer else {
            return Ok(Vec::new(alloc));
        };
        if context.moment.saturating_sub(reply.since) < T_SEG || !reply.outgoing.has_retry() {
            return Ok(Vec::new(alloc));
        }
        window_sends(alloc, context, self.origin.terms.choice, &reply.outgoing)
    }

    /// The entry after a tick. It takes no memory.
    ///
    /// A window that is sent again takes a retry, and where none is left the transfer stops. A reassembly without a segment for 8,000 ms or longer is
    /// given up. An entry that is not live stays as it is.
    pub fn commit_tick(&mut self, context: &Context)
        ensures { self.new ≡ entry_or self.old (server_ticks (context_view context.now) (Some self.old)).entry }
    {
        if !self.is_live(context.moment) {
            return;
        }
        match &mut self.state {
            State::SegmentedRequest(reassembly) => {
                if context.moment.saturating_sub(reassembly.since) >= T_WAIT_FOR_SEG {
                    self.state = State::Dropped;
                }
            }
            State::SegmentedResponse(reply) => reply.commit_tick(context),
            State::Done { .. } | State::Dropped => {}
        }
    }
}
