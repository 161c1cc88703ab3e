//! SEGMENTED_RESPONSE (clause 5.4.5.4): a reply that is sent in segments. `live` calls it for each APDU in this state.
ghost use Rattle.std.specs.Prelude.{◌≡◌, IfOk};
ghost use Rattle.bac_apdu.specs.Views.{apdu_view};
ghost use Rattle.bac_protocol.specs.Server as machine;
ghost use Rattle.bac_store.specs.Stores.{Store as Objects};
ghost use Rattle.bac_transaction.specs.Sends.{Pairwise, IsSent, to_all};
ghost use Rattle.bac_responder.specs.Reactions.{Answers};
ghost use Rattle.bac_transaction.specs.Views.{context_view, peer_of};
ghost use Rattle.bac_transaction.specs.Segments.{ArePiecesShort};
ghost use Rattle.bac_responder.specs.TransactionViews.{LONGEST_PIECE, entry_of, transfer_state, transfer_view};

use crate::performed::Performed;
use crate::repeats::is_repeated;
use crate::replying::piece_apdu;
use crate::server_transaction::{Origin, ReplyTransfer, Transfer};
use bac_apdu::{Apdu, Window};
use bac_protocol::reasons::OTHER;
use bac_segment::{Outgoing, Progress};
use bac_transaction::{Context, Datagram, datagram_of, only_abort};
use bac_value::NoMemory;
use std::alloc::Global;

/// The segments of the window.
#[tactic(auto, using(bac_transaction::proofs::Short::short_complex_segment))]
pub(crate) fn window_sends(
    alloc: Global,
    context: &Context,
    choice: u8,
    outgoing: &Outgoing,
) -> Result<Vec<Datagram>, NoMemory>
    requires { ArePiecesShort LONGEST_PIECE outgoing.now }
    ensures { IfOk result (λ v. Pairwise IsSent (to_all (peer_of context.now) (machine.reply_window (context_view context.now) choice outgoing.now)) v.items) }
{
    let mut sends = Vec::new(alloc);
    let window = outgoing.window();
    for n in window.start..window.end {
        let apdu = piece_apdu(context, choice, outgoing, n);
        let datagram = datagram_of(alloc, &context.key.peer, &apdu)?;
        sends.push(datagram)?;
    }
    Ok(sends)
}

impl ReplyTransfer {
    /// A copy of the request comes: it sets a stopped transfer going again (own rule of this profile).
    fn resume(
        &mut self,
        alloc: Global,
        context: &Context,
        origin: &Origin,
    ) -> Result<Performed, NoMemory>
        requires { ArePiecesShort LONGEST_PIECE self.old.outgoing }
        ensures short { ArePiecesShort LONGEST_PIECE self.new.outgoing }
        ensures does { (s : Objects) → Answers (machine.resumes (context_view context.now) (entry_of origin.now (transfer_state self.old)) self.old.outgoing
            (transfer_view self.old.transfer)) (peer_of context.now) (entry_of origin.now (transfer_state self.old))
            (entry_of origin.now (transfer_state self.new)) s result s }
    {
        let Transfer::Stopped = self.transfer else {
            return Ok(Performed::nothing(alloc));
        };
        // to go back to, should the window find no memory
        let before = self.outgoing.position();
        self.outgoing.resume();
        let Ok(sends) = window_sends(alloc, context, origin.terms.choice, &self.outgoing) else {
            self.outgoing.go_back(before);
            return Err(NoMemory);
        };
        self.transfer = Transfer::Running;
        self.since = context.moment;
        Ok(Performed::sends(sends))
    }

    /// A SegmentACK of the reply's segments comes.
    fn on_segment_ack(
        &mut self,
        alloc: Global,
        context: &Context,
        origin: &Origin,
        number: u8,
        window: Window,
    ) -> Result<Performed, NoMemory>
        requires { ArePiecesShort LONGEST_PIECE self.old.outgoing }
        ensures short { ArePiecesShort LONGEST_PIECE self.new.outgoing }
        ensures does { (s : Objects) → Answers (machine.segmented_response_on_ack (context_view context.now) (entry_of origin.now (transfer_state self.old))
            self.old.outgoing (transfer_view self.old.transfer) number window.size) (peer_of context.now) (entry_of origin.now (transfer_state self.old))
            (entry_of origin.now (transfer_state self.new)) s result s }
    {
        let Transfer::Running = self.transfer else {
            return Ok(Performed::nothing(alloc));
        };
        // to go back to, should the next window find no memory
        let before = self.outgoing.position();
        match self
            .outgoing
            .on_ack(number, window, context.settings.window)
        {
            // DuplicateACK_Received; own: the timer runs on
            Progress::Ignored => Ok(Performed::nothing(alloc)),
            // FinalACK_Received
            Progress::Finished => {
                self.transfer = Transfer::Finished;
                self.since = context.moment;
                Ok(Performed::nothing(alloc))
            }
            // NewACK_Received
            Progress::Moved => {
                let choice = origin.terms.choice;
                let Ok(sends) = window_sends(alloc, context, choice, &self.outgoing) else {
                    self.outgoing.go_back(before);
                    return Err(NoMemory);
                };
                self.since = context.moment;
                Ok(Performed::sends(sends))
            }
        }
    }

    /// An APDU comes for an entry whose reply is sent in segments. After an Err the transfer is as it was.
    pub(crate) fn on_apdu(
        &mut self,
        alloc: Global,
        context: &Context,
        origin: &Origin,
        apdu: &Apdu<'_>,
    ) -> Result<Performed, NoMemory>
        requires { ArePiecesShort LONGEST_PIECE self.old.outgoing }
        ensures short { ArePiecesShort LONGEST_PIECE self.new.outgoing }
        ensures does { (s : Objects) → Answers (machine.segmented_response_on_apdu (context_view context.now) (entry_of origin.now (transfer_state self.old))
            self.old.outgoing (transfer_view self.old.transfer) self.old.since (apdu_view apdu.now)) (peer_of context.now)
            (entry_of origin.now (transfer_state self.old)) (entry_of origin.now (transfer_state self.new)) s result s }
    {
        match *apdu {
            Apdu::ConfirmedRequest {
                segment,
                choice,
                service,
                ..
            } => {
                if is_repeated(origin, segment, choice, service) {
                    return self.resume(alloc, context, origin);
                }
                let sends = only_abort(alloc, context, true, OTHER)?;
                Ok(Performed::sends(sends))
            }
            Apdu::SegmentAck {
                server,
                number,
                window,
                ..
            } => {
                // one that a server sends is not for this reply
                if server {
                    return Ok(Performed::nothing(alloc));
                }
                self.on_segment_ack(alloc, context, origin, number, window)
            }
            // AbortPDU_Received; own: the reply stays kept
            Apdu::Abort { server: false, .. } => {
                self.transfer = Transfer::Finished;
                Ok(Performed::nothing(alloc))
            }
            _ => Ok(Performed::nothing(alloc)),
        }
    }
}
