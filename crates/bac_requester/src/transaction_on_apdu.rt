//! An APDU comes for one transaction (clause 5.4.4): which state handles it, and what any state does with a Reject or an Abort.
//!
//! `client` calls [`ClientTransaction::on_apdu`]. All here is private to the crate.
ghost use Rattle.std.specs.Prelude.{◌≡◌};
ghost use Rattle.bac_apdu.specs.Views.{apdu_view};
ghost use Rattle.bac_service.specs.Services.{reads_reply};
ghost use Rattle.bac_protocol.specs.Client.{client_on_apdu, on_refusal, open_on_apdu};
ghost use Rattle.bac_protocol.specs.Wire.{is_from_server};
ghost use Rattle.bac_requester.specs.Transitions.{MakesTransition, TriesTransition};
ghost use Rattle.bac_transaction.specs.Views.{context_view};

use crate::await_confirmation::await_confirmation_on_apdu;
use crate::ending::Ending;
use crate::segmented_conf::{ReceivedSegment, on_next_segment};
use crate::segmented_request::{ReceivedAck, on_segment_ack};
use crate::transaction::{ClientTransaction, Phase};
use crate::transition::{Transition, ends, stays};
use bac_apdu::Apdu;
use bac_transaction::Context;
use bac_value::NoMemory;
use std::alloc::Global;

/// A Reject or an Abort of the server ends the transaction. It ignores any other APDU.
pub(crate) fn on_refusal(
    alloc: Global,
    context: &Context,
    transaction: &ClientTransaction,
    apdu: &Apdu<'_>,
) -> Transition
    ensures { MakesTransition context.now transaction.now (on_refusal (apdu_view apdu.now)) result transaction.now }
{
    match *apdu {
        // RejectPDU_Received
        Apdu::Reject { reason, .. } => ends(alloc, Ending::Rejected(reason)),
        // AbortPDU_Received
        Apdu::Abort {
            server: true,
            reason,
            ..
        } => ends(alloc, Ending::Aborted(reason)),
        // own: UnexpectedPDU_Received is ignored
        _ => stays(alloc, context, transaction),
    }
}

/// Whether an APDU is one that the server of a transaction sends.
fn is_from_server(apdu: &Apdu<'_>) -> bool
    ensures { result ≡ is_from_server (apdu_view apdu.now) }
{
    match *apdu {
        Apdu::ConfirmedRequest { .. } | Apdu::UnconfirmedRequest { .. } => false,
        Apdu::SegmentAck { server, .. } | Apdu::Abort { server, .. } => server,
        _ => true,
    }
}

impl ClientTransaction {
    /// An APDU that a server sends comes, in the state of the transaction.
    fn open_on_apdu(
        &mut self,
        alloc: Global,
        context: &Context,
        apdu: &Apdu<'_>,
    ) -> Result<Transition, NoMemory>
        ensures { TriesTransition context.now self.old (open_on_apdu (context_view context.now) reads_reply self.old.ask self.old.phase (apdu_view apdu.now)) result self.new }
    {
        let ClientTransaction { core, phase } = self;
        match phase {
            Phase::SegmentedRequest { all_sent } => {
                let all_sent = *all_sent;
                match *apdu {
                    Apdu::SegmentAck {
                        server: true,
                        number,
                        window,
                        ..
                    } => {
                        let ack = ReceivedAck { number, window };
                        on_segment_ack(alloc, context, core, phase, all_sent, ack)
                    }
                    // the answer may overtake the SegmentACK of the last window
                    _ if all_sent => await_confirmation_on_apdu(alloc, context, self, apdu),
                    _ => Ok(on_refusal(alloc, context, self, apdu)),
                }
            }
            Phase::AwaitConfirmation => await_confirmation_on_apdu(alloc, context, self, apdu),
            Phase::SegmentedConf { incoming } => match *apdu {
                Apdu::ComplexAck {
                    segment: Some(segment),
                    choice,
                    service: octets,
                    ..
                } => {
                    let received = ReceivedSegment {
                        segment,
                        choice,
                        octets,
                    };
                    on_next_segment(alloc, context, core, incoming, received)
                }
                _ => Ok(on_refusal(alloc, context, self, apdu)),
            },
        }
    }

    /// An APDU comes from the transaction's peer, with its invoke ID (clause 5.4.4). It ignores one that no server sends. More than 60,000 milliseconds after
    /// the first sending the transaction ends as Expired, whatever came (own rule of this profile). After `NoMemory` it is as before.
    pub(crate) fn on_apdu(
        &mut self,
        alloc: Global,
        context: &Context,
        apdu: &Apdu<'_>,
    ) -> Result<Transition, NoMemory>
        ensures { TriesTransition context.now self.old (client_on_apdu (context_view context.now) reads_reply self.old (apdu_view apdu.now)) result self.new }
    {
        if !is_from_server(apdu) {
            return Ok(stays(alloc, context, self));
        }
        if self.is_expired(context.moment) {
            return Ok(ends(alloc, Ending::Expired));
        }
        self.open_on_apdu(alloc, context, apdu)
    }
}
