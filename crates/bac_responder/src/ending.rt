//! Whether an APDU ends a live entry, by the rules of its end.
ghost use Rattle.std.specs.Prelude.{◌≡◌, ℕ};
ghost use Rattle.bac_apdu.specs.Views.{apdu_view};
ghost use Rattle.bac_segment.specs.Window.{acknowledged};
ghost use Rattle.bac_protocol.specs.Reuse as machine;
ghost use Rattle.bac_protocol.specs.Serving as serving;
ghost use Rattle.bac_transaction.specs.Reuse.{is_read};
ghost use Rattle.bac_transaction.specs.Views.{read_rule_view, rules_view};
ghost use Rattle.bac_responder.specs.TransactionViews.{state_view, transfer_view};

use crate::ServerTransaction;
use crate::repeats::{is_other_first, is_repeated};
use crate::server_transaction::{ReplyTransfer, State, Transfer};
use bac_apdu::Apdu;
use bac_segment::Outgoing;
use bac_service::is_read_choice;
use bac_transaction::{ReadRule, Rules};

/// Whether an APDU begins a request: one without SEG, or its segment 0.
pub(crate) fn begins_request(apdu: &Apdu<'_>) -> bool
    ensures { result ≡ serving.begins_request (apdu_view apdu.now) }
{
    match apdu {
        Apdu::ConfirmedRequest { segment: None, .. } => true,
        Apdu::ConfirmedRequest {
            segment: Some(segment),
            ..
        } => segment.number == 0,
        _ => false,
    }
}

impl State {
    /// Whether the last of its reply was sent, or its request was given up.
    fn is_over(&self) -> bool
        ensures { (c : ℕ) → result ≡ machine.is_over (state_view c self.now) }
    {
        match self {
            State::SegmentedRequest(_) => false,
            State::Done { .. } => true,
            State::SegmentedResponse(reply) => matches!(reply.transfer, Transfer::Finished),
            State::Dropped => true,
        }
    }

    /// Whether its reply goes in segments.
    pub(crate) fn goes_in_segments(&self) -> bool
        ensures { (c : ℕ) → result ≡ machine.goes_in_segments (state_view c self.now) }
    {
        matches!(self, State::SegmentedResponse(_))
    }

    /// Whether a SegmentACK with this number finishes the transfer of its reply.
    fn is_acknowledged_by(&self, number: u8) -> bool
        ensures { (c : ℕ) → result ≡ machine.is_acknowledged_by (state_view c self.now) number }
    {
        match self {
            State::SegmentedRequest(_) => false,
            State::Done { .. } => false,
            State::SegmentedResponse(reply) => reply.is_finished_by(number),
            State::Dropped => false,
        }
    }
}

impl ReplyTransfer {
    /// Whether a SegmentACK with this number finishes it.
    fn is_finished_by(&self, number: u8) -> bool
        ensures { result ≡ machine.is_finished_by_ack self.now.outgoing (transfer_view self.now.transfer) number }
    {
        match self.transfer {
            Transfer::Running => acknowledges_all(&self.outgoing, number),
            Transfer::Stopped => false,
            Transfer::Finished => false,
        }
    }
}

/// Whether a SegmentACK with this number acknowledges the last piece.
fn acknowledges_all(outgoing: &Outgoing, number: u8) -> bool
    ensures { result ≡ machine.is_all_acknowledged (acknowledged 1 outgoing.now number 1) }
{
    let first = outgoing.position().first;
    // how far into the window the number points: numbers count modulo 256
    let by = number.wrapping_sub((first % 256) as u8) as usize;
    if by >= outgoing.in_window() {
        return false;
    }
    outgoing.count() <= first + by + 1
}

impl ServerTransaction {
    /// Whether it is of a read that came without SEG.
    fn is_of_whole_read(&self) -> bool
        ensures { result ≡ machine.is_of_whole_read is_read self.now }
    {
        is_read_choice(self.origin.terms.choice) && self.origin.request.is_some()
    }

    /// Whether an APDU is the SegmentACK that finishes its reply in segments, or an Abort of its client, and it is of a read that came without SEG.
    fn ends_with_reply(&self, apdu: &Apdu<'_>) -> bool
        ensures { result ≡ machine.ends_with_reply is_read self.now (apdu_view apdu.now) }
    {
        match *apdu {
            Apdu::SegmentAck { server, number, .. } => {
                !server && self.is_of_whole_read() && self.state.is_acknowledged_by(number)
            }
            Apdu::Abort { server, .. } => {
                !server && self.is_of_whole_read() && self.state.goes_in_segments()
            }
            _ => false,
        }
    }

    /// Whether an APDU ends it.
    fn is_ended_by(&self, apdu: &Apdu<'_>) -> bool
        ensures { result ≡ machine.is_ended_by is_read self.now (apdu_view apdu.now) }
    {
        let Apdu::ConfirmedRequest {
            segment,
            choice,
            service,
            ..
        } = *apdu
        else {
            return self.ends_with_reply(apdu);
        };
        if !self.state.is_over() {
            return false;
        }
        match segment {
            None => is_read_choice(choice) || !is_repeated(&self.origin, None, choice, service),
            Some(segment) => segment.number == 0 && is_other_first(&self.origin, choice, service),
        }
    }

    /// Whether an APDU uses its invoke ID again, or is the last one of its transaction; where reads are kept, none does or is.
    fn is_used_again(&self, reads: ReadRule, apdu: &Apdu<'_>) -> bool
        ensures { result ≡ serving.is_used_again (read_rule_view reads) self.now (apdu_view apdu.now) }
    {
        match reads {
            ReadRule::Kept => false,
            ReadRule::Fresh => self.is_ended_by(apdu),
        }
    }

    /// Whether it is over and began more than so many milliseconds ago, if there is a limit, and an APDU begins a request.
    fn is_forgotten(&self, remember: Option<u64>, now: u64, apdu: &Apdu<'_>) -> bool
        ensures { result ≡ serving.is_forgotten remember now self.now (apdu_view apdu.now) }
    {
        match remember {
            None => false,
            Some(limit) => {
                begins_request(apdu)
                    && (self.state.is_over() && limit < now.saturating_sub(self.origin.begin))
            }
        }
    }

    /// Whether an APDU ends it, by the rules of its end.
    pub(crate) fn is_ended(&self, rules: &Rules, now: u64, apdu: &Apdu<'_>) -> bool
        ensures { result ≡ serving.is_ended (rules_view rules.now).machine now self.now (apdu_view apdu.now) }
    {
        self.is_used_again(rules.reads, apdu) || self.is_forgotten(rules.remember, now, apdu)
    }
}
