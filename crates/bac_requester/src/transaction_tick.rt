//! A tick of one transaction (clause 5.4.4): what its timers send and end, and what is kept of it after that.
//!
//! `requester_tick` calls [`ClientTransaction::prepare_tick`], and `client` then [`ClientTransaction::commit_tick`]. All here is private to the crate.
ghost use Rattle.std.specs.Prelude.{◌≡◌, ◌-◌, ◌≤◌, IfOk, nat_le};
ghost use Rattle.bac_segment.specs.Window.{again};
ghost use Rattle.bac_protocol.specs.Client.{after, client_ticks, repeats, sends_request_again};
ghost use Rattle.bac_transaction.specs.Ends.{kept};
ghost use Rattle.bac_requester.specs.Fits.{IsShort};
ghost use Rattle.bac_requester.specs.Transitions.{IsTransition};
ghost use Rattle.bac_transaction.specs.Views.{context_view};
ghost use Rattle.bac_requester.specs.TransactionViews.{held_view, ticket_view};
ghost use Rattle.bac_requester.specs.declared.transaction.Phase.{Phase};
ghost use Rattle.bac_requester.specs.declared.transaction.Phase.TheVariants.{SegmentedRequest};

use crate::begin::ends_all;
use crate::ending::Ending;
use crate::sending::{pieces, whole_request, window};
use crate::transaction::{ClientTransaction, Phase, RequestState};
use crate::transaction_slot::TransactionSlot;
use crate::transition::{Transition, ends, nothing};
use bac_protocol::times::{T_OUT, T_SEG, T_WAIT_FOR_SEG};
use bac_segment::Timeout;
use bac_transaction::Context;
use bac_value::NoMemory;
use std::alloc::Global;

/// The request is sent again, from its beginning (TimeoutUnsegmented, TimeoutSegmented, FinalTimeout).
fn repeat_sends(
    alloc: Global,
    context: &Context,
    core: &RequestState,
) -> Result<Transition, NoMemory>
    requires { IsShort core.now.whole core.now.outgoing }
    ensures { (p : Phase) → IfOk result (IsTransition context.now (ticket_view core.now p) (repeats (context_view context.now) (ticket_view core.now p))) }
{
    if core.repeats == 0 {
        return Ok(ends(alloc, Ending::TimedOut));
    }
    let sends = if core.whole {
        whole_request(alloc, context, core.choice, core.outgoing.octets())?
    } else {
        // the transfer begins anew, with its first segment alone
        let end = core.outgoing.count().min(1);
        pieces(alloc, context, core.choice, &core.outgoing, 0, end)?
    };
    Ok(Transition {
        sends,
        ending: None,
    })
}

/// The window of the request is sent again, where a retry is left (Timeout, FinalTimeout).
fn window_sends(
    alloc: Global,
    context: &Context,
    core: &RequestState,
    all_sent: bool,
) -> Result<Transition, NoMemory>
    requires { IsShort core.now.whole core.now.outgoing }
    ensures { (p : Phase) → IfOk result (IsTransition context.now (ticket_view core.now p)
        (sends_request_again (context_view context.now) core.now.choice all_sent (again core.now.outgoing))) }
{
    if !core.outgoing.has_retry() {
        return Ok(ends(alloc, Ending::TimedOut));
    }
    let sends = window(alloc, context, core.choice, &core.outgoing)?;
    Ok(Transition {
        sends,
        ending: None,
    })
}

/// The request was sent again.
fn repeated(context: &Context, mut core: RequestState, phase: Phase) -> TransactionSlot
    requires { IsShort core.whole core.outgoing }
    ensures { held_view result ≡ kept (after context.now.moment (ticket_view core phase) (repeats (context_view context.now) (ticket_view core phase))) }
{
    if core.repeats == 0 {
        return TransactionSlot::Closed { first: core.first };
    }
    core.repeats -= 1;
    core.since = context.moment;
    if core.whole {
        return TransactionSlot::Open(ClientTransaction { core, phase });
    }
    core.outgoing.restart();
    // all segments were sent before, so an answer may come at any time
    let phase = Phase::SegmentedRequest { all_sent: true };
    TransactionSlot::Open(ClientTransaction { core, phase })
}

/// The window of the request was sent again.
fn window_repeated(context: &Context, mut core: RequestState, all_sent: bool) -> TransactionSlot
    requires { IsShort core.whole core.outgoing }
    ensures { held_view result ≡ kept (after context.now.moment (ticket_view core (SegmentedRequest all_sent))
        (sends_request_again (context_view context.now) core.choice all_sent (again core.outgoing))) }
{
    match core.outgoing.on_timeout() {
        Timeout::GivenUp => TransactionSlot::Closed { first: core.first },
        Timeout::Again => {
            let all_sent = all_sent || ends_all(&core.outgoing);
            core.since = context.moment;
            let phase = Phase::SegmentedRequest { all_sent };
            TransactionSlot::Open(ClientTransaction { core, phase })
        }
    }
}

impl ClientTransaction {
    /// What a tick sends for the transaction, and how it ends it (clause 5.4.4). More than 60,000 milliseconds after the first sending it ends as
    /// Expired. Otherwise something happens once the timer of its state has run out. It sends the window of its request again (3 times), or the whole
    /// request (3 times); after the last of these it ends as TimedOut. Nothing changes. `NoMemory` where the datagrams can't be allocated.
    pub(crate) fn prepare_tick(
        &self,
        alloc: Global,
        context: &Context,
    ) -> Result<Transition, NoMemory>
        ensures { IfOk result (IsTransition context.now self.now (client_ticks (context_view context.now) self.now)) }
    {
        if self.is_expired(context.moment) {
            return Ok(ends(alloc, Ending::Expired));
        }
        let core = &self.core;
        let waited = context.moment.saturating_sub(core.since);
        match self.phase {
            Phase::SegmentedRequest { all_sent } if waited >= T_SEG => {
                window_sends(alloc, context, core, all_sent)
            }
            Phase::AwaitConfirmation if waited >= T_OUT => repeat_sends(alloc, context, core),
            Phase::SegmentedConf { .. } if waited >= T_WAIT_FOR_SEG => {
                if core.whole {
                    repeat_sends(alloc, context, core)
                } else {
                    // a request in segments is not sent again once its reply comes in
                    Ok(ends(alloc, Ending::TimedOut))
                }
            }
            _ => Ok(nothing(alloc)),
        }
    }

    /// What is kept of the transaction after a tick, of which `prepare_tick` says what it sends. It allocates nothing.
    pub(crate) fn commit_tick(self, context: &Context) -> TransactionSlot
        ensures { held_view result ≡ kept (after context.now.moment self (client_ticks (context_view context.now) self)) }
    {
        if self.is_expired(context.moment) {
            return TransactionSlot::Closed {
                first: self.first(),
            };
        }
        let waited = context.moment.saturating_sub(self.core.since);
        let ClientTransaction { core, phase } = self;
        match phase {
            Phase::SegmentedRequest { all_sent } if waited >= T_SEG => {
                window_repeated(context, core, all_sent)
            }
            Phase::AwaitConfirmation if waited >= T_OUT => {
                repeated(context, core, Phase::AwaitConfirmation)
            }
            Phase::SegmentedConf { incoming } if waited >= T_WAIT_FOR_SEG => {
                if !core.whole {
                    return TransactionSlot::Closed { first: core.first };
                }
                repeated(context, core, Phase::SegmentedConf { incoming })
            }
            phase => TransactionSlot::Open(ClientTransaction { core, phase }),
        }
    }
}
