//! When an entry is due, and when its life ends.
ghost use Rattle.std.specs.Prelude.{◌≡◌};
ghost use Rattle.bac_responder.specs.Timers.{IsQuiet, IsStateQuiet, due_of, life_end, state_due};
ghost use Rattle.bac_responder.specs.TransactionViews.{state_view};

use crate::server_transaction::{ServerTransaction, State, Transfer};
use bac_protocol::times::{KEEP, T_SEG, T_WAIT_FOR_SEG};

/// The first moment at which the timer of a state is due; the last moment of all, where it has none.
fn state_due(state: &State) -> u64
    ensures { result ≡ state_due (state_view 0 state.now) }
{
    match state {
        State::SegmentedRequest(reassembly) => reassembly.since.saturating_add(T_WAIT_FOR_SEG),
        State::SegmentedResponse(reply) => match reply.transfer {
            Transfer::Running => reply.since.saturating_add(T_SEG),
            Transfer::Stopped | Transfer::Finished => u64::MAX,
        },
        State::Done { .. } | State::Dropped => u64::MAX,
    }
}

impl ServerTransaction {
    /// The first moment, in milliseconds, at which a tick finds the timer of its state due (clause 5.4.5), looked at from a moment on. Before it a
    /// tick sends nothing and changes nothing. It is the last moment of all where the entry is not live then, or its state has no timer that is due
    /// while it lives.
    pub fn due(&self, from: u64) -> u64
        ensures due { result ≡ due_of from self.now }
        ensures quiet { IsQuiet from result self.now }
    {
        let due = state_due(&self.state);
        if self.is_live(from) && self.is_live(due) {
            due
        } else {
            u64::MAX
        }
    }

    /// The first moment, in milliseconds, at which it is not live any more: a tick drops it then. The last moment of all, where it lives until then.
    pub(crate) fn life_end(&self) -> u64
        ensures { result ≡ life_end self.now }
    {
        self.begin().saturating_add(KEEP + 1)
    }
}
