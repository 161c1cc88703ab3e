//! When the timer of a transaction runs out. `client` and the table call it; all here is private to the crate.
ghost use Rattle.std.specs.Prelude.{◌≡◌};
ghost use Rattle.bac_requester.specs.Timers.{IsHeldQuiet, IsQuiet, due_of, held_due};
ghost use Rattle.bac_requester.specs.TransactionViews.{held_view};

use crate::transaction::{ClientTransaction, Phase};
use crate::transaction_slot::TransactionSlot;
use bac_protocol::times::{DEADLINE, T_OUT, T_SEG, T_WAIT_FOR_SEG};

impl ClientTransaction {
    /// The first moment, in milliseconds, at which the timer of its state has run out, or the transaction is expired (clause 5.4.4). Before it a tick sends
    /// nothing and changes nothing.
    pub(crate) fn due(&self) -> u64
        ensures due { result ≡ due_of self.now }
        ensures quiet { IsQuiet result self.now }
    {
        let wait = match self.phase {
            Phase::SegmentedRequest { .. } => T_SEG,
            Phase::AwaitConfirmation => T_OUT,
            Phase::SegmentedConf { .. } => T_WAIT_FOR_SEG,
        };
        let expires = self.core.first.saturating_add(DEADLINE + 1);
        expires.min(self.core.since.saturating_add(wait))
    }
}

impl TransactionSlot {
    /// The first moment, in milliseconds, at which a tick has something to do; the last moment of all for a transaction that has ended.
    pub(crate) fn due(&self) -> u64
        ensures due { result ≡ held_due (held_view self.now) }
        ensures quiet { IsHeldQuiet result (held_view self.now) }
    {
        match self {
            TransactionSlot::Open(transaction) => transaction.due(),
            TransactionSlot::Closed { .. } => u64::MAX,
        }
    }
}
