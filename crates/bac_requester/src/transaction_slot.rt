//! What a slot keeps of a transaction, and how long it holds the invoke ID. All here is private to the crate.
ghost use Rattle.std.specs.Prelude.{◌≡◌, ◌-◌, ◌≤◌, nat_le};
ghost use Rattle.bac_transaction.specs.Ends.{is_held};
ghost use Rattle.bac_requester.specs.TransactionViews.{held_view};

use crate::transaction::ClientTransaction;
use bac_protocol::times::HOLD;

/// What a slot keeps of a transaction: all of an open one; of one that has ended, the moment of its first sending.
#[derive(Drop)]
pub(crate) enum TransactionSlot {
    /// A transaction that has not ended.
    Open(ClientTransaction),
    /// One that has: its machine is in IDLE (clause 5.4.4.1).
    Closed {
        /// The moment of the first sending, in milliseconds.
        first: u64,
    },
}

impl TransactionSlot {
    /// Whether its invoke ID is held: the transaction is open, or no more than 135,000 milliseconds have passed since its first sending
    /// (own rule of this profile).
    pub(crate) fn is_held(&self, now: u64) -> bool
        ensures { result ≡ is_held now (held_view self.now) }
    {
        match self {
            TransactionSlot::Open(_) => true,
            TransactionSlot::Closed { first } => now.saturating_sub(*first) <= HOLD,
        }
    }
}
