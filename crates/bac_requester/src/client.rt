//! The value of a slot of the client's table: a ticket and its transaction, and how slots age.
//!
//! `requester_on_apdu` and bac_slots call it. [`Client`] is public because it is the value type of the table; its fields may change.
ghost use Rattle.std.specs.Prelude.{◌≡◌, ℕ};
ghost use Rattle.bac_protocol.specs.declared.times.TheConstants.{HOLD as HELD_FOR};
ghost use Rattle.bac_transaction.specs.Ends.{held_ticked, is_held};
ghost use Rattle.bac_transaction.specs.Views.{context_view};
ghost use Rattle.bac_requester.specs.TransactionViews.{held_view};
ghost use Rattle.bac_requester.specs.Aging.{IsClientQuiet, began, client_due, value_ticked};
ghost use Rattle.bac_requester.specs.Short.{IsHeldShort};

use crate::transaction_slot::TransactionSlot;
use bac_protocol::times::HOLD;
use bac_slots::{Aged, Same, SlotFact, Ticks};
use bac_transaction::{Context, PeerKey, Settings};
use std::marker::Model;

/// The value of a slot: a ticket, and what is kept of its transaction.
#[derive(Drop)]
pub struct Client {
    pub(crate) number: u64,
    pub(crate) held: TransactionSlot,
}

impl Model for Client {
    ghost use Rattle.bac_transaction.specs.Ends as ends;

    ghost Value = { ends.Client };

    ghost use Rattle.bac_requester.specs.TransactionViews.{held_view};

    ghost view = { λ c. record { number = c.number; held = held_view c.held } };
}

impl Client {
    /// Whether its invoke ID is held at a moment in milliseconds: its transaction is open, or no more than 135,000 ms have passed since the first sending.
    pub fn is_held(&self, now: u64) -> bool
        ensures { result ≡ is_held now self.now.held }
    {
        self.held.is_held(now)
    }
}

/// What is kept of a transaction after a tick.
fn ticked(context: &Context, held: TransactionSlot) -> TransactionSlot
    ensures { (number : ℕ) → held_ticked (context_view context.now) number (held_view held) ≡ record { number = number; held = held_view result } }
{
    match held {
        TransactionSlot::Closed { first } => TransactionSlot::Closed { first },
        TransactionSlot::Open(transaction) => transaction.commit_tick(context),
    }
}

/// The rules by which the slots of a client's end age.
#[derive(Drop)]
pub(crate) struct ClientRules;

/// A slot is alive while it is held.
impl Aged<ClientRules> for Client {
    ghost began = { began };

    ghost lives = { λ now c. is_held now c.held };

    ghost LIFE = { HELD_FOR };

    ghost due_of = { client_due };

    ghost IsQuiet = { IsClientQuiet };

    const LIFE: u64 = HOLD;

    fn is_alive(&self, now: u64) -> bool {
        self.is_held(now)
    }

    fn due(&self, _from: u64) -> u64 {
        self.held.due()
    }

    fn ages() {}
}

impl Ticks<ClientRules, PeerKey, Settings> for Client {
    ghost ticked = { value_ticked };

    fn tick(&mut self, settings: &Settings, now: u64, key: &PeerKey) {
        let context = Context {
            settings: *settings,
            key: *key,
            moment: now,
        };
        // the tick takes the transaction by value; the placeholder goes in the next line
        let held = std::mem::replace(&mut self.held, TransactionSlot::Closed { first: 0 });
        self.held = ticked(&context, held);
    }

    fn ticks() {}
}

/// An open transaction keeps at most 65,535 octets of a reply, in at most 65,535 segments.
#[derive(Drop)]
pub(crate) struct ShortReplies;

impl SlotFact<Client> for ShortReplies {
    ghost Holds = { λ c. IsHeldShort c.held };

    fn holds(&self, client: &Client) {
        let TransactionSlot::Open(transaction) = &client.held else {
            return;
        };
        // its contract bounds the octets and the segments
        let _octets = transaction.reassembled();
    }
}

impl Same for Client {
    ghost use Rattle.bac_transaction.specs.Ends as ends;

    ghost Seen = { ends.Client };

    ghost seen = { λ c. c };

    fn same(&self, other: &Client) -> bool {
        self.number == other.number && self.held.same(&other.held)
    }
}
