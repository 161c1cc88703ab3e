//! How entries age.
ghost use Rattle.bac_protocol.specs.declared.times.TheConstants.{KEEP as KEPT_FOR};
ghost use Rattle.bac_protocol.specs.Server.{is_live};
ghost use Rattle.bac_responder.specs.Timers.{IsQuiet, due_of};
ghost use Rattle.bac_responder.specs.Aging.{began, entry_ticked};
ghost use Rattle.bac_responder.specs.Short.{IsRequestShort};

use crate::server_transaction::{Origin, ServerTransaction, State, Terms};
use bac_apdu::Limits;
use bac_protocol::times::KEEP;
use bac_slots::{Aged, SlotFact, Ticks};
use bac_transaction::{Context, PeerKey, Settings};

/// The rules by which the slots of a server's end age.
#[derive(Drop)]
pub(crate) struct ServerAging;

/// An entry is alive while it is live.
impl Aged<ServerAging> for ServerTransaction {
    ghost began = { began };

    ghost lives = { is_live };

    ghost LIFE = { KEPT_FOR };

    ghost due_of = { due_of };

    ghost IsQuiet = { IsQuiet };

    const LIFE: u64 = KEEP;

    fn is_alive(&self, now: u64) -> bool {
        self.is_live(now)
    }

    fn due(&self, from: u64) -> u64 {
        ServerTransaction::due(self, from)
    }

    fn ages() {}
}

impl Ticks<ServerAging, PeerKey, Settings> for ServerTransaction {
    ghost ticked = { entry_ticked };

    fn tick(&mut self, settings: &Settings, now: u64, key: &PeerKey) {
        let context = Context {
            settings: *settings,
            key: *key,
            moment: now,
        };
        self.commit_tick(&context);
    }

    fn ticks() {}
}

/// An entry keeps at most 65,535 octets of a request, in at most 65,535 segments.
#[derive(Drop)]
pub(crate) struct ShortRequests;

impl SlotFact<ServerTransaction> for ShortRequests {
    ghost Holds = { IsRequestShort };

    fn holds(&self, entry: &ServerTransaction) {
        // its contract bounds the octets and the segments
        let _octets = entry.reassembled();
    }
}
