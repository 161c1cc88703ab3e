//! Asks of strangers.
ghost use Rattle.std.specs.Prelude.{◌≡◌, ◌+◌, ◌<◌, ◌≤◌, ℕ, IfOk, OnOk, length, vec_capacity, OnErr};
ghost use Rattle.bac_apdu.specs.Views.{limits_view};
ghost use Rattle.bac_npdu.specs.Views.{peer_view};
ghost use Rattle.bac_service.specs.Views.{owned_request_view};
ghost use Rattle.bac_world.specs.World.Event.{AskAway};
ghost use Rattle.bac_journal.specs.Entering.{tickets_of};
ghost use Rattle.bac_journal.specs.Journals.{HasStrangerRoom};
ghost use Rattle.bac_network.specs.Asks.{CanAskAway, IsNotedAway};
ghost use Rattle.bac_network.specs.Networks.{world_of, AreAlike, HasRoom, SameLinks, SameTime, SameLives, CanGoOn};
ghost use Rattle.bac_network.specs.Steps.{HappensTelling};
ghost use Rattle.bac_network.specs.Views.{log_view};

use crate::asking::told;
use crate::fact::Fact;
use crate::fault::WorldFault;
use crate::going::ask;
use crate::network::Network;
use bac_apdu::Limits;
use bac_journal::{Journal, Note, Transaction};
use bac_npdu::Peer;
use bac_requester::{AskFault, Asked};
use bac_service::OwnedRequest;
use bac_value::NoMemory;
use std::alloc::Global;

impl Network {
    /// A node asks a stranger. All room is made first, so that nothing is refused after the node was asked.
    pub(crate) fn ask_stranger(
        &mut self,
        alloc: Global,
        client: usize,
        peer: &Peer,
        limits: &Limits,
        request: &OwnedRequest,
    ) -> Result<Option<AskFault>, WorldFault>
        requires { CanGoOn self.old }
        ensures happens { (overtake : ℕ) → HappensTelling overtake (world_of self.old)
            (AskAway client (peer_view peer.now) (limits_view limits.now) (owned_request_view request.now)) result (world_of self.new) }
        ensures links { SameLinks self.old self.new }
        ensures stays { SameTime self.old self.new }
        ensures lived { OnErr result (SameLives self.old self.new) }
    {
        if client >= self.nodes.len() {
            return Err(WorldFault::NoSuchNode);
        }
        match self.journal.node_of(peer.link) {
            Some(_node) => Err(WorldFault::NodeLink),
            None => {
                let copied = self.make_away_room(alloc, client, request)?;
                self.ask_away(client, peer, limits, request, copied)
            }
        }
    }

    /// Makes room for all that comes of an ask of a stranger, and copies its request for the log. Nothing else changes, after an Err neither.
    fn make_away_room(
        &mut self,
        alloc: Global,
        client: usize,
        request: &OwnedRequest,
    ) -> Result<OwnedRequest, NoMemory>
        requires client { client < length self.old.journal.links }
        ensures copied { IfOk result (λ r. owned_request_view r ≡ owned_request_view request.now) }
        ensures room { OnOk result (HasRoom 1 0 self.new) }
        ensures note { OnOk result (HasStrangerRoom self.new.journal client) }
        ensures same { AreAlike self.old self.new }
    {
        self.log.reserve(1)?;
        self.journal.reserve_stranger(client)?;
        request.as_request().to_owned(alloc)
    }

    /// A node that there is asks a stranger. There is room for all that comes of it.
    fn ask_away(
        &mut self,
        client: usize,
        peer: &Peer,
        limits: &Limits,
        request: &OwnedRequest,
        copied: OwnedRequest,
    ) -> Result<Option<AskFault>, WorldFault>
        requires can { CanAskAway client (peer_view peer.now) self.old }
        requires copied { owned_request_view copied ≡ owned_request_view request.now }
        ensures happens { (overtake : ℕ) → HappensTelling overtake (world_of self.old)
            (AskAway client (peer_view peer.now) (limits_view limits.now) (owned_request_view request.now)) result (world_of self.new) }
        ensures links { SameLinks self.old self.new }
        ensures stays { SameTime self.old self.new }
        ensures lived { OnErr result (SameLives self.old self.new) }
    {
        let now = self.journal.told(client);
        match ask(&mut self.nodes, client, now, peer, limits, request) {
            Ok(asked) => {
                note_away(
                    &mut self.journal,
                    &mut self.log,
                    client,
                    *peer,
                    copied,
                    asked,
                );
                Ok(None)
            }
            Err(fault) => told(fault),
        }
    }
}

/// An ask of a stranger that was accepted is noted and enters the log with the next number; what it sends is not followed. There is room for all of it.
fn note_away(
    journal: &mut Journal,
    log: &mut Vec<Fact>,
    client: usize,
    peer: Peer,
    request: OwnedRequest,
    asked: Asked,
)
    requires there { client < length journal.old.links }
    requires room { HasStrangerRoom journal.old client }
    requires counted { asked.ticket ≤ tickets_of client journal.old.notes }
    requires log_room { length log.old.items + 1 ≤ vec_capacity log.old }
    ensures { IsNotedAway client (peer_view peer) (owned_request_view request) asked.invoke_id asked.ticket journal.old journal.new
        (log_view log.old.items) (log_view log.new.items) }
{
    let number = journal.notes().len();
    log.push_reserved(Fact::AskedAway {
        number,
        client,
        peer,
        request,
    });
    let transaction = Transaction {
        client,
        server: 0,
        invoke_id: asked.invoke_id,
    };
    journal.note_stranger(Note {
        transaction,
        ticket: asked.ticket,
        stranger: Some(peer),
    });
    journal.act(client);
}
