//! Asks.
ghost use Rattle.std.specs.Prelude.{◌≡◌, ◌+◌, ◌<◌, ◌≤◌, ℕ, IfOk, List, OnOk, length, vec_capacity, OnErr};
ghost use Rattle.bac_apdu.specs.Views.{limits_view};
ghost use Rattle.bac_service.specs.Views.{owned_request_view};
ghost use Rattle.bac_world.specs.Node.{Node};
ghost use Rattle.bac_world.specs.World.Event.{Ask};
ghost use Rattle.bac_journal.specs.Journals.{HasNoteRoom};
ghost use Rattle.bac_journal.specs.Views.{AreLinks};
ghost use Rattle.bac_network.specs.Asks.{CanAsk, CanBeNoted, IsNotedAsk, TellsFault};
ghost use Rattle.bac_network.specs.Networks.{world_of, AreAlike, HasRoom, IsReady, SameLinks, SameTime, SameLives};
ghost use Rattle.bac_network.specs.Steps.{HappensTelling};
ghost use Rattle.bac_network.specs.Views.{log_view};

use crate::fact::Fact;
use crate::fault::WorldFault;
use crate::going::ask;
use crate::network::Network;
use bac_apdu::Limits;
use bac_journal::{Journal, Note, Transaction};
use bac_npdu::Peer;
use bac_requester::{AskFault, Asked};
use bac_service::OwnedRequest;
use bac_value::NoMemory;
use std::alloc::Global;

impl Network {
    /// A node asks another one. All room is made first, so that nothing is refused after the node was asked.
    pub(crate) fn ask(
        &mut self,
        alloc: Global,
        window: u8,
        client: usize,
        server: usize,
        limits: &Limits,
        request: &OwnedRequest,
    ) -> Result<Option<AskFault>, WorldFault>
        requires { (overtake : ℕ) × IsReady window overtake self.old }
        ensures happens { (overtake : ℕ)
            → HappensTelling overtake (world_of self.old) (Ask client server (limits_view limits.now) (owned_request_view request.now)) result
            (world_of self.new) }
        ensures links { SameLinks self.old self.new }
        ensures stays { SameTime self.old self.new }
        ensures lived { OnErr result (SameLives self.old self.new) }
    {
        if client >= self.nodes.len() || server >= self.nodes.len() {
            return Err(WorldFault::NoSuchNode);
        }
        let copied = self.make_ask_room(alloc, window, client, server, request)?;
        self.ask_other(client, server, limits, request, copied)
    }

    /// Makes room for all that comes of an ask, and copies its request for the log. Nothing else changes, after an Err neither.
    fn make_ask_room(
        &mut self,
        alloc: Global,
        window: u8,
        client: usize,
        server: usize,
        request: &OwnedRequest,
    ) -> Result<OwnedRequest, NoMemory>
        requires client { client < length self.old.journal.links }
        requires server { server < length self.old.journal.links }
        ensures copied { IfOk result (λ r. owned_request_view r ≡ owned_request_view request.now) }
        ensures room { OnOk result (HasRoom 1 (window + 1) self.new) }
        ensures note { OnOk result (HasNoteRoom self.new.journal client server) }
        ensures same { AreAlike self.old self.new }
    {
        self.log.reserve(1)?;
        self.journal.reserve_note(alloc, client, server)?;
        self.journal.reserve(usize::from(window) + 1)?;
        request.as_request().to_owned(alloc)
    }

    /// A node that there is asks another one. There is room for all that comes of it.
    fn ask_other(
        &mut self,
        client: usize,
        server: usize,
        limits: &Limits,
        request: &OwnedRequest,
        copied: OwnedRequest,
    ) -> Result<Option<AskFault>, WorldFault>
        requires can { CanAsk client server self.old }
        requires copied { owned_request_view copied ≡ owned_request_view request.now }
        ensures happens { (overtake : ℕ)
            → HappensTelling overtake (world_of self.old) (Ask client server (limits_view limits.now) (owned_request_view request.now)) result
            (world_of self.new) }
        ensures links { SameLinks self.old self.new }
        ensures stays { SameTime self.old self.new }
        ensures lived { OnErr result (SameLives self.old self.new) }
    {
        let peer = Peer {
            link: self.nodes[server].link(),
            route: None,
        };
        let now = self.journal.told(client);
        match ask(&mut self.nodes, client, now, &peer, limits, request) {
            Ok(asked) => {
                note(
                    &mut self.journal,
                    &mut self.log,
                    client,
                    server,
                    copied,
                    asked,
                );
                Ok(None)
            }
            Err(fault) => told(fault),
        }
    }
}

/// The fault of a refused ask is told, but for `NoMemory`, which is the event's.
pub(crate) fn told(fault: AskFault) -> Result<Option<AskFault>, WorldFault>
    ensures { TellsFault fault result }
{
    match fault {
        AskFault::NoMemory => Err(WorldFault::NoMemory),
        _ => Ok(Some(fault)),
    }
}

/// An ask that was accepted is noted and enters the log with the next number; what it sends becomes copies. There is room for all of it.
fn note(
    journal: &mut Journal,
    log: &mut Vec<Fact>,
    client: usize,
    server: usize,
    request: OwnedRequest,
    asked: Asked,
)
    requires can { CanBeNoted journal.old client server asked.invoke_id asked.ticket asked.sends.items }
    requires room { length asked.sends.items ≤ journal.old.room }
    requires log_room { length log.old.items + 1 ≤ vec_capacity log.old }
    ensures { (nodes : List Node) → AreLinks nodes journal.old.links
        → IsNotedAsk nodes client server (owned_request_view request) asked.invoke_id asked.ticket asked.sends.items journal.old journal.new
        (log_view log.old.items) (log_view log.new.items) }
{
    let Asked {
        ticket,
        invoke_id,
        sends,
    } = asked;
    let number = journal.notes().len();
    log.push_reserved(Fact::Asked {
        number,
        client,
        server,
        request,
    });
    let transaction = Transaction {
        client,
        server,
        invoke_id,
    };
    journal.note(Note {
        transaction,
        ticket,
        stranger: None,
    });
    journal.send(client, sends);
    journal.begin_ask(client);
}
