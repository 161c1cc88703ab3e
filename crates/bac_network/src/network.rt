//! Nodes, and what is kept beside them.
ghost use Rattle.std.specs.Prelude.{◌≡◌, OnErr, OnOk};
ghost use Rattle.bac_network.specs.Networks.{world_of, AreAlike, HasRoom, IsReady, IsReadySo, SameLinks, SameTime, SameLives};
ghost use Rattle.bac_network.specs.Rules.{reuses_by};
ghost use Rattle.bac_network.specs.Steps.{HappensTellingSo, Untells};
ghost use Rattle.bac_network.specs.Clocks.{instant};
ghost use Rattle.bac_network.specs.Views.{event_view, instant_after};

use crate::event::Event;
use crate::fact::Fact;
use crate::fault::WorldFault;
use bac_journal::Journal;
use bac_node::Node;
use bac_requester::AskFault;
use bac_value::NoMemory;
use std::alloc::Global;

/// Nodes, what is kept of the network between them, and the log, oldest first.
#[derive(Drop)]
pub(crate) struct Network {
    pub nodes: Vec<Node>,
    pub journal: Journal,
    pub log: Vec<Fact>,
}

impl Network {
    /// Makes room for so many more facts and copies. Nothing else changes, after an Err neither.
    pub(crate) fn make_room(&mut self, facts: usize, copies: usize) -> Result<(), NoMemory>
        ensures ok { OnOk result (HasRoom facts copies self.new) }
        ensures same { AreAlike self.old self.new }
    {
        self.log.reserve(facts)?;
        self.journal.reserve(copies)
    }

    /// An event happens, or a fault says why not, and nothing changes. The fault of a refused ask is told. Those nodes let invoke IDs be used again of
    /// which the list says it.
    pub(crate) fn step(
        &mut self,
        alloc: Global,
        overtake: u8,
        window: u8,
        reuses: &[bool],
        event: &Event,
    ) -> Result<Option<AskFault>, WorldFault>
        requires ready { IsReady window overtake self.old }
        requires hears { IsReadySo (reuses_by reuses.now) window overtake self.old }
        ensures happens { HappensTellingSo overtake (reuses_by reuses.now) (world_of self.old) (event_view (instant self.old.journal) event.now) result (world_of self.new) }
        ensures links { SameLinks self.old self.new }
        ensures passed { OnOk result (instant self.new.journal ≡ instant_after event.now (instant self.old.journal)) }
        ensures stays { OnErr result (SameTime self.old self.new) }
        ensures lived { OnErr result (SameLives self.old self.new) }
    {
        match event {
            Event::Ask {
                client,
                server,
                limits,
                request,
            } => self.ask(alloc, window, *client, *server, limits, request),
            Event::Deliver { number } => untold(self.deliver(overtake, window, reuses, *number)),
            Event::Noise { node, from, octets } => {
                untold(self.hear_noise(reuses, *node, *from, octets))
            }
            Event::Stranger { node, from, octets } => {
                untold(self.hear_stranger(window, reuses, *node, *from, octets))
            }
            Event::AskStranger {
                node,
                peer,
                limits,
                request,
            } => self.ask_stranger(alloc, *node, peer, limits, request),
            Event::Tick { node } => untold(self.tick(*node)),
            Event::Advance { by } => untold(self.advance(*by)),
            Event::Change { node, change } => untold(self.change(alloc, *node, change)),
            Event::Restart { node, store } => untold(self.restart(alloc, *node, store)),
            Event::Begin { node } => untold(self.begin(*node)),
            Event::BeginAgain {
                node,
                first_id,
                store,
            } => untold(self.begin_again(alloc, *node, *first_id, store)),
        }
    }
}

/// No ask was refused.
fn untold(done: Result<(), WorldFault>) -> Result<Option<AskFault>, WorldFault>
    ensures { Untells done result }
{
    done?;
    Ok(None)
}
