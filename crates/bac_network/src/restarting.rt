//! Nodes that restart.
ghost use Rattle.std.specs.Prelude.{◌≡◌, ◌<◌, ℕ, IfOk, OnErr, OnOk, length};
ghost use Rattle.bac_world.specs.World.Event.{Restart as Happening};
ghost use Rattle.bac_network.specs.Networks.{world_of, SameWorld, SameLinks, SameTime, SameLives, restart_in, RestartsClock, CanGoOn};
ghost use Rattle.bac_network.specs.Steps.{Happens};
ghost use Rattle.bac_network.specs.Calls.{HasLogRoom, RestartsNow};

use crate::fact::Fact;
use crate::fault::WorldFault;
use crate::going::restart_node;
use crate::network::Network;
use bac_store::Store;
use bac_value::NoMemory;
use std::alloc::Global;

/// A copy of the store with which a node starts again, if it is another one than it had.
pub(crate) fn start_of(alloc: Global, store: &Option<Store>) -> Result<Option<Store>, NoMemory>
    ensures { IfOk result (λ s. s ≡ store.now) }
{
    match store {
        Some(store) => Ok(Some(store.copy(alloc)?)),
        None => Ok(None),
    }
}

impl Network {
    /// A node restarts, and the restart enters the log.
    pub(crate) fn restart(
        &mut self,
        alloc: Global,
        node: usize,
        store: &Option<Store>,
    ) -> Result<(), WorldFault>
        requires { CanGoOn self.old }
        ensures happens { (overtake : ℕ) → Happens overtake (world_of self.old) (Happening node (restart_in self.old) store.now) result (world_of self.new) }
        ensures links { SameLinks self.old self.new }
        ensures passed { OnOk result (RestartsClock node self.old self.new) }
        ensures stays { OnErr result (SameTime self.old self.new) }
        ensures lived { OnErr result (SameLives self.old self.new) }
    {
        if node >= self.nodes.len() {
            return Err(WorldFault::NoSuchNode);
        }
        Ok(self.restart_now(alloc, node, store)?)
    }

    /// A node that there is restarts. The log's copy of its store, the node's, and all room are made before anything changes.
    fn restart_now(
        &mut self,
        alloc: Global,
        node: usize,
        store: &Option<Store>,
    ) -> Result<(), NoMemory>
        requires there { node < length self.old.nodes.items }
        requires linked { node < length self.old.journal.links }
        ensures restarted { OnOk result (RestartsNow self.old node store.now self.new) }
        ensures err { OnErr result (SameWorld self.old self.new) }
        ensures links { SameLinks self.old self.new }
        ensures passed { OnOk result (RestartsClock node self.old self.new) }
        ensures stays { OnErr result (SameTime self.old self.new) }
        ensures lived { OnErr result (SameLives self.old self.new) }
    {
        let kept = start_of(alloc, store)?;
        let given = start_of(alloc, store)?;
        self.make_room(1, 0)?;
        self.make_restart(node, given, kept)
    }

    /// A node that there is restarts with that store, and the copy of it enters the log, which has room for it.
    fn make_restart(
        &mut self,
        node: usize,
        given: Option<Store>,
        kept: Option<Store>,
    ) -> Result<(), NoMemory>
        requires there { node < length self.old.nodes.items }
        requires linked { node < length self.old.journal.links }
        requires kept { kept ≡ given }
        requires room { HasLogRoom self.old }
        ensures restarted { OnOk result (RestartsNow self.old node given self.new) }
        ensures err { OnErr result (SameWorld self.old self.new) }
        ensures links { SameLinks self.old self.new }
        ensures passed { OnOk result (RestartsClock node self.old self.new) }
        ensures stays { OnErr result (SameTime self.old self.new) }
        ensures lived { OnErr result (SameLives self.old self.new) }
    {
        let now = self.journal.told_at_restart();
        restart_node(&mut self.nodes, node, now, given)?;
        self.journal.end_asks(node);
        self.journal.restart_clock(node);
        let fact = Fact::Restarted { node, store: kept };
        self.log.push_reserved(fact);
        Ok(())
    }
}
