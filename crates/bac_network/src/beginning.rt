//! Nodes that begin late, and programs that begin where others were.
ghost use Rattle.std.specs.Prelude.{◌≡◌, ◌<◌, ℕ, OnErr, OnOk, length};
ghost use Rattle.bac_world.specs.World.Event.{Begin, BeginAgain};
ghost use Rattle.bac_network.specs.Networks.{world_of, SameWorld, SameLinks, SameTime, SameLives, restart_in, RestartsClock, CanGoOn};
ghost use Rattle.bac_network.specs.Steps.{Happens};
ghost use Rattle.bac_network.specs.Calls.{HasLogRoom, IsQuiet, BeginsAgain};

use crate::fact::Fact;
use crate::fault::WorldFault;
use crate::going::replace_node;
use crate::network::Network;
use crate::restarting::start_of;
use bac_store::Store;
use bac_value::NoMemory;
use std::alloc::Global;

impl Network {
    /// A node at which nothing happened begins, with a new clock. It takes no memory.
    pub(crate) fn begin(&mut self, node: usize) -> Result<(), WorldFault>
        requires { CanGoOn self.old }
        ensures happens { (overtake : ℕ) → Happens overtake (world_of self.old) (Begin node (restart_in self.old)) result (world_of self.new) }
        ensures links { SameLinks self.old self.new }
        ensures passed { OnOk result (RestartsClock node self.old self.new) }
        ensures stays { OnErr result (SameTime self.old self.new) }
        ensures lived { OnErr result (SameLives self.old self.new) }
    {
        if node >= self.nodes.len() {
            return Err(WorldFault::NoSuchNode);
        }
        if self.journal.is_active(node) {
            return Err(WorldFault::TooSoon);
        }
        self.journal.restart_clock(node);
        Ok(())
    }

    /// Another program begins at a node's link, where all is over that its client sent, and the restart enters the log.
    pub(crate) fn begin_again(
        &mut self,
        alloc: Global,
        node: usize,
        first_id: u8,
        store: &Option<Store>,
    ) -> Result<(), WorldFault>
        requires { CanGoOn self.old }
        ensures happens { (overtake : ℕ) → Happens overtake (world_of self.old) (BeginAgain node (restart_in self.old) first_id store.now) result (world_of self.new) }
        ensures links { SameLinks self.old self.new }
        ensures passed { OnOk result (RestartsClock node self.old self.new) }
        ensures stays { OnErr result (SameTime self.old self.new) }
        ensures lived { OnErr result (SameLives self.old self.new) }
    {
        if node >= self.nodes.len() {
            return Err(WorldFault::NoSuchNode);
        }
        if !self.journal.is_quiet(node) {
            return Err(WorldFault::TooSoon);
        }
        Ok(self.replace_now(alloc, node, first_id, store)?)
    }

    /// Another program begins at the link of a node that there is. The log's copy of its store, the node's, and all room are made before anything changes.
    fn replace_now(
        &mut self,
        alloc: Global,
        node: usize,
        first_id: u8,
        store: &Option<Store>,
    ) -> Result<(), NoMemory>
        requires there { node < length self.old.nodes.items }
        requires linked { node < length self.old.journal.links }
        requires quiet { IsQuiet self.old node }
        ensures begun { OnOk result (BeginsAgain self.old node first_id store.now self.new) }
        ensures err { OnErr result (SameWorld self.old self.new) }
        ensures links { SameLinks self.old self.new }
        ensures passed { OnOk result (RestartsClock node self.old self.new) }
        ensures stays { OnErr result (SameTime self.old self.new) }
        ensures lived { OnErr result (SameLives self.old self.new) }
    {
        let kept = start_of(alloc, store)?;
        let given = start_of(alloc, store)?;
        self.make_room(1, 0)?;
        self.make_replacement(node, first_id, given, kept)
    }

    /// Another program begins at the node's link with that store, or with the one that was there. The copy of the store enters the log, which has
    /// room for it.
    fn make_replacement(
        &mut self,
        node: usize,
        first_id: u8,
        given: Option<Store>,
        kept: Option<Store>,
    ) -> Result<(), NoMemory>
        requires there { node < length self.old.nodes.items }
        requires linked { node < length self.old.journal.links }
        requires quiet { IsQuiet self.old node }
        requires kept { kept ≡ given }
        requires room { HasLogRoom self.old }
        ensures begun { OnOk result (BeginsAgain self.old node first_id given self.new) }
        ensures err { OnErr result (SameWorld self.old self.new) }
        ensures links { SameLinks self.old self.new }
        ensures passed { OnOk result (RestartsClock node self.old self.new) }
        ensures stays { OnErr result (SameTime self.old self.new) }
        ensures lived { OnErr result (SameLives self.old self.new) }
    {
        let now = self.journal.told_at_restart();
        replace_node(&mut self.nodes, node, now, first_id, given)?;
        self.journal.act(node);
        self.journal.restart_clock(node);
        let fact = Fact::Restarted { node, store: kept };
        self.log.push_reserved(fact);
        Ok(())
    }
}
