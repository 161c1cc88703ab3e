//! Changes that nodes make to their own stores.
ghost use Rattle.std.specs.Prelude.{◌≡◌, ◌<◌, ℕ, OnErr, OnOk, length};
ghost use Rattle.bac_store.specs.Views.{change_view};
ghost use Rattle.bac_world.specs.World.{IsChanged};
ghost use Rattle.bac_world.specs.World.Event.{Change as Happening};
ghost use Rattle.bac_network.specs.Networks.{world_of, SameWorld, SameLinks, SameTime, SameLives};
ghost use Rattle.bac_network.specs.Steps.{Happens};
ghost use Rattle.bac_network.specs.Calls.{HasLogRoom, MayChange};

use crate::fact::Fact;
use crate::fault::WorldFault;
use crate::going::change_node;
use crate::network::Network;
use bac_store::Change;
use bac_value::NoMemory;
use std::alloc::Global;

impl Network {
    /// A node changes its own store, where the change has no fault for it, and the change enters the log.
    pub(crate) fn change(
        &mut self,
        alloc: Global,
        node: usize,
        change: &Change,
    ) -> Result<(), WorldFault>
        ensures happens { (overtake : ℕ)
            → Happens overtake (world_of self.old) (Happening node (change_view change.now)) result (world_of self.new) }
        ensures links { SameLinks self.old self.new }
        ensures stays { SameTime self.old self.new }
        ensures lived { OnErr result (SameLives self.old self.new) }
    {
        if node >= self.nodes.len() {
            return Err(WorldFault::NoSuchNode);
        }
        match self.nodes[node].store().fault_of(change) {
            Some(fault) => Err(WorldFault::BadChange(fault)),
            None => Ok(self.change_now(alloc, node, change)?),
        }
    }

    /// A node that there is makes a change without a fault. The log's copy of it and all room are made before anything changes.
    fn change_now(&mut self, alloc: Global, node: usize, change: &Change) -> Result<(), NoMemory>
        requires there { node < length self.old.nodes.items }
        requires may { MayChange self.old.nodes.items node (change_view change.now) }
        ensures changed { OnOk result (IsChanged (world_of self.old) node (change_view change.now) (world_of self.new)) }
        ensures err { OnErr result (SameWorld self.old self.new) }
        ensures links { SameLinks self.old self.new }
        ensures stays { SameTime self.old self.new }
        ensures lived { OnErr result (SameLives self.old self.new) }
    {
        let kept = change.copy(alloc)?;
        self.make_room(1, 0)?;
        self.make_change(node, change, kept)
    }

    /// A node that there is makes a change without a fault, and the copy of it enters the log, which has room for it.
    fn make_change(&mut self, node: usize, change: &Change, kept: Change) -> Result<(), NoMemory>
        requires there { node < length self.old.nodes.items }
        requires may { MayChange self.old.nodes.items node (change_view change.now) }
        requires kept { change_view kept ≡ change_view change.now }
        requires room { HasLogRoom self.old }
        ensures changed { OnOk result (IsChanged (world_of self.old) node (change_view change.now) (world_of self.new)) }
        ensures err { OnErr result (SameWorld self.old self.new) }
        ensures links { SameLinks self.old self.new }
        ensures stays { SameTime self.old self.new }
        ensures lived { OnErr result (SameLives self.old self.new) }
    {
        change_node(&mut self.nodes, node, change)?;
        self.log.push_reserved(Fact::Changed { node, change: kept });
        Ok(())
    }
}
