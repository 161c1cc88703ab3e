//! Octets of strangers.
ghost use Rattle.std.specs.Prelude.{◌+◌, ◌<◌, ℕ, OnErr, OnOk, length};
ghost use Rattle.bac_world.specs.World.{IsOfNone};
ghost use Rattle.bac_world.specs.World.Event.{Stray};
ghost use Rattle.bac_network.specs.Networks.{world_of, HasRoom, IsReadySo, SameWorld, SameLinks, SameTime, SameLives};
ghost use Rattle.bac_network.specs.Rules.{reuses_by};
ghost use Rattle.bac_network.specs.Steps.{HappensSo};
ghost use Rattle.bac_network.specs.Calls.{HearsStray};

use crate::entering::enter;
use crate::fault::WorldFault;
use crate::going::{hear, reuses_at};
use crate::network::Network;
use bac_npdu::LinkAddress;
use bac_value::NoMemory;

impl Network {
    /// Octets of a stranger come to a node, whatever they are.
    pub(crate) fn hear_stranger(
        &mut self,
        window: u8,
        reuses: &[bool],
        node: usize,
        from: LinkAddress,
        octets: &[u8],
    ) -> Result<(), WorldFault>
        requires { (overtake : ℕ) × IsReadySo (reuses_by reuses.now) window overtake self.old }
        ensures happens { (overtake : ℕ) → HappensSo overtake (reuses_by reuses.now) (world_of self.old) (Stray node from octets.now) result (world_of self.new) }
        ensures links { SameLinks self.old self.new }
        ensures stays { SameTime self.old self.new }
        ensures lived { OnErr result (SameLives self.old self.new) }
    {
        if node >= self.nodes.len() {
            return Err(WorldFault::NoSuchNode);
        }
        match self.journal.node_of(from) {
            Some(_node) => Err(WorldFault::NodeLink),
            None => Ok(self.hear_from_outside(window, reuses, node, from, octets)?),
        }
    }

    /// Octets from a link of no node come to a node that there is. All room is made before it hears them.
    fn hear_from_outside(
        &mut self,
        window: u8,
        reuses: &[bool],
        node: usize,
        from: LinkAddress,
        octets: &[u8],
    ) -> Result<(), NoMemory>
        requires ready { (overtake : ℕ) × IsReadySo (reuses_by reuses.now) window overtake self.old }
        requires there { node < length self.old.nodes.items }
        requires stranger { IsOfNone self.old.nodes.items from }
        ensures went { OnOk result (HearsStray reuses.now self.old node from octets.now self.new) }
        ensures err { OnErr result (SameWorld self.old self.new) }
        ensures links { SameLinks self.old self.new }
        ensures stays { SameTime self.old self.new }
        ensures lived { OnErr result (SameLives self.old self.new) }
    {
        self.make_room(2, usize::from(window) + 1)?;
        self.hear_with_room(window, reuses, node, from, octets)
    }

    /// A node hears octets from a link of no node, where there is room for what comes of them. It sends at most a window and one more datagram; at
    /// most one ticket ends, and one request is performed.
    fn hear_with_room(
        &mut self,
        window: u8,
        reuses: &[bool],
        node: usize,
        from: LinkAddress,
        octets: &[u8],
    ) -> Result<(), NoMemory>
        requires ready { (overtake : ℕ) × IsReadySo (reuses_by reuses.now) window overtake self.old }
        requires there { node < length self.old.nodes.items }
        requires stranger { IsOfNone self.old.nodes.items from }
        requires room { HasRoom 2 (window + 1) self.old }
        ensures went { OnOk result (HearsStray reuses.now self.old node from octets.now self.new) }
        ensures err { OnErr result (SameWorld self.old self.new) }
        ensures links { SameLinks self.old self.new }
        ensures stays { SameTime self.old self.new }
        ensures lived { OnErr result (SameLives self.old self.new) }
    {
        let reuse = reuses_at(reuses, node);
        let now = self.journal.told(node);
        let outcome = hear(&mut self.nodes, node, reuse, now, from, octets)?;
        enter(
            &self.nodes[node],
            &mut self.journal,
            &mut self.log,
            node,
            outcome,
        );
        Ok(())
    }
}
