//! Octets that no node sent.
ghost use Rattle.std.specs.Prelude.{◌<◌, ℕ, length, OnErr};
ghost use Rattle.bac_world.specs.Laws.{IsMeaningless};
ghost use Rattle.bac_world.specs.ReusingWorlds.{HearsOutsideSo};
ghost use Rattle.bac_world.specs.World.Event.{Noise};
ghost use Rattle.bac_network.specs.Goings.{ArePunctual};
ghost use Rattle.bac_network.specs.Networks.{told_in, world_of, IsReadySo, SameLinks, SameTime, SameLives};
ghost use Rattle.bac_network.specs.Rules.{reuses_by};
ghost use Rattle.bac_network.specs.Steps.{HappensSo};

use crate::fault::WorldFault;
use crate::going::{hear, reuses_at};
use crate::network::Network;
use bac_journal::is_meaningless;
use bac_npdu::LinkAddress;

impl Network {
    /// Octets that mean no APDU of a peer come to a node, from any link; others are lost. It takes no memory.
    pub(crate) fn hear_noise(
        &mut self,
        reuses: &[bool],
        node: usize,
        from: LinkAddress,
        octets: &[u8],
    ) -> Result<(), WorldFault>
        requires { (window : ℕ) × (overtake : ℕ) × IsReadySo (reuses_by reuses.now) window overtake self.old }
        ensures happens { (overtake : ℕ) → HappensSo overtake (reuses_by reuses.now) (world_of self.old) (Noise node from octets.now) result (world_of self.new) }
        ensures links { SameLinks self.old self.new }
        ensures stays { SameTime self.old self.new }
        ensures lived { OnErr result (SameLives self.old self.new) }
    {
        if node >= self.nodes.len() {
            return Err(WorldFault::NoSuchNode);
        }
        if is_meaningless(from, octets) {
            self.drop_noise(reuses, node, from, octets);
        }
        Ok(())
    }

    /// A node drops what means nothing.
    fn drop_noise(&mut self, reuses: &[bool], node: usize, from: LinkAddress, octets: &[u8])
        requires punctual { ArePunctual self.old.nodes.items (told_in self.old) }
        requires there { node < length self.old.nodes.items }
        requires linked { node < length self.old.journal.links }
        requires noise { IsMeaningless from octets.now }
        ensures heard { HearsOutsideSo (IsMeaningless from octets.now) (reuses_by reuses.now) (world_of self.old) node from octets.now (world_of self.new) }
        ensures links { SameLinks self.old self.new }
        ensures stays { SameTime self.old self.new }
    {
        // a datagram that is dropped takes no memory
        let reuse = reuses_at(reuses, node);
        let now = self.journal.told(node);
        let Ok(_outcome) = hear(&mut self.nodes, node, reuse, now, from, octets) else {
            unreachable!()
        };
        self.journal.act(node);
    }
}
