//! Copies that come to their nodes.
ghost use Rattle.std.specs.Prelude.{◌+◌, ℕ, OnErr, OnOk};
ghost use Rattle.bac_world.specs.World.Event.{Deliver};
ghost use Rattle.bac_network.specs.Goings.{Arrives};
ghost use Rattle.bac_network.specs.Networks.{world_of, HasRoom, IsReadySo, SameWorld, SameLinks, SameTime, SameLives};
ghost use Rattle.bac_network.specs.Rules.{reuses_by};
ghost use Rattle.bac_network.specs.Steps.{HappensSo, TakesMemory};

use crate::entering::enter;
use crate::fault::WorldFault;
use crate::going::hear_copy;
use crate::network::Network;
use bac_value::NoMemory;

impl Network {
    /// A copy is delivered to its node, where it is deliverable; otherwise it is lost, which takes no memory.
    pub(crate) fn deliver(
        &mut self,
        overtake: u8,
        window: u8,
        reuses: &[bool],
        number: usize,
    ) -> Result<(), WorldFault>
        requires { IsReadySo (reuses_by reuses.now) window overtake self.old }
        ensures happens { HappensSo overtake (reuses_by reuses.now) (world_of self.old) (Deliver number) result (world_of self.new) }
        ensures links { SameLinks self.old self.new }
        ensures stays { SameTime self.old self.new }
        ensures lived { OnErr result (SameLives self.old self.new) }
    {
        match self.journal.is_deliverable(overtake, number) {
            None => Err(WorldFault::NoSuchDatagram),
            Some(false) => Ok(()),
            Some(true) => Ok(self.deliver_now(window, reuses, number)?),
        }
    }

    /// A copy that is deliverable is delivered to its node.
    fn deliver_now(&mut self, window: u8, reuses: &[bool], number: usize) -> Result<(), NoMemory>
        requires { (overtake : ℕ) × IsReadySo (reuses_by reuses.now) window overtake self.old × TakesMemory overtake (world_of self.old) (Deliver number) }
        ensures went { OnOk result (Arrives (reuses_by reuses.now) (world_of self.old) number (world_of self.new)) }
        ensures err { OnErr result (SameWorld self.old self.new) }
        ensures links { SameLinks self.old self.new }
        ensures stays { SameTime self.old self.new }
        ensures lived { OnErr result (SameLives self.old self.new) }
    {
        self.make_room(2, usize::from(window) + 1)?;
        self.hand_over(window, reuses, number)
    }

    /// A copy that is deliverable is handed to its node. There is room: a node sends at most a window and one more datagram of it, and at most one ticket ends
    /// and one request is performed.
    fn hand_over(&mut self, window: u8, reuses: &[bool], number: usize) -> Result<(), NoMemory>
        requires ready { (overtake : ℕ) × IsReadySo (reuses_by reuses.now) window overtake self.old × TakesMemory overtake (world_of self.old) (Deliver number) }
        requires room { HasRoom 2 (window + 1) self.old }
        ensures went { OnOk result (Arrives (reuses_by reuses.now) (world_of self.old) number (world_of self.new)) }
        ensures err { OnErr result (SameWorld self.old self.new) }
        ensures links { SameLinks self.old self.new }
        ensures stays { SameTime self.old self.new }
        ensures lived { OnErr result (SameLives self.old self.new) }
    {
        let (to, outcome) = hear_copy(&mut self.nodes, &self.journal, reuses, number)?;
        enter(
            &self.nodes[to],
            &mut self.journal,
            &mut self.log,
            to,
            outcome,
        );
        Ok(())
    }
}
