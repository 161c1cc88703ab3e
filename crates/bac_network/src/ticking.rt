//! Ticks of nodes, and of the clock.
ghost use Rattle.std.specs.Prelude.{◌≡◌, ◌+◌, ◌*◌, ◌<◌, ℕ, OnErr, OnOk, length};
ghost use Rattle.bac_node.specs.Views.{outcome_view};
ghost use Rattle.bac_world.specs.World.{Ticks};
ghost use Rattle.bac_world.specs.World.Event.{Advance, Tick};
ghost use Rattle.bac_network.specs.Goings.{IsDue};
ghost use Rattle.bac_journal.specs.Clocks.{later_by, parts_of, steps_of};
ghost use Rattle.bac_network.specs.Clocks.{instant};
ghost use Rattle.bac_network.specs.Networks.{told_in, world_of, HasRoom, SameWorld, SameLinks, SameTime, SameLives, CanGoOn};
ghost use Rattle.bac_network.specs.Steps.{Happens};

use crate::entering::enter;
use crate::fault::WorldFault;
use crate::going::{commit, due};
use crate::network::Network;
use bac_node::Outcome;
use bac_value::NoMemory;

impl Network {
    /// A node does what is due.
    pub(crate) fn tick(&mut self, node: usize) -> Result<(), WorldFault>
        requires { CanGoOn self.old }
        ensures happens { (overtake : ℕ) → Happens overtake (world_of self.old) (Tick node) result (world_of self.new) }
        ensures links { SameLinks self.old self.new }
        ensures stays { SameTime self.old self.new }
        ensures lived { OnErr result (SameLives self.old self.new) }
    {
        if node >= self.nodes.len() {
            return Err(WorldFault::NoSuchNode);
        }
        Ok(self.tick_now(node)?)
    }

    /// A node that there is does what is due. All room is made before it changes.
    fn tick_now(&mut self, node: usize) -> Result<(), NoMemory>
        requires ready { CanGoOn self.old }
        requires there { node < length self.old.nodes.items }
        ensures went { OnOk result (Ticks (world_of self.old) node (world_of self.new)) }
        ensures err { OnErr result (SameWorld self.old self.new) }
        ensures links { SameLinks self.old self.new }
        ensures stays { SameTime self.old self.new }
        ensures lived { OnErr result (SameLives self.old self.new) }
    {
        let outcome = due(&self.nodes[node], self.journal.told(node))?;
        self.make_room(outcome.ended.len(), outcome.sends.len())?;
        self.make_tick(node, outcome);
        Ok(())
    }

    /// A node does what is due, of which it is known what comes, and for which there is room. It takes no memory.
    fn make_tick(&mut self, node: usize, outcome: Outcome)
        requires ready { CanGoOn self.old }
        requires due { IsDue self.old.nodes.items (told_in self.old node) node (outcome_view outcome) }
        requires room { HasRoom (length (outcome_view outcome).ended) (length (outcome_view outcome).sends) self.old }
        ensures ticked { Ticks (world_of self.old) node (world_of self.new) }
        ensures links { SameLinks self.old self.new }
        ensures stays { SameTime self.old self.new }
    {
        commit(&mut self.nodes, node, self.journal.told(node));
        enter(
            &self.nodes[node],
            &mut self.journal,
            &mut self.log,
            node,
            outcome,
        );
    }

    /// The clock goes on. It takes no memory.
    pub(crate) fn advance(&mut self, by: u64) -> Result<(), WorldFault>
        ensures happens { (overtake : ℕ) → Happens overtake (world_of self.old)
            (Advance (parts_of self.old.journal.own * by) (steps_of self.old.journal.own by)) result (world_of self.new) }
        ensures links { SameLinks self.old self.new }
        ensures passed { OnOk result (instant self.new.journal
            ≡ record { moment = self.old.journal.moment + parts_of self.old.journal.own * by; own = later_by by self.old.journal.own }) }
        ensures stays { OnErr result (SameTime self.old self.new) }
        ensures lived { OnErr result (SameLives self.old self.new) }
    {
        match self.journal.advance(by) {
            Some(()) => Ok(()),
            None => Err(WorldFault::ClockEnd),
        }
    }
}
