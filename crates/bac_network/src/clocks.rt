//! Worlds whose nodes have clocks of their own.
ghost use Rattle.std.specs.Prelude.{◌≡◌, ◌↔◌, IsErrOf, IfErr, IfOk, None, OnErr, OnOk, length, slice_get};
ghost use Rattle.bac_protocol.specs.Pace.{IsTimely};
ghost use Rattle.bac_journal.specs.Clocks.{drift_of, own_pace, paced};
ghost use Rattle.bac_network.specs.Fresh.{clock_world, ruled_clock_world, IsRefusedWithClocks, IsRight};
ghost use Rattle.bac_network.specs.Histories.{as_world};
ghost use Rattle.bac_network.specs.Runs.{KeepsSettings};
ghost use Rattle.bac_network.specs.Clocks.{IsWithinDrift, IsBeyondDrift};

use crate::fault::{NewClocksFault, NewWorldFault, PaceFault};
use crate::making::{MOST_SLOTS, checked, greatest_window, links_of, nodes_made, stores_of};
use crate::network::Network;
use crate::world::World;
use bac_journal::{Journal, Pace};
use bac_node::Config;
use bac_store::Store;
use bac_value::NoMemory;
use std::alloc::Global;

impl World {
    /// A world as of `new`, in which each node has a clock of its own. Each clock begins at its start, in milliseconds, and at first goes on by real
    /// time. By `set_pace` it may be fast or slow by at most `pace.drift` parts in a million. A copy that is older than `pace.life` milliseconds of
    /// real time is lost. A node that restarts begins with a clock at 0. Moments of this world are counted in millionths of a millisecond.
    ///
    /// It is refused for the first of these that holds: `BadPace`, exactly where the times of the protocol don't suffice for clocks of that pace and copies
    /// that live so long; `BadStarts`, there is not one start for each node; `NotMade`, for which `new` would refuse it.
    pub fn with_clocks(
        alloc: Global,
        nodes: Vec<(Config, Store)>,
        overtake: u64,
        pace: Pace,
        starts: &[u32],
    ) -> Result<World, NewClocksFault>
        ensures made { IfOk result (λ w. w ≡ clock_world overtake nodes.items pace.drift pace.life starts.now) }
        ensures right { OnOk result (IsTimely (own_pace pace.drift pace.life) × IsRight overtake nodes.items) }
        ensures refused { IfErr result (λ e. IsRefusedWithClocks e overtake nodes.items pace.drift pace.life starts.now) }
    {
        World::with_clocks_and_rules(alloc, nodes, overtake, pace, starts, Vec::new(alloc))
    }

    /// A world as of `with_clocks`, with rules for each node as `with_rules` takes them. It is refused as `with_clocks` refuses it.
    pub fn with_clocks_and_rules(
        alloc: Global,
        nodes: Vec<(Config, Store)>,
        overtake: u64,
        pace: Pace,
        starts: &[u32],
        reuses: Vec<bool>,
    ) -> Result<World, NewClocksFault>
        ensures made { IfOk result (λ w. w ≡ ruled_clock_world overtake reuses.items nodes.items pace.drift pace.life starts.now) }
        ensures right { OnOk result (IsTimely (own_pace pace.drift pace.life) × IsRight overtake nodes.items) }
        ensures refused { IfErr result (λ e. IsRefusedWithClocks e overtake nodes.items pace.drift pace.life starts.now) }
    {
        if !pace.is_timely() {
            return Err(NewClocksFault::BadPace);
        }
        if starts.len() != nodes.len() {
            return Err(NewClocksFault::BadStarts);
        }
        let limit = checked(MOST_SLOTS, &nodes, overtake)?;
        match World::fresh_with_clocks(alloc, nodes, limit, pace, starts, reuses) {
            Ok(world) => Ok(world),
            Err(NoMemory) => Err(NewClocksFault::NotMade(NewWorldFault::NoMemory)),
        }
    }

    /// A world of nodes that are right, with clocks that are.
    fn fresh_with_clocks(
        alloc: Global,
        makers: Vec<(Config, Store)>,
        overtake: u8,
        pace: Pace,
        starts: &[u32],
        reuses: Vec<bool>,
    ) -> Result<World, NoMemory>
        requires right { IsRight overtake makers.items }
        requires timely { IsTimely (own_pace pace.drift pace.life) }
        requires each { length starts.now ≡ length makers.items }
        ensures { IfOk result (λ w. w ≡ ruled_clock_world overtake reuses.items makers.items pace.drift pace.life starts.now) }
    {
        let window = greatest_window(&makers);
        let opening = stores_of(alloc, &makers)?;
        let journal = Journal::with_clocks(alloc, links_of(alloc, &makers)?, pace, starts)?;
        let nodes = nodes_made(alloc, makers)?;
        Ok(World {
            alloc,
            overtake,
            window,
            opening,
            reuses,
            network: Network {
                nodes,
                journal,
                log: Vec::new(alloc),
            },
        })
    }

    /// From now on a node's clock goes on by so many parts while a million parts of real time pass. It is then fast or slow by no more than the drift
    /// of the world's clocks. No time passes. In a world of `new`, where all nodes have one clock, the drift is 0: a rate of 1,000,000 is taken and
    /// changes nothing. Errors: `NoSuchNode`; `BadPace`, exactly where it would be faster or slower. After an error nothing has changed.
    pub fn set_pace(&mut self, node: usize, rate: u32) -> Result<(), PaceFault>
        ensures same { as_world self.new ≡ as_world self.old }
        ensures paced { OnOk result (self.new.time ≡ record (self.old.time) { own = paced node rate self.old.time.own }) }
        ensures err { OnErr result (self.new ≡ self.old) }
        ensures settings { KeepsSettings self.old self.new }
        ensures node { IsErrOf result PaceFault.NoSuchNode ↔ (slice_get self.old.nodes node ≡ None) }
        ensures within { OnOk result (IsWithinDrift (drift_of self.old.time.own) rate) }
        ensures beyond { IsErrOf result PaceFault.BadPace → IsBeyondDrift (drift_of self.old.time.own) rate }
    {
        if node >= self.network.nodes.len() {
            return Err(PaceFault::NoSuchNode);
        }
        let drift = u64::from(self.network.journal.drift());
        let rate_of = u64::from(rate);
        // no rate below 1,000,000 - drift, written without a difference
        if rate_of + drift < 1_000_000 || rate_of > 1_000_000 + drift {
            return Err(PaceFault::BadPace);
        }
        self.network.journal.set_rate(node, rate);
        Ok(())
    }
}
