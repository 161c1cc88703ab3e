//! Power cuts of nodes whose stores are kept, as restarts of a world.
ghost use Rattle.std.specs.Prelude.{ℕ, List};
ghost use Rattle.bac_world.specs.ReusingLogs.{Reuses};
ghost use Rattle.bac_world.specs.World.{World};
ghost use Rattle.bac_plant.specs.PowerCuts.{CutEvent, CutRun, CutRunSo, IsRunOfRestarts, IsRunOfRestartsSo};

/// A law: a run of nodes with power cuts is a run of the world in which nodes restart with the stores that they have. The cuts come at any moments,
/// between events or in the midst of one. After each the node starts with the store that its file gives, the one before the event or the one after
/// it. So what is proved of runs holds over power cuts, also where some nodes let clients use an invoke ID again as soon as its transaction is over.
/// It does nothing.
#[tactic(auto, using(crate::proofs::PowerRuns::runs, crate::proofs::PowerRuns::runs_so))]
pub fn power_cuts_are_restarts()
    ensures runs { (overtake : ℕ) (old new : World) (events : List CutEvent) → CutRun overtake old events new → IsRunOfRestarts overtake old new }
    ensures reusing { (overtake : ℕ) (u : Reuses) (old new : World) (events : List CutEvent) → CutRunSo overtake u old events new
        → IsRunOfRestartsSo overtake u old new }
{}
