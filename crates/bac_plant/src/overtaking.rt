//! Plants in which a copy may be overtaken by any number of others.

ghost use Rattle.std.specs.Prelude.{ℕ, List};
ghost use Rattle.bac_protocol.specs.Pace.{IsTimely};
ghost use Rattle.bac_world.specs.Claims.{AreServedApart};
ghost use Rattle.bac_world.specs.LongApdus.{RepliesFit, TakeLongApdus};
ghost use Rattle.bac_world.specs.Once.{IsOnce};
ghost use Rattle.bac_world.specs.ReusingLogs.{IsOnceSo, NoneReuses, Reuses};
ghost use Rattle.bac_world.specs.World.{IsFresh};
ghost use Rattle.bac_plant.specs.Composed.{AreCalled, IsComposed, upon};
ghost use Rattle.bac_plant.specs.LongApdus.{AllAskLong, CanReplyThroughout, IsReachedLong, RepliesFitBefore};
ghost use Rattle.bac_plant.specs.LongStretches.{IsReachedLongIn, LongMovesGoOn};
ghost use Rattle.bac_plant.specs.NextSteps.{AsksGoOn, HeldTurnsGoOn, TurnsGoOn};
ghost use Rattle.bac_plant.specs.Plants.{Plant, world_of};
ghost use Rattle.bac_plant.specs.Runs.{IsApartWithoutReuse, IsRight, IsRightWithoutReuse, OfLongRuns, stores_in};
ghost use Rattle.bac_plant.specs.Steps.{PlantRun, Step};

/// What `turns_are_events` says of a run of a fresh plant holds whatever overtakes what, if all stations take APDUs of 480 octets or more, and who asks one knows
/// that. No reply in the log is longer than can be sent, as none of a store of this stack is.
pub fn long_apdus_need_no_bound_on_overtaking()
    ensures once { OfLongRuns IsRight }
    ensures once_without_reuse { OfLongRuns IsRightWithoutReuse }
    ensures apart { OfLongRuns IsApartWithoutReuse }
{}

/// The same over restarts with other settings, if the stations that start so take such APDUs too. Moves, as those that power cuts make, lead on there.
pub fn long_apdus_need_no_bound_with_other_settings()
    ensures once { (W overtake : ℕ) (ever : Reuses) (first new : Plant) → IsReachedLongIn W overtake ever first new
        → IsOnceSo ever (stores_in first) new.log (stores_in new) }
    ensures once_without_reuse { (W overtake : ℕ) (ever : Reuses) (first new : Plant) → IsReachedLongIn W overtake ever first new → NoneReuses ever
        → IsOnce (stores_in first) new.log (stores_in new) }
    ensures apart { (W overtake : ℕ) (ever : Reuses) (first new : Plant) → IsReachedLongIn W overtake ever first new → NoneReuses ever
        → AreServedApart (world_of new) }
    ensures moves { LongMovesGoOn }
{}

/// There too, whatever a call promises of a station is a step of the plant, as `calls_go_on` says: a turn, a turn whose sends are held, and an ask. Of its other
/// calls that says so of every plant.
pub fn calls_go_on_with_long_apdus()
    ensures turns { (W overtake : ℕ) (p : Plant) → IsReachedLong W overtake p → TurnsGoOn overtake p }
    ensures held_turns { (W overtake : ℕ) (p : Plant) → IsReachedLong W overtake p → HeldTurnsGoOn overtake p }
    ensures asks { (W overtake : ℕ) (p : Plant) → IsReachedLong W overtake p → AsksGoOn overtake p }
{}

/// And calls that stations make one after another are a run there, as `calls_compose` says.
pub fn calls_compose_with_long_apdus()
    ensures { (W overtake : ℕ) (first : Plant) → IsFresh (world_of first) → IsTimely first.time.pace → TakeLongApdus W (world_of first)
        → (so_far : List Step) → AllAskLong so_far → (p : Plant) → PlantRun overtake so_far first p → (later : List Step) → AllAskLong later
        → AreCalled overtake later p → RepliesFitBefore overtake later p → IsComposed overtake first (upon later so_far) }
{}

/// No reply in the log of a run is longer than can be sent, if none was before it and none of a station's store is. Of each store that code holds
/// `replies_can_be_sent` of bac_store says that.
pub fn replies_of_stores_fit()
    ensures { (overtake : ℕ) (steps : List Step) (old new : Plant) → (run : PlantRun overtake steps old new) → CanReplyThroughout overtake steps old new run
        → RepliesFit old.log → RepliesFit new.log }
{}
