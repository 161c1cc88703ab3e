//! Restarts of stations with other settings.

ghost use Rattle.std.specs.Prelude.{ℕ};
ghost use Rattle.bac_world.specs.Claims.{AreServedApart};
ghost use Rattle.bac_world.specs.Once.{IsOnce};
ghost use Rattle.bac_world.specs.ReusingLogs.{IsOnceSo, NoneReuses, Reuses};
ghost use Rattle.bac_plant.specs.Anew.{RestartsAnewGoOn, StartsAnewGoOn};
ghost use Rattle.bac_plant.specs.CutMoves.{CutMovesAreMoves, CutMovesGoOn};
ghost use Rattle.bac_plant.specs.Moves.{AfterStretches, CallsComposeIn, IsReachedIn, MovesGoOn};
ghost use Rattle.bac_plant.specs.NextCuts.{CanStartAnew, FoundStoresStart, KeptStoresStart};
ghost use Rattle.bac_plant.specs.NextSteps.{AsksGoOn, HeldTurnsGoOn, TurnsGoOn};
ghost use Rattle.bac_plant.specs.Pauses.{PausesMakeQuietIn};
ghost use Rattle.bac_plant.specs.Plants.{Plant, world_of};
ghost use Rattle.bac_plant.specs.Runs.{stores_in};

use bac_keep::Keeper;

/// The headline holds over restarts with other settings: an operator may start a station again with another window, APDU size, number of segments, or with
/// other rules. All windows stay within one bound. Only stations that ever let invoke IDs be used again may perform a read more than once.
pub fn restarts_may_change_settings()
    ensures once { (W overtake : ℕ) (ever : Reuses) (first new : Plant) → IsReachedIn W overtake ever first new
        → IsOnceSo ever (stores_in first) new.log (stores_in new) }
    ensures once_without_reuse { (W overtake : ℕ) (ever : Reuses) (first new : Plant) → IsReachedIn W overtake ever first new → NoneReuses ever
        → IsOnce (stores_in first) new.log (stores_in new) }
    ensures apart { (W overtake : ℕ) (ever : Reuses) (first new : Plant) → IsReachedIn W overtake ever first new → NoneReuses ever
        → AreServedApart (world_of new) }
{}

/// After each run of a plant a station may restart with whatever other settings and rules, and another program may start there once all is over that the client
/// before it sent.
pub fn restarts_with_other_settings_go_on()
    ensures restarts { RestartsAnewGoOn }
    ensures starts { StartsAnewGoOn }
{}

/// After such restarts too, what a call promises of a station is a step of the plant: a turn, a turn whose sends are held, and an ask.
/// The station has the settings of its last start. Of its other calls `calls_go_on` says that of every plant. Steps and such restarts lead the first plant's run
/// on, so the headline holds after them.
pub fn calls_go_on_with_other_settings()
    ensures turns { AfterStretches TurnsGoOn }
    ensures held_turns { AfterStretches HeldTurnsGoOn }
    ensures asks { AfterStretches AsksGoOn }
    ensures moves { MovesGoOn }
{}

/// And calls that stations make one after another, some of them starting again with other settings, lead that run on, as `calls_compose` says.
pub fn calls_compose_with_other_settings()
    ensures { CallsComposeIn }
{}

/// There too a station that asks nothing for so long is quiet, as `pauses_make_quiet` says, so another program may begin there with other settings.
pub fn pauses_make_quiet_with_other_settings()
    ensures { PausesMakeQuietIn }
{}

/// Over power cuts too: a cut, or a start with other settings after one, is a move of the plant, and rounds that a cut takes back are none. So those moves lead
/// the first plant's run on, and the headline holds after them.
pub fn cuts_may_change_settings()
    ensures moves { CutMovesAreMoves }
    ensures reached { CutMovesGoOn }
{}

/// After a cut a station may start with other settings, by the store that an honest keeper finds. It stands as before the round then, or as after all turns that
/// the round held. Between rounds it starts as it stands.
pub fn cuts_with_other_settings_go_on<K: Keeper>()
    ensures found { FoundStoresStart K.IsHonest K.may_find CanStartAnew }
    ensures kept { KeptStoresStart K.IsHonest K.IsOpen K.kept K.noted K.may_find CanStartAnew }
{}
