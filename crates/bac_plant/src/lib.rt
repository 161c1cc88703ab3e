//! Stations that take turns on one network: what programs do by the calls of bac_driver is what happens in a world, so its theorem holds of them.
//!
//! The definitions are in `specs/`. The functions here have no body: each carries a law as its contract.
#![tactic(auto)]

pub mod examples;
mod hosts;
pub mod other_settings;
mod overtaking;
mod power;
mod replies;
mod strangers;

ghost use Rattle.std.specs.Prelude.{◌≡◌, ◌+◌, ◌≤◌, ℕ, List, true};
ghost use Rattle.bac_protocol.specs.Pace.{IsTimely};
ghost use Rattle.bac_world.specs.World.{IsBounded, IsFresh, WorldRun, is_quiet};
ghost use Rattle.bac_plant.specs.Chains.{AskingIsChain, AskingStopsInChain, FirstIsChain, SecondIsChain, ServingIsChain, ServingStopsInChain, StepsAreChain};
ghost use Rattle.bac_plant.specs.Chains.{WaitingIsChain};
ghost use Rattle.bac_plant.specs.Composed.{AreCalled, IsComposed, upon};
ghost use Rattle.bac_plant.specs.Cuts.{CutPlant};
ghost use Rattle.bac_plant.specs.CutRuns.{CutRunsAreEvents, CutRunsAreEventsWithoutReuse, CutRunsAreRuns, HeldStepsAreChain, HeldStepsAreRound, LostRoundsAreNothing};
ghost use Rattle.bac_plant.specs.CutRuns.{OfFreshCutRuns, RequestsMakeStores};
ghost use Rattle.bac_plant.specs.Events.{events_of};
ghost use Rattle.bac_plant.specs.NextCuts.{FoundStoresGoOn, KeptStoresGoOn, LostTurnsGoOn, StepsGoOn};
ghost use Rattle.bac_plant.specs.NextSteps.{AsksGoOn, ChangesGoOn, FailuresGoOn, HeldSendsGoOn, HeldTurnsGoOn, IsReached, RestartsGoOn, StartsAgainGoOn, StartsGoOn, StrangersAskedGoOn};
ghost use Rattle.bac_plant.specs.NextSteps.{AfterEachRun, InEachPlant, TurnsGoOn};
ghost use Rattle.bac_plant.specs.Pauses.{AsksNone, pause};
ghost use Rattle.bac_plant.specs.Plants.{HasNoReuse, Plant, world_of};
ghost use Rattle.bac_plant.specs.Rounds.{FailedRoundStops, RoundEndsAsHeld, RoundIsInChain, ServingRoundsIsChain, ServingRoundsStops};
ghost use Rattle.bac_plant.specs.Runs.{GoesThrough, IsApartWithoutReuse, IsRight, IsRightWithoutReuse, KeepsRules, KeepsSettings, OfFreshRuns, OfRuns, OfSteps};
ghost use Rattle.bac_plant.specs.Steps.{PlantRun, Step};

use bac_driver::Observer;
use bac_keep::Keeper;
pub use hosts::{boots_go_on, clients_are_right, clients_find_quiet, days_are_long};
pub use overtaking::{
    calls_compose_with_long_apdus, calls_go_on_with_long_apdus,
    long_apdus_need_no_bound_on_overtaking, long_apdus_need_no_bound_with_other_settings,
    replies_of_stores_fit,
};
pub use power::power_cuts_are_restarts;
pub use replies::{answers_are_replies, answers_are_replies_with_long_apdus};
pub use strangers::strangers_writes_act_once;

/// The turns that stations take are events of a world, and so are the turns of a round, whose sends are held, and their asks, changes and restarts. A
/// run of a plant is the run of its world through the events of its steps. In that world the nodes let clients use invoke IDs again whose stations
/// do. No step changes a setting, how reads are served, or how long requests are remembered (a restart may change how much memory they take). Each
/// station that takes a turn remembers requests for 65,000 ms or longer: turns of one that forgets sooner are no steps. After a run of a fresh plant
/// the log, which has all that turns returned as performed and ended, is right with the stores. Where no station lets invoke IDs be used again, no
/// read is performed twice either. Requests of one stranger under one invoke ID, between two restarts of a station, are performed there in entries
/// that began more than 65,000 ms apart. That holds whatever strangers send.
#[tactic(auto, using(crate::proofs::Settings::run_settings, crate::proofs::Settings::run_stays, crate::proofs::Runs::run_events, crate::proofs::Runs::run_events_ever))]
pub fn turns_are_events()
    ensures settings { OfRuns KeepsSettings }
    ensures stays { OfRuns KeepsRules }
    ensures events { OfSteps GoesThrough }
    ensures once { OfFreshRuns IsRight }
    ensures events_without_reuse { (overtake : ℕ) (steps : List Step) (old new : Plant) → HasNoReuse old → PlantRun overtake steps old new
        → WorldRun overtake (world_of old) (events_of steps) (world_of new) }
    ensures once_without_reuse { OfFreshRuns IsRightWithoutReuse }
    ensures apart { OfFreshRuns IsApartWithoutReuse }
{}

/// Whatever a call promises of a station, at the moment of its clock and by a datagram that the network may hand over, is a step of the plant. That
/// holds after each run of a fresh plant, whichever stations let invoke IDs be used again. There are the asks, transactions and strangers of all that
/// the call returned. A turn, also one whose sends are held, is a step where its station remembers each request for 65,000 ms or longer. So no turn
/// of such a station is left out of the law above.
#[tactic(auto, using(crate::proofs::Next::changes_go_on, crate::proofs::Next::restarts_go_on, crate::proofs::Next::starts_go_on, crate::proofs::Next::starts_again_go_on))]
pub fn calls_go_on()
    ensures turns { AfterEachRun TurnsGoOn }
    ensures held_turns { AfterEachRun HeldTurnsGoOn }
    ensures held_sends { InEachPlant HeldSendsGoOn }
    ensures asks { AfterEachRun AsksGoOn }
    ensures strangers_asked { InEachPlant StrangersAskedGoOn }
    ensures failures { InEachPlant FailuresGoOn }
    ensures changes { InEachPlant ChangesGoOn }
    ensures restarts { InEachPlant RestartsGoOn }
    ensures starts { InEachPlant StartsGoOn }
    ensures starts_again { InEachPlant StartsAgainGoOn }
{}

/// Calls that stations make one after another are a run, in any order of stations, with time passing, restarts and starts between them. They continue
/// a run of a fresh plant on two conditions. Each call keeps its contract in the plant that the calls before it led to, with the stations that these
/// left, and the network may hand over what came. So whatever holds of all runs of a plant holds of whole programs.
pub fn calls_compose()
    ensures { (W overtake : ℕ) (first : Plant) → IsFresh (world_of first) → IsTimely first.time.pace → IsBounded W overtake (world_of first)
        → (so_far : List Step) (p : Plant) → PlantRun overtake so_far first p → (later : List Step) → AreCalled overtake later p
        → IsComposed overtake first (upon later so_far) }
{}

/// A station that asks nothing for so long is quiet: all is over that its client sent, so another program may begin there. With one clock in whole
/// milliseconds, and copies that live for 5,000 ms, that is 135,001 ms.
pub fn pauses_make_quiet()
    ensures { (W overtake station : ℕ) (p : Plant) → IsReached W overtake p → (steps : List Step) (new : Plant) → PlantRun overtake steps p new
        → AsksNone station steps → p.time.now + pause p.time.pace ≤ new.time.now → is_quiet (world_of new) station ≡ true }
{}

/// What `serve`, `ask` and `pair` promise is a chain of turns of each station, for `ask` after its ask; for `serve` and `ask` also where a fault
/// stops them. The turns of a station that does nothing else in a run of a plant are such a chain too, whatever other stations do between them. By
/// the law above each turn of a chain is a step, where that station remembers each request for 65,000 ms or longer.
#[tactic(auto, using(crate::proofs::Chained::first_chain, crate::proofs::Chained::second_chain, crate::proofs::Chained::steps_chain))]
pub fn chains_are_steps()
    ensures served { ServingIsChain }
    ensures ended { AskingIsChain }
    ensures waited { WaitingIsChain }
    ensures serving_failed { ServingStopsInChain }
    ensures asking_failed { AskingStopsInChain }
    ensures first { FirstIsChain }
    ensures second { SecondIsChain }
    ensures steps { StepsAreChain }
{}

/// What `round_before` and `serve_kept` promise of a station is a chain of rounds. A round is turns whose sends are held, one after the other, and
/// then all that they hold is sent. By `calls_go_on` each of these is a step, where the station remembers each request for 65,000 ms or longer. Where
/// serving stops for a fault, so are the rounds before. A round that fails is such turns too, after which its link may have failed to receive, as a
/// step does. If a station does nothing else in a run of a plant, the turns that it holds are such a chain too, whatever other stations do between
/// them. That includes a round that a power cut takes back. With the sends of all that they hold they are a round.
#[tactic(auto, using(crate::proofs::Holding::held_chain))]
pub fn rounds_are_events<W, O: Observer<W>, K: Keeper>()
    ensures round { RoundIsInChain O.Sees }
    ensures held { RoundEndsAsHeld O.Sees }
    ensures failed { FailedRoundStops }
    ensures served { ServingRoundsIsChain O.Sees }
    ensures stopped { ServingRoundsStops O.Sees K.IsHonest K.may_find }
    ensures steps { HeldStepsAreChain }
    ensures sent { HeldStepsAreRound }
{}

/// A plant whose stations' power is cut at any moment, also in the midst of a round, is a plant whose stations restart with the stores that they
/// have. After a cut a station starts again with the store that its keeper finds. Rounds that a cut takes back are nothing there, and in them a
/// station stands as before. Its events are those of a world in which the power of nodes is cut. So after a run of a fresh one the log is right with
/// the stores. Where no station lets invoke IDs be used again, changes its own store, or restarts with another one, each store is what performed
/// requests make of its opening one.
#[tactic(auto, using(crate::proofs::Cut::cut_steps, crate::proofs::CutEvents::cut_events, crate::proofs::CutEvents::cut_events_ever, crate::proofs::Holding::lost_stays))]
pub fn cut_rounds_are_restarts()
    ensures steps { CutRunsAreRuns }
    ensures events { CutRunsAreEvents }
    ensures events_without_reuse { CutRunsAreEventsWithoutReuse }
    ensures lost { LostRoundsAreNothing }
    ensures once { OfFreshCutRuns IsRight }
    ensures once_without_reuse { OfFreshCutRuns IsRightWithoutReuse }
    ensures by_requests { RequestsMakeStores }
    ensures apart { OfFreshCutRuns IsApartWithoutReuse }
{}

/// In a plant with power cuts each step of a station that loses no round can be the next one. So can each turn of a round that is lost. An honest
/// keeper finds a store after a cut in a round, also in one that failed. The start with that store is the restart of a station that stands as before
/// the round, or as after all turns that it held. The start with what it finds between rounds is the restart of the station as it stands.
pub fn cuts_go_on<K: Keeper>()
    ensures steps { (overtake : ℕ) (c : CutPlant) → StepsGoOn overtake c }
    ensures lost_turns { (overtake : ℕ) (c : CutPlant) → LostTurnsGoOn overtake c }
    ensures found { (overtake : ℕ) → FoundStoresGoOn K.IsHonest K.may_find overtake }
    ensures kept { (overtake : ℕ) → KeptStoresGoOn K.IsHonest K.IsOpen K.kept K.noted K.may_find overtake }
{}
