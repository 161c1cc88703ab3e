//! Nodes that exchange datagrams, and a log of what was asked, performed and answered, as values: what holds of every run.
//!
//! The definitions stand in `specs/`. The functions here have no body: each carries a law as its contract.
#![tactic(auto)]

pub mod examples;
pub mod node;
pub mod stretches;

ghost use Rattle.std.specs.Prelude.{ℕ, List, [], ◌∷◌};
ghost use Rattle.bac_protocol.specs.Pace.{IsTimely};
ghost use Rattle.bac_world.specs.Claims.{AreChangesPermitted, AreEndedOnce, ArePerformedOnce, AreReplayed, AreServedApart};
ghost use Rattle.bac_world.specs.LongApdus.{AllAskLong, RepliesFit, TakeLongApdus};
ghost use Rattle.bac_world.specs.Once.{Fact, HasNoChange, HasNoRestart, HasNoStranger, HasRequestsAlone, IsOnce, IsOnceAmongNodes, IsOnceByRequests};
ghost use Rattle.bac_world.specs.Once.{IsOnceByRequestsAlone, IsOnceInOneLife, Stores};
ghost use Rattle.bac_world.specs.ReusingLogs.{IsOnceSo, NoneReuses, Reuses};
ghost use Rattle.bac_world.specs.ReusingWorlds.{WorldRunSo};
ghost use Rattle.bac_world.specs.World.{World, Event, WorldRun, WorldStep, IsFresh, IsBounded, MakeNoRestart, MakeNoStray, MakeRequestsAlone};
ghost use Rattle.bac_world.specs.World.{NeverRestarted, stores_of};

/// After every run of a fresh world each accepted ask takes effect at most once, and exactly once where a service answer reached its client; the
/// request performed and the answer are its own, whole; and each server's store is that of its last start, after the performed requests, those of
/// strangers too, and the changes made at that node since, in the log's order: at a restart it stays, or is the one that the log tells.
pub fn at_most_once()
    ensures { (W overtake : ℕ) (w w' : World) → IsFresh w → IsTimely w.time.pace → IsBounded W overtake w → (events : List Event) → WorldRun overtake w events w'
        → IsOnce (stores_of w.nodes) w'.log (stores_of w'.nodes) }
{}

/// The same of worlds some of whose nodes let clients use an invoke ID again as soon as its transaction is over, whatever the setting of each node: every
/// accepted ask takes effect at most once, but for a read at such a node, which it performs each time that it takes its request. Every ask ends at most once,
/// and is answered with a reply that its server's store gave to it before.
pub fn at_most_once_where_reused()
    ensures { (W overtake : ℕ) (u : Reuses) (w w' : World) → IsFresh w → IsTimely w.time.pace → IsBounded W overtake w → (events : List Event)
        → WorldRunSo overtake u w events w' → IsOnceSo u (stores_of w.nodes) w'.log (stores_of w'.nodes) }
{}

/// Where all nodes take APDUs of 480 octets or more, and who asks one knows that, the same holds whatever overtakes what: no request has more than 139 pieces, and no
/// reply more than 138, so no number comes twice in a transfer. No reply in the log is longer than can be sent, as none of a store of this stack is.
pub fn long_apdus_need_no_bound_on_overtaking()
    ensures once { (W overtake : ℕ) (w w' : World) → IsFresh w → IsTimely w.time.pace → TakeLongApdus W w → (events : List Event) → AllAskLong events
        → WorldRun overtake w events w' → RepliesFit w'.log → IsOnce (stores_of w.nodes) w'.log (stores_of w'.nodes) }
    ensures once_where_reused { (u : Reuses) (W overtake : ℕ) (w w' : World) → IsFresh w → IsTimely w.time.pace → TakeLongApdus W w → (events : List Event)
        → AllAskLong events → WorldRunSo overtake u w events w' → RepliesFit w'.log → IsOnceSo u (stores_of w.nodes) w'.log (stores_of w'.nodes) }
    ensures apart { (W overtake : ℕ) (w w' : World) → IsFresh w → IsTimely w.time.pace → TakeLongApdus W w → (events : List Event) → AllAskLong events
        → WorldRun overtake w events w' → RepliesFit w'.log → AreServedApart w' }
{}

/// Where no node does so, a log that is right in those words is right.
#[tactic(auto, using(crate::proofs::AsEver::once_ever))]
pub fn none_reuses()
    ensures { (u : Reuses) → NoneReuses u → (opening : Stores) (log : List Fact) (stores : Stores) → IsOnceSo u opening log stores → IsOnce opening log stores }
{}

/// Whatever strangers send: what a node performs for one of them under one invoke ID, between two of its restarts, is performed in entries that began more than
/// 65,000 ms apart, by the node's clock. A node that restarts begins no entry for them until its new clock has gone on by more than 65,000 ms.
pub fn strangers_are_served_apart()
    ensures { (W overtake : ℕ) (w w' : World) → IsFresh w → IsTimely w.time.pace → IsBounded W overtake w → (events : List Event) → WorldRun overtake w events w'
        → AreServedApart w' }
{}

/// Where the log has nothing of strangers, it is right without them: what is said of nodes alone. Where no event is one of a stranger, the log has nothing of
/// them.
#[tactic(auto, using(crate::proofs::Claims::among_nodes, crate::proofs::WithoutStrangers::no_stranger_in_run))]
pub fn without_strangers()
    ensures log { (opening : Stores) (log : List Fact) (stores : Stores) → HasNoStranger log → IsOnce opening log stores → IsOnceAmongNodes opening log stores }
    ensures run { (overtake : ℕ) (events : List Event) (w w' : World) → IsFresh w → MakeNoStray events → WorldRun overtake w events w' → HasNoStranger w'.log }
{}

/// Where the log has no restart, each server's store is its opening store after the performed requests and the changes made at that node, in the log's
/// order; where no event is a restart, the log has none, and no node ever waits.
#[tactic(auto, using(crate::proofs::Claims::in_one_life, crate::proofs::Lives::no_restart_in_run))]
pub fn one_life_without_restarts()
    ensures log { (opening : Stores) (log : List Fact) (stores : Stores) → HasNoRestart log → IsOnce opening log stores → IsOnceInOneLife opening log stores }
    ensures run { (overtake : ℕ) (w w' : World) → IsFresh w → (events : List Event) → MakeNoRestart events → WorldRun overtake w events w'
        → HasNoRestart w'.log × NeverRestarted w'.nodes }
{}

/// Where the log has no change that was made at a node, nor a restart with another store, each server's store is its opening store after the performed
/// requests in their order.
#[tactic(auto, using(crate::proofs::Claims::by_requests))]
pub fn requests_alone_change_stores()
    ensures { (opening : Stores) (log : List Fact) (stores : Stores) → HasNoChange log → IsOnce opening log stores → IsOnceByRequests opening log stores }
{}

/// Where the log has asks, performed requests and endings alone, every accepted ask takes effect at most once, and exactly once where a service answer reached
/// its client; the request performed and the answer are its own, whole; and each server's store is its opening store after the performed requests in their
/// order. Events among which is no change of a node's own store and no restart keep a log so.
#[tactic(auto, using(crate::proofs::Claims::by_requests_alone, crate::proofs::Quiet::alone_after_step, crate::proofs::Quiet::alone_after_run))]
pub fn requests_alone()
    ensures log { (opening : Stores) (log : List Fact) (stores : Stores) → HasRequestsAlone log → IsOnce opening log stores
        → IsOnceByRequestsAlone opening log stores }
    ensures step { (overtake : ℕ) (w w' : World) (e : Event) → MakeRequestsAlone (e ∷ []) → WorldStep overtake w e w' → HasRequestsAlone w.log
        → HasRequestsAlone w'.log }
    ensures run { (overtake : ℕ) (events : List Event) (w w' : World) → MakeRequestsAlone events → WorldRun overtake w events w' → HasRequestsAlone w.log
        → HasRequestsAlone w'.log }
{}

/// A log is right with the stores exactly where four claims hold of it, each of which can be read by itself: of what was performed, of what was asked and how
/// it ended, of the changes that nodes made in their own stores, and of what the stores are.
#[tactic(auto, using(crate::proofs::Claims::performed_once, crate::proofs::Claims::ended_once, crate::proofs::Claims::changes_permitted, crate::proofs::Claims::replayed, crate::proofs::Claims::together))]
pub fn once_is_its_claims()
    ensures performed { (opening : Stores) (log : List Fact) (stores : Stores) → IsOnce opening log stores → ArePerformedOnce opening log }
    ensures ended { (opening : Stores) (log : List Fact) (stores : Stores) → IsOnce opening log stores → AreEndedOnce log }
    ensures permitted { (opening : Stores) (log : List Fact) (stores : Stores) → IsOnce opening log stores → AreChangesPermitted opening log }
    ensures stores { (opening : Stores) (log : List Fact) (stores : Stores) → IsOnce opening log stores → AreReplayed opening log stores }
    ensures together { (opening : Stores) (log : List Fact) (stores : Stores) → ArePerformedOnce opening log → AreEndedOnce log
        → AreChangesPermitted opening log → AreReplayed opening log stores → IsOnce opening log stores }
{}
