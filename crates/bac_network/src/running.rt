//! The straight run.
ghost use Rattle.std.specs.Prelude.{◌≡◌, ◌⊎◌, ◌+◌, ◌<◌, ◌^◌, [], IfErr, IfOk, OnErr, OnOk, MatchBool, MatchOption, MatchResult, None, Some, length, slice_get};
ghost use Rattle.bac_apdu.specs.Views.{limits_view};
ghost use Rattle.bac_service.specs.Views.{owned_request_view};
ghost use Rattle.bac_requester.specs.TransactionViews.{ending_view};
ghost use Rattle.bac_world.specs.Node.{Node};
ghost use Rattle.bac_world.specs.ReusingWorlds.{WorldStepSo};
ghost use Rattle.bac_world.specs.World.Event.{Ask, Deliver};
ghost use Rattle.bac_network.specs.Histories.{HasHistory, HasNoReuse, as_world, reuses_of};
ghost use Rattle.bac_network.specs.Laws.{HasRightLog};
ghost use Rattle.bac_network.specs.Runs.{KeepsSettings};
ghost use Rattle.bac_network.specs.Steps.{IsFault};
ghost use Rattle.bac_liveness.specs.StraightRuns.{ending_in};
ghost use Rattle.bac_network.specs.Going.{HasStopped, IsStuck};
ghost use Rattle.bac_network.specs.Logs.{IsSince, Stops, ending_by};
ghost use Rattle.bac_network.specs.Straight.{RunsStraight};
ghost use Rattle.bac_network.specs.StraightFaults.{Fails};
ghost use Rattle.bac_network.specs.StraightRuns.{AsksIf, Goes, IsWellMadeAt, limits_of_server};

use crate::ended::ending_of;
use crate::{Event, World, WorldFault};
use bac_apdu::Limits;
use bac_requester::Ending;
use bac_service::OwnedRequest;

/// The ask of a straight run, and how many copies were delivered.
#[derive(Clone, Copy, Debug, PartialEq, Eq)]
pub struct StraightRun {
    /// The number of the ask in the world, or None where the ask was refused.
    pub ask: Option<usize>,
    /// How many copies were delivered.
    pub deliveries: usize,
}

impl StraightRun {
    /// How the ask ended, by the world's log, or None where it was refused or has not ended.
    pub fn ending<'a>(&self, world: &'a World) -> Option<&'a Ending>
        ensures { MatchOption result (ending_by self.now.ask world.now.log ≡ None)
            (λ how. ending_by self.now.ask world.now.log ≡ Some (ending_view how.now)) }
    {
        match self.ask {
            Some(ask) => ending_of(world.log(), 0, ask),
            None => None,
        }
    }
}

/// What a client takes a node to accept of APDUs as a server: requests in segments whatever its SA bit says. None where there is no such node.
fn limits_of_server(world: &World, node: usize) -> Option<Limits>
    ensures { MatchOption result (slice_get world.now.nodes node ≡ None)
        (λ l. (n : Node) × (slice_get world.now.nodes node ≡ Some n) × (limits_view l ≡ limits_of_server n)) }
{
    match world.nodes().get(node) {
        Some(node) => {
            let limits = node.settings().limits;
            Some(Limits {
                max_apdu: limits.max_apdu,
                takes_segments: true,
                max_segments: limits.max_segments,
            })
        }
        None => None,
    }
}

/// A law of each node: its window is at least 1, and each reply of its store can be sent.
fn is_well_made(world: &World, node: usize)
    ensures { IsWellMadeAt (as_world world.now) node }
{
    if let Some(node) = world.nodes().get(node) {
        node.replies_can_be_sent();
    }
}

/// Asks, and returns whether the ask was accepted. After an error the world is as before.
fn ask(
    world: &mut World,
    client: usize,
    server: usize,
    limits: Limits,
    request: OwnedRequest,
) -> Result<bool, WorldFault>
    ensures asked { IfOk result (λ accepted. AsksIf accepted (as_world world.old) client server (limits_view limits) (owned_request_view request)
        (as_world world.new)) }
    ensures fault { IfErr result (λ f. IsFault f world.old.overtake (as_world world.old)
        (Ask client server (limits_view limits) (owned_request_view request))) }
    ensures err { OnErr result (world.new ≡ world.old) }
    ensures settings { KeepsSettings world.old world.new }
    ensures passed { world.new.time ≡ world.old.time }
{
    let event = Event::Ask {
        client,
        server,
        limits,
        request,
    };
    match world.step(&event)? {
        None => Ok(true),
        Some(_fault) => Ok(false),
    }
}

/// Whether the ask has ended, or no copy is left from that number on. Where one is left, there is a number after its own.
fn is_over(world: &World, ask: usize, since: usize, number: usize) -> bool
    requires { IsSince since ask world.now.log }
    ensures { MatchBool result (Stops ask number (as_world world.now))
        ((ending_in ask world.now.log ≡ None) × (number < length world.now.copies) × (number + 1 < 2 ^ 64)) }
{
    if number >= world.copies().len() {
        return true;
    }
    match ending_of(world.log(), since, ask) {
        Some(_ending) => true,
        None => false,
    }
}

/// Delivers a copy. After an error the world is as before.
fn deliver(world: &mut World, number: usize) -> Result<(), WorldFault>
    ensures went { OnOk result (WorldStepSo world.old.overtake (reuses_of world.old) (as_world world.old) (Deliver number) (as_world world.new)) }
    ensures fault { IfErr result (λ f. IsFault f world.old.overtake (as_world world.old) (Deliver number)) }
    ensures err { OnErr result (world.new ≡ world.old) }
    ensures settings { KeepsSettings world.old world.new }
    ensures passed { world.new.time ≡ world.old.time }
{
    world.step(&Event::Deliver { number })?;
    Ok(())
}

/// Delivers the copies from that number on, each once, until the ask has ended or none is left, and returns how many it delivered.
fn deliver_each(
    world: &mut World,
    ask: usize,
    since: usize,
    first: usize,
) -> Result<usize, WorldFault>
    requires { IsSince since ask world.old.log }
    ensures { MatchResult result (λ count. HasStopped ask since first world.old world.new count) (λ f. IsStuck f ask since first world.old world.new) }
{
    let mut number = first;
    while !is_over(world, ask, since, number) {
        deliver(world, number)?;
        number += 1;
    }
    Ok(number - first)
}

/// Delivers the copies that arise from an accepted ask.
fn deliver_all(
    world: &mut World,
    ask: usize,
    since: usize,
    first: usize,
) -> Result<StraightRun, WorldFault>
    requires { IsSince since ask world.old.log }
    ensures { MatchResult result (λ s. HasStopped ask since first world.old world.new s.deliveries × (s.ask ≡ Some ask))
        (λ f. IsStuck f ask since first world.old world.new) }
{
    let deliveries = deliver_each(world, ask, since, first)?;
    Ok(StraightRun {
        ask: Some(ask),
        deliveries,
    })
}

/// How many of the oldest facts tell no ending of the next ask: all. Where nodes have rules of their own none is left out, whose number is no less right.
fn facts_before(world: &World) -> usize
    ensures { (result ≡ 0) ⊎ ((world.now.reuses ≡ []) × (result ≡ length world.now.log)) }
{
    if world.reuses().is_empty() {
        world.log().len()
    } else {
        0
    }
}

/// Asks with these limits of the server, and delivers the copies that arise.
fn ask_and_deliver(
    world: &mut World,
    client: usize,
    server: usize,
    limits: Limits,
    request: OwnedRequest,
) -> Result<StraightRun, WorldFault>
    requires { HasNoReuse world.old → HasHistory world.old }
    ensures goes { HasNoReuse world.old → MatchResult result (λ s. Goes world.old.overtake (as_world world.old) client server (limits_view limits) (owned_request_view request)
        (ending_by s.ask world.new.log) s.deliveries (as_world world.new))
        (λ f. Fails f world.old.overtake (as_world world.old) client server (limits_view limits) (owned_request_view request) (as_world world.new)) }
    ensures settings { KeepsSettings world.old world.new }
    ensures passed { world.new.time ≡ world.old.time }
{
    let number = world.asks().len();
    let since = facts_before(world);
    let first = world.copies().len();
    if ask(world, client, server, limits, request)? {
        deliver_all(world, number, since, first)
    } else {
        Ok(StraightRun {
            ask: None,
            deliveries: 0,
        })
    }
}

/// A straight run: asks, and delivers each copy that arises once, in order of sending, at one moment, until the ask has ended or no copy is left. The client
/// goes by the server's limits of APDUs, and sends requests in segments whatever the server's SA bit says. A refused ask changes nothing. No time passes.
///
/// It stops at the first event that fails, and returns its fault; the events before it have happened. Errors: `NoSuchNode` where the world lacks one of the
/// nodes, and then nothing has changed; `NoMemory` where an allocation fails. No other: each copy that it delivers is there. It takes no memory of its own.
///
/// What is promised of the run (`straight`) is of worlds in which no node lets invoke IDs be used again. Where nodes do, it is a run of the world as
/// any other, by what `World::step` says.
pub fn straight(
    world: &mut World,
    client: usize,
    server: usize,
    request: OwnedRequest,
) -> Result<StraightRun, WorldFault>
    ensures straight { HasNoReuse world.old → RunsStraight result world.old client server (owned_request_view request) world.new }
    ensures settings { KeepsSettings world.old world.new }
    ensures passed { world.new.time ≡ world.old.time }
    ensures log { HasRightLog world.new }
{
    // the laws of every world, here and where the run ends
    world.is_once();
    // by the laws of both nodes the ask can be answered
    is_well_made(world, client);
    is_well_made(world, server);
    let Some(limits) = limits_of_server(world, server) else {
        return Err(WorldFault::NoSuchNode);
    };
    let run = ask_and_deliver(world, client, server, limits, request);
    world.is_once();
    run
}
