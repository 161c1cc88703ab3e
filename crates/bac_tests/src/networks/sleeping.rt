//! Two drivers of the same nodes: one sleeps until a node says that something is due, the other lets all do what is due at each millisecond. Both go by
//! schedules that are made up from a number, and send the same datagrams at the same moments.
//!
//! Sometimes both stand still so long that a ticket which is sent again then ends before its timer is due, or an entry of a reply table does.
use super::chance::Chance;
use super::schedules::{ask_any, change, deliver, restart};
use super::worlds::{Went, happens, small_world, steps};
use super::*;
use bac_network::{Event, Fact, World};
use bac_requester::Ending;
use std::fmt::Write;

/// What comes from a link of no node.
const NOISE: &[&str] = &[
    "",
    "81",
    "810B000C0120FFFF00FF1008",
    "810A000A0100400000",
    "810A00080100FFFF",
];

/// How long both drivers stand still, in milliseconds: a ticket ends 60,001 after it was first sent, an entry 65,001.
const PAUSES: &[u64] = &[58_500, 61_000, 64_000, 66_000];

/// From which numbers schedules are made up.
const SEEDS: u64 = 6;

/// Which nodes do what is due at a moment.
#[derive(Clone, Copy)]
enum Driver {
    /// Those that say that something is.
    Sleeps,
    /// All.
    Ticks,
}

fn is_due(world: &World, node: usize) -> bool {
    match world.nodes().get(node) {
        Some(node) => matches!(node.next_due(), Some(due) if due <= world.now()),
        None => false,
    }
}

/// The moment at which the first node has something to do; if none has, the last of all.
fn next_due(world: &World) -> u64 {
    let mut first = u64::MAX;
    for node in world.nodes() {
        if let Some(due) = node.next_due() {
            first = first.min(due);
        }
    }
    first
}

/// A node does what is due, if its driver has it do so.
fn settles(world: &mut World, driver: Driver, node: usize) -> bool {
    let is_told = matches!(driver, Driver::Ticks) || is_due(world, node);
    !is_told || steps(world, &Event::Tick { node })
}

/// Nodes do what is due.
fn all_settle(world: &mut World, driver: Driver) -> bool {
    settles(world, driver, 0) && settles(world, driver, 1) && settles(world, driver, 2)
}

fn passes(world: &mut World, driver: Driver, by: u64) -> bool {
    steps(world, &Event::Advance { by }) && all_settle(world, driver)
}

/// Time passes for so many milliseconds, one after the other.
fn ticks(world: &mut World, milliseconds: u64) -> bool {
    for _ in 0..milliseconds {
        if !passes(world, Driver::Ticks, 1) {
            return false;
        }
    }
    true
}

/// Time passes for so many milliseconds, in one sleep after the other. Each ends where something is due, and the last one where all have passed.
fn sleeps(world: &mut World, milliseconds: u64) -> bool {
    let end = world.now().saturating_add(milliseconds);
    for _ in 0..milliseconds {
        let by = next_due(world).min(end).saturating_sub(world.now());
        if !passes(world, Driver::Sleeps, by) {
            return false;
        }
        if world.now() == end {
            return true;
        }
    }
    false
}

/// Something comes from a link of no node.
fn noise(line: &mut String, chance: &mut Chance) -> bool {
    let node = chance.below(3);
    let digits = NOISE.get(chance.below(NOISE.len())).unwrap_or(&"");
    write!(line, "noise {node} {digits}").is_ok()
}

/// Both stand still.
fn pause(line: &mut String, chance: &mut Chance) -> bool {
    let least = PAUSES.get(chance.below(PAUSES.len())).copied().unwrap_or(0);
    let more = chance.below(900) as u64;
    write!(line, "advance {}", least.saturating_add(more)).is_ok()
}

/// A line happens in a world, and then nodes do what is due.
fn goes_on(alloc: Global, world: &mut World, driver: Driver, line: &str) -> bool {
    happens(alloc, world, line) != Went::Wrong && all_settle(world, driver)
}

/// A world, once for each driver, and what happens next.
#[derive(Drop)]
struct Drivers {
    sleeping: World,
    ticking: World,
    line: String,
}

impl Drivers {
    /// What happens at both before any time passes; false where it is nothing.
    fn makes_line(&mut self, chance: &mut Chance, kind: usize) -> bool {
        self.line.clear();
        match kind {
            0..=11 => ask_any(&mut self.line, chance),
            17..=19 => change(&mut self.line, chance),
            20..=22 => noise(&mut self.line, chance),
            23 => restart(&mut self.line, chance),
            24 | 25 => pause(&mut self.line, chance),
            _ => deliver(&mut self.line, chance, self.sleeping.copies().len(), 6),
        }
    }

    fn go_on(&mut self, alloc: Global) -> bool {
        goes_on(alloc, &mut self.sleeping, Driver::Sleeps, &self.line)
            && goes_on(alloc, &mut self.ticking, Driver::Ticks, &self.line)
    }

    fn pass(&mut self, milliseconds: u64) -> bool {
        sleeps(&mut self.sleeping, milliseconds) && ticks(&mut self.ticking, milliseconds)
    }

    /// Some time passes: mostly little, and at most 3,100 milliseconds.
    fn wait(&mut self, chance: &mut Chance) -> bool {
        let most = match chance.below(4) {
            0 | 1 => 10,
            2 => 2_100,
            _ => 3_100,
        };
        let more = chance.below(most) as u64;
        self.pass(more.saturating_add(1))
    }

    fn follow(&mut self, alloc: Global, chance: &mut Chance) -> bool {
        match chance.below(64) {
            12..=16 => self.wait(chance),
            kind => self.makes_line(chance, kind) && self.go_on(alloc),
        }
    }

    /// Whether as many datagrams were sent and as much was logged.
    fn are_alike(&self) -> bool {
        self.sleeping.copies().len() == self.ticking.copies().len()
            && self.sleeping.log().len() == self.ticking.log().len()
    }

    /// Whether they are alike, and nothing differs once all nodes know the same latest moment.
    fn are_same(&mut self) -> bool {
        self.are_alike()
            && all_settle(&mut self.sleeping, Driver::Ticks)
            && self.sleeping.same(&self.ticking)
    }

    /// Both go by a schedule, and then all is sent again until it is given up; whether nothing differs.
    fn go(&mut self, alloc: Global, chance: &mut Chance) -> bool {
        for _ in 0..150u8 {
            if !self.follow(alloc, chance) || !self.are_alike() {
                return false;
            }
        }
        self.pass(12_500) && self.are_same()
    }
}

/// How many datagrams a world sent, and how many asks expired in it.
fn counted(world: &World) -> (usize, usize) {
    let expired = world
        .log()
        .iter()
        .filter(|fact| matches!(
            fact,
            Fact::Ended {
                how: Ending::Expired,
                ..
            }
        ))
        .count();
    (world.copies().len(), expired)
}

/// Both drivers go by a schedule; what is counted then, None where they differ.
fn gone_by_both(alloc: Global, sleeping: World, seed: u64) -> Option<(usize, usize)> {
    let Some(ticking) = small_world(alloc) else {
        return None;
    };
    let mut drivers = Drivers {
        sleeping,
        ticking,
        line: String::new(alloc),
    };
    if drivers.go(alloc, &mut Chance::of(seed)) {
        Some(counted(&drivers.ticking))
    } else {
        None
    }
}

fn gone_by(alloc: Global, seed: u64) -> Option<(usize, usize)> {
    match small_world(alloc) {
        Some(world) => gone_by_both(alloc, world, seed),
        None => None,
    }
}

#[test]
fn sleeping_and_ticking_send_the_same(rt: HostRuntime) -> Result<(), Fail> {
    let mut sent = 0usize;
    let mut expired = 0usize;
    for seed in 0..SEEDS {
        match gone_by(rt.alloc(), seed) {
            Some(counts) => {
                sent = sent.saturating_add(counts.0);
                expired = expired.saturating_add(counts.1);
            }
            None => return Err(Fail::from("another datagram")),
        }
    }
    holds(sent >= 300 && expired >= 3, "too little happened")
}
