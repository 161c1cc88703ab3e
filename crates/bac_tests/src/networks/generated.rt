//! Worlds whose nodes change their stores, restart, and have other programs begin at their links again and again, by schedules that are made up from
//! a number. Others have nodes with clocks of their own, which are among strangers. Each log is followed on stores of the test's own, as it grows.
use super::chance::Chance;
use super::following::{Counts, Followed};
use super::schedules::{of_nodes, of_strangers};
use super::worlds::{Went, clock_world, happens, small_world};
use super::*;
use bac_network::World;

/// From which numbers schedules of nodes alone are made up.
const SEEDS: u64 = 40;

/// From which numbers those with strangers and clocks are.
const STRANGE_SEEDS: u64 = 12;

/// Of how many events each is.
const EVENTS: usize = 400;

/// A world that goes by a schedule, what its log says so far, how many changes were refused, and how many other programs began.
#[derive(Drop)]
struct Going {
    world: World,
    followed: Followed,
    chance: Chance,
    are_strange: bool,
    line: String,
    changes_refused: usize,
    begun_again: usize,
}

impl Going {
    /// By the schedule of a number.
    fn of(alloc: Global, world: World, chance: Chance, are_strange: bool) -> Going {
        let followed = Followed::new(alloc);
        Going {
            world,
            followed,
            chance,
            are_strange,
            line: String::new(alloc),
            changes_refused: 0,
            begun_again: 0,
        }
    }

    /// Makes up the next line.
    fn makes_line(&mut self) -> bool {
        self.line.clear();
        if self.are_strange {
            of_strangers(&mut self.line, &mut self.chance, &self.world)
        } else {
            of_nodes(&mut self.line, &mut self.chance, &self.world)
        }
    }

    fn goes_on(&mut self, alloc: Global) -> bool {
        let facts = self.world.log().len();
        let went = happens(alloc, &mut self.world, &self.line);
        let is_begun = self.line.contains("begin again") && self.world.log().len() > facts;
        self.begun_again = self.begun_again.saturating_add(usize::from(is_begun));
        let is_change = self.line.starts_with("set ") || self.line.starts_with("file ");
        let is_refused = is_change && went == Went::Refused;
        self.changes_refused = self.changes_refused.saturating_add(usize::from(is_refused));
        went != Went::Wrong
    }

    /// Ten events happen, and the log is followed.
    fn ten_happen(&mut self, alloc: Global) -> bool {
        for _ in 0..10u8 {
            if !self.makes_line() || !self.goes_on(alloc) {
                return false;
            }
        }
        self.followed.follows(alloc, &self.world)
    }

    /// The whole schedule happens, and its log is right.
    fn all_happen(&mut self, alloc: Global) -> bool {
        if !self.followed.opens(alloc, &self.world) {
            return false;
        }
        for _ in 0..EVENTS / 10 {
            if !self.ten_happen(alloc) {
                return false;
            }
        }
        true
    }

    /// What happened.
    fn counts(&self) -> Counts {
        Counts {
            refused: self.changes_refused,
            begun_again: self.begun_again,
            ..self.followed.counts()
        }
    }
}

/// A world goes by a schedule, and its log is followed after each tenth event; what happened in it.
fn gone(alloc: Global, world: World, chance: Chance, are_strange: bool) -> Option<Counts> {
    let mut going = Going::of(alloc, world, chance, are_strange);
    if going.all_happen(alloc) {
        Some(going.counts())
    } else {
        None
    }
}

fn gone_by_nodes(alloc: Global, seed: u64) -> Option<Counts> {
    match small_world(alloc) {
        Some(world) => gone(alloc, world, Chance::of(seed), false),
        None => None,
    }
}

fn gone_by_strangers(alloc: Global, seed: u64) -> Option<Counts> {
    let mut chance = Chance::of(seed);
    let start = (chance.below(1_000_000) % 1_000_000) as u32;
    match clock_world(alloc, &[0, start, 4_294_000_000]) {
        Some(world) => gone(alloc, world, chance, true),
        None => None,
    }
}

/// Whether enough happened in all worlds.
fn is_enough(counts: &Counts) -> bool {
    let happened = counts
        .restarts
        .min(counts.begun_again)
        .min(counts.changes)
        .min(counts.refused);
    let went_on = counts.performed_anew.min(counts.asked_anew);
    happened.min(counts.performed) >= 100 && went_on.min(counts.answered) >= 50
}

#[test]
fn generated_worlds_with_changes_and_restarts(rt: HostRuntime) -> Result<(), Fail> {
    let mut counts = Counts::none();
    for seed in 0..SEEDS {
        match gone_by_nodes(rt.alloc(), seed) {
            Some(more) => counts = counts.plus(more),
            None => return Err(Fail::from("a generated world")),
        }
    }
    holds(is_enough(&counts), "too little happened")
}

/// Whether enough happened in all worlds with strangers.
fn is_strange_enough(counts: &Counts) -> bool {
    let happened = counts.restarts.min(counts.begun_again).min(counts.changes);
    let for_nodes = counts.performed.min(counts.answered);
    let for_strangers = counts.served.min(counts.answered_away);
    happened >= 20 && for_nodes >= 10 && for_strangers >= 10
}

#[test]
fn generated_worlds_with_strangers_and_clocks(rt: HostRuntime) -> Result<(), Fail> {
    let mut counts = Counts::none();
    for seed in 0..STRANGE_SEEDS {
        match gone_by_strangers(rt.alloc(), seed) {
            Some(more) => counts = counts.plus(more),
            None => return Err(Fail::from("a generated world")),
        }
    }
    holds(is_strange_enough(&counts), "too little happened")
}
