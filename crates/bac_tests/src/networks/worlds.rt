//! Worlds of three small nodes, and lines that happen in them.
use super::link;
use bac_apdu::Limits;
use bac_network::{Event, Pace, World};
use bac_node::Config;
use bac_rows::script::plain;
use bac_simulate::simulate_in;
use bac_store::{Store, house};
use std::alloc::Global;

/// Takes APDUs of 50 octets and any number of segments.
const SMALL: Limits = Limits {
    max_apdu: 0,
    takes_segments: true,
    max_segments: 7,
};

/// Clocks are fast or slow by at most that many parts in a million, and copies live so many milliseconds.
const PACE: Pace = Pace {
    drift: 1_000,
    life: 4_873,
};

fn put_node(alloc: Global, number: u8, nodes: &mut Vec<(Config, Store)>) -> bool {
    let config = Config {
        link: link(number),
        limits: SMALL,
        window: 32,
        client_slots: 64,
        reply_slots: 64,
    };
    match house(alloc) {
        Ok(store) => nodes.push((config, store)).is_ok(),
        Err(_) => false,
    }
}

fn put_nodes(alloc: Global, nodes: &mut Vec<(Config, Store)>) -> bool {
    put_node(alloc, 0, nodes) && put_node(alloc, 1, nodes) && put_node(alloc, 2, nodes)
}

/// A world of three nodes with the house store.
pub(super) fn small_world(alloc: Global) -> Option<World> {
    let mut nodes = Vec::new(alloc);
    if !put_nodes(alloc, &mut nodes) {
        return None;
    }
    match World::new(alloc, nodes, 128) {
        Ok(world) => Some(world),
        Err(_) => None,
    }
}

/// A world of three nodes with the house store, with clocks of those starts.
pub(super) fn clock_world(alloc: Global, starts: &[u32]) -> Option<World> {
    let mut nodes = Vec::new(alloc);
    if !put_nodes(alloc, &mut nodes) {
        return None;
    }
    match World::with_clocks(alloc, nodes, 128, PACE, starts) {
        Ok(world) => Some(world),
        Err(_) => None,
    }
}

/// The second of three nodes lets clients use an invoke ID again.
fn rules(alloc: Global) -> Option<Vec<bool>> {
    Vec::from_slice(alloc, &[false, true]).ok()
}

/// A world of three nodes with the house store, of which the second lets clients use an invoke ID again.
pub(super) fn ruled_world(alloc: Global) -> Option<World> {
    let mut nodes = Vec::new(alloc);
    if !put_nodes(alloc, &mut nodes) {
        return None;
    }
    World::with_rules(alloc, nodes, 128, rules(alloc)?).ok()
}

/// The same, with clocks of those starts.
pub(super) fn ruled_clock_world(alloc: Global, starts: &[u32]) -> Option<World> {
    let mut nodes = Vec::new(alloc);
    if !put_nodes(alloc, &mut nodes) {
        return None;
    }
    World::with_clocks_and_rules(alloc, nodes, 128, PACE, starts, rules(alloc)?).ok()
}

/// How a line went.
#[derive(Clone, Copy, PartialEq)]
pub(super) enum Went {
    /// It happened, or there is no such copy, or the node may not begin yet.
    On,
    /// An ask or a change was refused.
    Refused,
    /// Memory was refused, or the line has no meaning.
    Wrong,
}

fn how_went(out: &[u8]) -> Went {
    if out.starts_with(b"refused ") {
        return Went::Refused;
    }
    match out {
        b"line 1: fault 2\n" | b"line 1: fault 12\n" => Went::On,
        _ if out.starts_with(b"line ") => Went::Wrong,
        _ => Went::On,
    }
}

/// A line of a script happens.
fn plays(alloc: Global, world: &mut World, line: &str) -> Went {
    let mut out = Vec::new(alloc);
    let mut err = Vec::new(alloc);
    let _status = simulate_in(alloc, world, line.as_bytes(), &mut out, &mut err);
    if err.is_empty() {
        how_went(&out)
    } else {
        Went::Wrong
    }
}

/// An event happens.
pub(super) fn steps(world: &mut World, event: &Event) -> bool {
    world.step(event).is_ok()
}

/// A node restarts with the house store.
fn restarts_anew(alloc: Global, world: &mut World, node: usize) -> bool {
    match house(alloc) {
        Ok(store) => steps(
            world,
            &Event::Restart {
                node,
                store: Some(store),
            },
        ),
        Err(_) => false,
    }
}

/// A line happens: one of a script, in which parts may be repeated as in rows, or `anew NODE`: the node restarts with the house store.
pub(super) fn happens(alloc: Global, world: &mut World, line: &str) -> Went {
    match line.strip_prefix("anew ") {
        Some(node) => {
            let node = node.parse::<usize>().unwrap_or(3);
            if restarts_anew(alloc, world, node) {
                Went::On
            } else {
                Went::Wrong
            }
        }
        None => match plain(alloc, line) {
            Ok(line) => plays(alloc, world, &line),
            Err(_) => Went::Wrong,
        },
    }
}
