//! Lines that are made up from numbers. Each function appends one to a text that is empty; false where memory is refused.
use super::chance::Chance;
use bac_network::World;
use std::fmt::Write;

/// What nodes ask, in words.
const REQUESTS: &[&str] = &[
    "append 10:1 AB",
    "append 10:1 {60*CD}",
    "read 2:1 28",
    "write 2:1 28 7544{68*00}",
    "read 0:5 85",
    "get 10:1 0 90",
    "append 10:1 {100*AB}",
    "get 10:1 0 200",
    "write 2:1 28 7564{100*00}",
];

/// What nodes change: the verb, the words after the node, and how many octets follow, each of them from 0 to 3. Of the last one, the state of a pump, 2 and 3
/// are refused.
const CHANGES: &[(&str, &str, usize)] = &[
    ("set", "0:5 85 4442", 3),
    ("set", "2:1 28 752100", 32),
    ("file", "10:1 ", 60),
    ("set", "5:1 85 91", 1),
];

/// A node asks the one after it.
fn ask(line: &mut String, chance: &mut Chance) -> bool {
    let client = chance.below(3);
    let server = client.saturating_add(1).checked_rem(3).unwrap_or(0);
    let words = REQUESTS.get(chance.below(6)).unwrap_or(&"");
    write!(line, "ask {client} {server} {words}").is_ok()
}

/// A node asks another one, or itself, which is refused.
pub(super) fn ask_any(line: &mut String, chance: &mut Chance) -> bool {
    let (client, server) = (chance.below(3), chance.below(3));
    let words = REQUESTS.get(chance.below(REQUESTS.len())).unwrap_or(&"");
    write!(line, "ask {client} {server} {words}").is_ok()
}

/// One of the last copies comes, of so many.
pub(super) fn deliver(line: &mut String, chance: &mut Chance, copies: usize, most: usize) -> bool {
    let back = chance.below(most).saturating_add(1);
    write!(line, "deliver {}", copies.saturating_sub(back)).is_ok()
}

/// Some time passes: mostly little, seldom as long as an end waits.
fn pause(line: &mut String, chance: &mut Chance) -> bool {
    let most = match chance.below(8) {
        0..=3 => 10,
        4 | 5 => 3_100,
        6 => 30_000,
        _ => 76_000,
    };
    write!(line, "advance {}", chance.below(most)).is_ok()
}

fn put_digits(line: &mut String, chance: &mut Chance, count: usize) -> bool {
    for _ in 0..count {
        if write!(line, "0{}", chance.below(4)).is_err() {
            return false;
        }
    }
    true
}

/// A node changes a property or a file of its own.
pub(super) fn change(line: &mut String, chance: &mut Chance) -> bool {
    let node = chance.below(3);
    let Some((verb, words, count)) = CHANGES.get(chance.below(CHANGES.len())) else {
        return false;
    };
    write!(line, "{verb} {node} {words}").is_ok() && put_digits(line, chance, *count)
}

/// A node restarts, seldom with the house store in place of its own.
pub(super) fn restart(line: &mut String, chance: &mut Chance) -> bool {
    let node = chance.below(3);
    let verb = if chance.below(3) > 0 {
        "restart"
    } else {
        "anew"
    };
    write!(line, "{verb} {node}").is_ok()
}

/// A node begins at which nothing happened, or another program where one was: mostly once all is over that the one before sent.
fn begin(line: &mut String, chance: &mut Chance) -> bool {
    let node = chance.below(3);
    let words = match chance.below(4) {
        0 => "begin",
        1 => "begin again",
        _ => "advance 140000|begin again",
    };
    write!(line, "{words} {node}").is_ok()
}

fn tick(line: &mut String, chance: &mut Chance) -> bool {
    write!(line, "tick {}", chance.below(3)).is_ok()
}

/// An event among nodes.
pub(super) fn of_nodes(line: &mut String, chance: &mut Chance, world: &World) -> bool {
    match chance.below(23) {
        0..=2 => ask(line, chance),
        3 => restart(line, chance),
        20 | 21 => change(line, chance),
        22 => begin(line, chance),
        4 | 5 => pause(line, chance),
        6..=8 => tick(line, chance),
        _ => deliver(line, chance, world.copies().len(), 8),
    }
}

/// Octets, in one of four cases with another one at some place.
fn put_octets(line: &mut String, chance: &mut Chance, octets: &[u8]) -> bool {
    let damaged = match chance.below(4) {
        0 => chance.below(octets.len().saturating_add(1)),
        _ => octets.len(),
    };
    for (place, octet) in octets.iter().enumerate() {
        let other = (chance.below(256) % 256) as u8;
        let octet = if place == damaged { other } else { *octet };
        if write!(line, "{octet:02X}").is_err() {
            return false;
        }
    }
    true
}

/// The octets of one of the last copies, sometimes with another octet in them, arrive from a stranger.
fn stray(line: &mut String, chance: &mut Chance, world: &World) -> bool {
    let (node, number) = (chance.below(3), chance.below(2).saturating_add(8));
    let back = chance.below(12).saturating_add(1);
    let octets = match world
        .copies()
        .get(world.copies().len().saturating_sub(back))
    {
        Some(copy) => copy.octets.as_slice(),
        None => &[],
    };
    write!(line, "stranger {node} 10.0.0.{number}:47808 ").is_ok()
        && put_octets(line, chance, octets)
}

/// A node asks a stranger.
fn away(line: &mut String, chance: &mut Chance) -> bool {
    let (node, number) = (chance.below(3), chance.below(2).saturating_add(8));
    let words = "write 0:5 85 4442000000";
    write!(line, "ask {node} 10.0.0.{number}:47808 {words}").is_ok()
}

/// The client, the link's number and the invoke ID of the stranger's ask that was accepted last.
fn last_away(world: &World) -> Option<(usize, u8, u8)> {
    let mut last = None;
    for note in world.asks() {
        if let Some(peer) = note.stranger {
            let asked = note.transaction;
            last = Some((asked.client, peer.link[3], asked.invoke_id));
        }
    }
    last
}

/// The stranger that was asked last says that it has performed the write, whether its client waits for that or not. No time passes where none was asked.
fn answer(line: &mut String, world: &World) -> bool {
    match last_away(world) {
        Some((client, number, id)) => {
            let octets = "810A000901002";
            write!(
                line,
                "stranger {client} 10.0.0.{number}:47808 {octets}0{id:02X}0F"
            )
            .is_ok()
        }
        None => line.push_str("advance 0").is_ok(),
    }
}

/// A clock is faster or slower from now on.
fn pace(line: &mut String, chance: &mut Chance) -> bool {
    let (node, parts) = (chance.below(3), chance.below(1_001));
    let sign = if parts > 0 && chance.below(2) == 0 {
        "-"
    } else {
        ""
    };
    write!(line, "pace {node} {sign}{parts}").is_ok()
}

/// An event among nodes with clocks of their own, and strangers.
pub(super) fn of_strangers(line: &mut String, chance: &mut Chance, world: &World) -> bool {
    match chance.below(40) {
        0..=9 => stray(line, chance, world),
        10 => away(line, chance),
        11 | 12 => answer(line, world),
        13 => pace(line, chance),
        _ => of_nodes(line, chance, world),
    }
}
