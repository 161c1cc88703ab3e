//! Noise in worlds: octets from a link of no node.
use crate::scene::link;
use bac_network::{Event, World};
use bac_rows::row::Row;

/// Octets that come to a node from a link of no node.
fn noise_at(node: usize, octets: &[u8], row: &mut Row) -> Event {
    let mut copy = Vec::new(row.alloc);
    row.needs(copy.extend_from_slice(octets).is_ok());
    Event::Noise {
        node,
        from: link(9),
        octets: copy,
    }
}

/// The octets of a copy come to a node from a link of no node.
fn copied(world: &World, node: usize, number: usize, row: &mut Row) -> Event {
    match world.copies().get(number) {
        Some(copy) => noise_at(node, &copy.octets, row),
        None => noise_at(node, &[], row),
    }
}

/// Drops the last octet of noise; whether there was one.
fn shorten(noise: &mut Event) -> bool {
    match noise {
        Event::Noise { octets, .. } => octets.pop().is_some(),
        _ => false,
    }
}

/// How many octets noise has.
fn len_of(noise: &Event) -> usize {
    match noise {
        Event::Noise { octets, .. } => octets.len(),
        _ => 0,
    }
}

/// Each proper prefix of these octets comes, the longest first.
fn prefixes_come(world: &mut World, noise: &mut Event, row: &mut Row) {
    for _ in 0..len_of(noise) {
        if shorten(noise) {
            row.needs(world.step(noise).is_ok());
        }
    }
}

/// Each proper prefix of each datagram that was sent comes to a node.
fn noise_comes(world: &mut World, node: usize, row: &mut Row) {
    for number in 0..world.copies().len() {
        let mut noise = copied(world, node, number, row);
        prefixes_come(world, &mut noise, row);
        drop(noise);
    }
}

/// Each proper prefix of each datagram that was sent comes to each node.
pub(crate) fn all_noise_comes(world: &mut World, row: &mut Row) {
    for node in 0..world.nodes().len() {
        noise_comes(world, node, row);
    }
}

/// No octets come to each node.
pub(crate) fn no_octets_come(world: &mut World, row: &mut Row) {
    for node in 0..world.nodes().len() {
        let noise = noise_at(node, &[], row);
        row.needs(world.step(&noise).is_ok());
        drop(noise);
    }
}
