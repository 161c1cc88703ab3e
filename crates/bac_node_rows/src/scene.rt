//! What rows of nodes and worlds are played on: the lines of the last row of kind `scene`.
//!
//! `node TAKES WINDOW SLOTS SLOTS` is a node. The words are what it takes, as the first two octets of its requests say it, its window, and its slots
//! for asks and for replies. Its store is the house store. Where the words of a request follow, it is that store after the request. Where `only T:I
//! PROPERTY HEX` follows, the store has that object alone, with that property, which the network may not write. `overtake LIMIT` is the world's
//! overtaking limit, 128 where there is no such line. `clocks DRIFT LIFE START START ..`: the world's nodes have clocks of their own, with that drift
//! in parts in a million. Copies live so long, and each clock begins at its start. `NAME: TEXT` is a text that lines may name. What follows a line
//! `first` is what each script begins with.
use crate::lists::keep;
use crate::words::{change_of, request_of};
use bac_apdu::{Apdu, Limits, read};
use bac_node::Config;
use bac_npdu::LinkAddress;
use bac_rows::row::{Row, after, decimal, number, number8, word};
use bac_rows::script::plain;
use bac_rows::stores::store_of;
use bac_store::{Change, Store, house};
use std::alloc::Global;

/// The link of the node with that number.
pub(crate) fn link(number: u8) -> LinkAddress {
    [10, 0, 0, number, 0xBA, 0xC0]
}

/// The limits of words that have none.
const NO_LIMITS: Limits = Limits {
    max_apdu: 0,
    takes_segments: false,
    max_segments: 0,
};

/// What a node takes, as the first two octets of its requests say it.
pub(crate) fn limits_of(digits: &str, row: &mut Row) -> Limits {
    let mut octets = row.octets(digits, 0);
    row.needs(octets.extend_from_slice(&[0, 12]).is_ok());
    match read(&octets) {
        Ok(Apdu::ConfirmedRequest { limits, .. }) => limits,
        _ => {
            row.fail();
            NO_LIMITS
        }
    }
}

/// Performs the request of some words.
fn performs(store: &mut Store, words: &str, row: &mut Row) {
    if let Some(request) = request_of(words, row) {
        match store.perform(row.alloc, &request.as_request()) {
            Ok(reply) => drop(reply),
            Err(_) => row.fail(),
        }
        drop(request);
    }
}

/// Performs the request of some words of a scene, where there are any.
fn performs_plain(store: &mut Store, words: &str, row: &mut Row) {
    match plain(row.alloc, words) {
        Ok(words) if !words.is_empty() => performs(store, &words, row),
        Ok(_) => {}
        Err(_) => row.fail(),
    }
}

/// The house store, after a request where there is one.
pub(crate) fn house_after(words: &str, row: &mut Row) -> Option<Store> {
    let mut store = house(row.alloc).ok();
    match &mut store {
        Some(store) => performs_plain(store, words, row),
        None => row.fail(),
    }
    store
}

/// The store of the one object that a change is about.
fn store_after(alloc: Global, change: &Change) -> Option<Store> {
    match change {
        Change::Value {
            object,
            property,
            octets,
        } => store_of(alloc, *object, *property, octets),
        Change::File { .. } => None,
    }
}

/// The store of the one object that the words of `set` are about.
fn store_set(words: &str, row: &mut Row) -> Option<Store> {
    let change = change_of("set", words, row)?;
    let store = store_after(row.alloc, &change);
    drop(change);
    store
}

/// The store of one object: `T:I PROPERTY HEX`.
fn store_with(words: &str, row: &mut Row) -> Option<Store> {
    match plain(row.alloc, words) {
        Ok(words) => store_set(&words, row),
        Err(_) => None,
    }
}

/// The store of a node by the last words of its line.
fn store_by(words: &str, row: &mut Row) -> Option<Store> {
    match words.strip_prefix("only ") {
        Some(words) => store_with(words, row),
        None => house_after(words, row),
    }
}

/// Adds what a node of that number is made of.
fn put_node(number_here: u8, words: &str, nodes: &mut Vec<(Config, Store)>, row: &mut Row) {
    let config = Config {
        link: link(number_here),
        limits: limits_of(word(words, 0), row),
        window: number8(words, 1),
        client_slots: number(words, 2) as usize,
        reply_slots: number(words, 3) as usize,
    };
    match store_by(after(words, 4), row) {
        Some(store) => keep((config, store), nodes, row),
        None => row.fail(),
    }
}

/// What the nodes of a scene are made of, by numbers from that one on.
pub(crate) fn nodes_of(scene: &str, from: u8, row: &mut Row) -> Vec<(Config, Store)> {
    let mut nodes = Vec::new(row.alloc);
    let mut number = from;
    for line in scene.lines() {
        if let Some(line) = line.strip_prefix("node ") {
            put_node(number, line, &mut nodes, row);
            number = number.wrapping_add(1);
        }
    }
    nodes
}

/// The words of the line of a scene that begins so.
pub(crate) fn line_of<'a>(scene: &'a str, begin: &str) -> Option<&'a str> {
    for line in scene.lines() {
        if let Some(words) = line.strip_prefix(begin) {
            return Some(words);
        }
    }
    None
}

/// How many later copies may overtake one in the world of a scene.
pub(crate) fn overtake_of(scene: &str) -> u64 {
    match line_of(scene, "overtake ") {
        Some(limit) => decimal(limit),
        None => 128,
    }
}
