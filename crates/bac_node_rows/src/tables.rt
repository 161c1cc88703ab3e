//! Rows of nodes with small and with large tables.
//!
//! A line is a window, a number of client slots and one of reply slots. What each way to make a node, or a world of one, says to them is printed: how many slots
//! the node has at each end, or the fault.
use crate::scene::nodes_of;
use bac_network::{NewWorldFault, World};
use bac_node::{Config, NewNodeFault, Node};
use bac_rows::row::Row;
use bac_store::Store;

/// The ways to make a node, or a world of one.
#[derive(Clone, Copy)]
enum Way {
    New,
    Restarted,
    Large,
    LargeRestarted,
    /// A world; whether its tables may be large.
    World(bool),
}

const WAYS: &[(&str, Way)] = &[
    ("new", Way::New),
    ("restarted", Way::Restarted),
    ("large", Way::Large),
    ("large restarted", Way::LargeRestarted),
    ("world", Way::World(false)),
    ("large world", Way::World(true)),
];

/// What nodes are made of: one.
fn makers_of(line: &str, row: &mut Row) -> Vec<(Config, Store)> {
    let mut scene = Row::new(row.alloc);
    scene.say_line("node 0275 ", line);
    nodes_of(scene.text(), 1, row)
}

fn print_node(name: &str, node: &Node, row: &mut Row) {
    row.say(name);
    row.tell_two(
        ": # and # slots",
        node.client_slots() as u64,
        node.reply_slots() as u64,
    );
    row.tell(", at #\n", node.latest());
}

fn made(way: Way, config: Config, store: Store, row: &Row) -> Result<Node, NewNodeFault> {
    match way {
        Way::Restarted => Node::restarted(row.alloc, config, store, 5),
        Way::Large => Node::with_large_tables(row.alloc, config, store),
        Way::LargeRestarted => Node::restarted_with_large_tables(row.alloc, config, store, 5),
        _ => Node::new(row.alloc, config, store),
    }
}

fn tell_node(name: &str, made: Result<Node, NewNodeFault>, row: &mut Row) {
    match made {
        Ok(node) => {
            print_node(name, &node, row);
            drop(node);
        }
        Err(NewNodeFault::NoMemory) => row.fail(),
        Err(fault) => row.line(format_args!("{name}: {fault}")),
    }
}

fn tell_world(name: &str, made: Result<World, NewWorldFault>, row: &mut Row) {
    match made {
        Ok(world) => {
            for node in world.nodes() {
                print_node(name, node, row);
            }
            drop(world);
        }
        Err(NewWorldFault::NoMemory) => row.fail(),
        Err(fault) => row.line(format_args!("{name}: {fault}")),
    }
}

/// Makes a node, or a world of one, and prints what it has.
fn tell(name: &str, way: Way, mut makers: Vec<(Config, Store)>, row: &mut Row) {
    match way {
        Way::World(true) => tell_world(name, World::with_large_tables(row.alloc, makers, 0), row),
        Way::World(false) => tell_world(name, World::new(row.alloc, makers, 0), row),
        _ => match makers.pop() {
            Some((config, store)) => tell_node(name, made(way, config, store, row), row),
            None => row.fail(),
        },
    }
}

/// Plays the lines of a row.
pub(crate) fn play(lines: &str, row: &mut Row) {
    for line in lines.lines() {
        row.say_line("> ", line);
        for (name, way) in WAYS {
            let makers = makers_of(line, row);
            tell(*name, *way, makers, row);
        }
    }
}
