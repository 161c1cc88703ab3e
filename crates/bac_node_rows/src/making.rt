//! Rows of worlds that are made, or are not.
//!
//! A line is the number of the second node's link and a scene, in which `|` stands for the end of a line. Prints `made`, or the fault.
use crate::lists::keep;
use crate::scene::{line_of, link, nodes_of, overtake_of};
use bac_network::{NewClocksFault, NewWorldFault, Pace, World};
use bac_node::Config;
use bac_rows::row::{Row, after, number8, number32};
use bac_rows::script::plain;
use bac_store::Store;

/// The starts of clocks.
fn starts_of(words: &str, row: &mut Row) -> Vec<u32> {
    let mut starts = Vec::new(row.alloc);
    for word in words.split(' ') {
        keep(number32(word, 0), &mut starts, row);
    }
    starts
}

/// A world of those nodes with the clocks `DRIFT LIFE START START ..`.
fn with_clocks(
    clocks: &str,
    nodes: Vec<(Config, Store)>,
    overtake: u64,
    row: &mut Row,
) -> Result<World, NewClocksFault> {
    let pace = Pace {
        drift: number32(clocks, 0),
        life: number32(clocks, 1),
    };
    let starts = starts_of(after(clocks, 2), row);
    World::with_clocks(row.alloc, nodes, overtake, pace, &starts)
}

/// A world of a scene, with those nodes.
pub(crate) fn made(
    scene: &str,
    nodes: Vec<(Config, Store)>,
    row: &mut Row,
) -> Result<World, NewClocksFault> {
    let overtake = overtake_of(scene);
    match line_of(scene, "clocks ") {
        Some(clocks) => with_clocks(clocks, nodes, overtake, row),
        None => match World::new(row.alloc, nodes, overtake) {
            Ok(world) => Ok(world),
            Err(fault) => Err(NewClocksFault::NotMade(fault)),
        },
    }
}

/// The nodes of a scene, of which the second one is at the link of that number.
fn nodes_at(number: u8, scene: &str, row: &mut Row) -> Vec<(Config, Store)> {
    let mut nodes = nodes_of(scene, 0, row);
    match nodes.get_mut(1) {
        Some(node) => node.0.link = link(number),
        None => row.fail(),
    }
    nodes
}

fn print_fault(fault: NewClocksFault, row: &mut Row) {
    match fault {
        NewClocksFault::NotMade(NewWorldFault::NoMemory) => row.fail(),
        NewClocksFault::NotMade(why) => {
            row.line(format_args!("fault {}: {why}", why.number()));
        }
        _ => row.line(fault),
    }
}

/// Prints whether a scene is made.
fn tell_made(number: u8, scene: &str, row: &mut Row) {
    match made(scene, nodes_at(number, scene, row), row) {
        Ok(world) => {
            drop(world);
            row.say("made\n");
        }
        Err(fault) => print_fault(fault, row),
    }
}

fn tell(line: &str, row: &mut Row) {
    match plain(row.alloc, after(line, 1)) {
        Ok(scene) => tell_made(number8(line, 0), &scene, row),
        Err(_) => row.fail(),
    }
}

/// Plays the lines of a row.
pub(crate) fn play(lines: &str, row: &mut Row) {
    for line in lines.lines() {
        row.say_line("> ", line);
        tell(line, row);
    }
}
