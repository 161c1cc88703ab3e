//! Rows of a node and its twin. The twin gets each event that the node accepted: both are the same after each line.
//!
//! Where an allocation fails in a call, the node has to be the same as its twin, which has not got the event yet. Then the call is made again.
use crate::events::{Came, happens, node_of};
use crate::playing::{Stage, play};
use bac_node::Node;
use bac_rows::row::{Row, number, word};

/// Two nodes of a scene.
#[derive(Drop)]
struct Twins<'a> {
    scene: &'a str,
    node: Node,
    twin: Node,
}

/// Whether an event at the twin found memory, and had no fault.
fn is_played(came: Came, told: &Row) -> bool {
    match came {
        Came::NoMemory => false,
        _ => !told.has_failed,
    }
}

/// The latest moment of a node after a line, by the one before it.
fn latest_after(came: Came, line: &str, before: u64) -> u64 {
    match came {
        Came::Heard | Came::Dropped => number(line, 0),
        _ => before,
    }
}

impl Twins<'_> {
    /// The result of an event at the node: of the second call where an allocation fails in the first.
    fn node_meets(&mut self, line: &str, row: &mut Row) -> Came {
        match happens(&mut self.node, self.scene, line, row) {
            Came::NoMemory => {
                if !self.node.same(&self.twin) {
                    row.say("changed without memory\n");
                }
                happens(&mut self.node, self.scene, line, row)
            }
            came => came,
        }
    }

    /// Whether the result at the twin is that of a line; want of memory is a fault there.
    fn twin_tells(&mut self, line: &str, told: &[u8], row: &mut Row) -> bool {
        let mut other = Row::new(row.alloc);
        let came = happens(&mut self.twin, self.scene, line, &mut other);
        row.needs(is_played(came, &other));
        other.told.as_slice() == told
    }

    /// Whether a tick of the twin prints nothing.
    fn twin_rests(&mut self, line: &str, row: &mut Row) -> bool {
        let mut tick = Row::new(row.alloc);
        tick.say(word(line, 0));
        tick.say(" tick");
        self.twin_tells(tick.text(), &[], row)
    }

    /// Whether the result at the twin is the same. A dropped datagram is a tick to the twin, and an event that the node refused is not repeated.
    fn twin_agrees(&mut self, line: &str, came: Came, told: &[u8], row: &mut Row) -> bool {
        match came {
            Came::Heard | Came::Timeless => self.twin_tells(line, told, row),
            Came::Dropped => self.twin_rests(line, row),
            Came::Refused => true,
            Came::NoMemory => {
                row.fail();
                true
            }
        }
    }
}

impl Stage for Twins<'_> {
    fn meets(&mut self, line: &str, row: &mut Row) {
        let before = self.node.latest();
        let mut told = Row::new(row.alloc);
        let came = self.node_meets(line, &mut told);
        row.take(&told);
        let latest = latest_after(came, line, before);
        let is_alike = self.twin_agrees(line, came, &told.told, row);
        if !is_alike || self.node.latest() != latest {
            row.say("otherwise at the twin\n");
        }
    }

    fn is_sound(&self) -> bool {
        self.node.same(&self.twin)
    }
}

/// Plays the lines of a row on two nodes of a scene.
fn play_twins(mut twins: Twins<'_>, lines: &str, row: &mut Row) {
    let scene = twins.scene;
    play(&mut twins, scene, lines, row);
    drop(twins);
}

/// Plays the lines of a row on a node of a scene and its twin.
fn play_beside(scene: &str, node: Node, lines: &str, row: &mut Row) {
    match node_of(scene, row) {
        Some(twin) => play_twins(Twins { scene, node, twin }, lines, row),
        None => drop(node),
    }
}

/// Plays the lines of a row on a node of a scene.
pub(crate) fn play_node(scene: &str, lines: &str, row: &mut Row) {
    if let Some(node) = node_of(scene, row) {
        play_beside(scene, node, lines, row);
    }
}
