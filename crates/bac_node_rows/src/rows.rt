//! Rows one after the other.
use crate::node_rows::play_node;
use crate::wires::play_wire;
use crate::worlds::play_world;
use crate::{making, nodes, scripts, sockets, tables};
use bac_rows::row::{Row, first, place_of};
use std::alloc::Global;
use std::io;
use std::io::Write;
use std::net::Net;
use std::time::Clock;

/// A row: the first word of its title, the lines of the last scene before it, and its own.
#[derive(Clone, Copy)]
struct Played<'a> {
    kind: &'a str,
    scene: &'a str,
    lines: &'a str,
}

/// Plays the lines of a row, on a scene, on a socket of that runtime, or by themselves.
fn play_lines<R: Net + Clock>(rt: &R, it: Played<'_>, row: &mut Row) {
    match place_of("node world wire worlds nodes socket tables", it.kind) {
        0 => play_node(it.scene, it.lines, row),
        1 => play_world(it.scene, it.lines, row),
        2 => play_wire(it.scene, it.lines, row),
        3 => making::play(it.lines, row),
        4 => nodes::play(it.lines, row),
        5 => sockets::play(rt, it.lines, row),
        6 => tables::play(it.lines, row),
        _ => scripts::play(it.kind, it.lines, row),
    }
}

/// Plays a row once; whether that went well.
fn plays<R: Net + Clock>(rt: &R, it: Played<'_>, out: &mut Row) -> bool {
    let mut row = Row::new(out.alloc);
    play_lines(rt, it, &mut row);
    if !row.has_failed {
        out.put_all(&row.told);
    }
    !row.has_failed
}

/// Plays a row, and once more where that fails: memory may have been refused to it.
fn play<R: Net + Clock>(rt: &R, it: Played<'_>, out: &mut Row) {
    if !plays(rt, it, out) && !plays(rt, it, out) {
        out.say("?\n");
    }
}

/// What rows are played on, and the last scene before them.
#[derive(Drop)]
struct Rows<'a, R> {
    rt: &'a R,
    scene: &'a str,
}

impl<'a, R: Net + Clock> Rows<'a, R> {
    /// Plays a row of whatever kind.
    fn go_on(&mut self, text: &'a str, row: &mut Row) {
        let (title, lines) = text.split_once('\n').unwrap_or((text, ""));
        let lines = lines.trim_end_matches('\n');
        let kind = first(title).0;
        row.say_line("\n=", title);
        if kind == "scene" {
            self.scene = lines;
        } else {
            let scene = self.scene;
            play(self.rt, Played { kind, scene, lines }, row);
        }
    }
}

/// Plays each row of a text, and prints what comes of it: each on the last scene before it, and on links, clocks and sockets of that runtime. An Err is out of
/// memory.
pub fn play_all<R: Net + Clock>(
    rt: &R,
    alloc: Global,
    text: &str,
    out: &mut Vec<u8>,
) -> io::Result<()> {
    let mut row = Row::new(alloc);
    let mut rows = Rows { rt, scene: "" };
    for text in text.split('=').skip(1) {
        rows.go_on(text, &mut row);
    }
    out.write_all(&row.told)
}
