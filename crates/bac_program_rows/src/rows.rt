//! Rows one after the other.
use crate::command::Command;
use crate::failing::Failing;
use crate::files::Files;
use crate::lines::headed;
use crate::scene::{Setup, is_setup};
use crate::sink::Sink;
use crate::wanted::{Printed, Row, wanted_status};
use std::alloc::Global;
use std::io;
use std::io::Write;

/// How many rows there are, and how many of them hold.
#[derive(Clone, Copy)]
struct Counts {
    all: u64,
    held: u64,
}

/// Plays a command line whose output fails; whether it holds.
fn play_failing(
    failing: Failing<'_>,
    writes: &str,
    lines: &str,
    out: &mut Vec<u8>,
) -> Option<bool> {
    let holds = failing.holds(writes, wanted_status(lines)?)?;
    if !holds {
        writeln!(out, "! writes {writes}").ok()?;
    }
    Some(holds)
}

/// What a command line prints.
fn printed(alloc: Global, command: &Command<'_>, files: &Files<'_>) -> Printed {
    let mut out = command.output();
    let mut err = command.errors();
    let ended = command.run(files, &mut out, &mut err);
    Printed {
        out: out.octets,
        err: err.octets,
        ended,
    }
}

/// Plays a row, its command line and what has to be printed; whether it holds.
fn play(
    rt: &HostRuntime,
    setup: Setup<'_>,
    files: &Files<'_>,
    row: &str,
    out: &mut Vec<u8>,
) -> Option<bool> {
    let (line, lines) = row.split_once('\n').unwrap_or((row, ""));
    let alloc = rt.alloc();
    let command = Command::new(rt, setup, line)?;
    if let Some(heading) = headed(lines, "writes") {
        let failing = Failing {
            alloc,
            command: &command,
            files,
        };
        return play_failing(failing, heading.words, lines, out);
    }
    let printed = printed(alloc, &command, files);
    let row = Row {
        alloc,
        files,
        lines,
    };
    row.compare(line, &printed, out)
}

/// A group of rows.
#[derive(Clone, Copy)]
struct Group<'a> {
    rt: &'a HostRuntime,
    scene: &'a str,
    counts: Counts,
}

impl<'a> Group<'a> {
    /// Plays a row; the count goes on.
    fn count(
        &mut self,
        setup: Setup<'_>,
        files: &Files<'_>,
        row: &str,
        out: &mut Vec<u8>,
    ) -> io::Result<()> {
        self.counts.all = self.counts.all.saturating_add(1);
        match play(self.rt, setup, files, row, out) {
            Some(true) => self.counts.held = self.counts.held.saturating_add(1),
            Some(false) => {}
            None => writeln!(out, "? {}", row.lines().next().unwrap_or(""))?,
        }
        Ok(())
    }

    /// Plays the rows of a paragraph: its lines before the first `$` set their scene.
    fn play_rows(&mut self, lines: &str, rows: &str, out: &mut Vec<u8>) -> io::Result<()> {
        let setup = Setup {
            row: lines,
            group: self.scene,
        };
        let files = Files::new(self.rt.alloc(), setup);
        for row in rows.split("\n$ ") {
            self.count(setup, &files, row, out)?;
        }
        Ok(())
    }

    /// A paragraph.
    fn go_on(&mut self, paragraph: &'a str, out: &mut Vec<u8>) -> io::Result<()> {
        if let Some(rows) = paragraph.strip_prefix("$ ") {
            return self.play_rows("", rows, out);
        }
        if let Some((lines, rows)) = paragraph.split_once("\n$ ") {
            return self.play_rows(lines, rows, out);
        }
        if !is_setup(paragraph) {
            writeln!(out, "? {}", paragraph.lines().next().unwrap_or(""))?;
        }
        self.scene = paragraph;
        Ok(())
    }
}

/// Plays a group: its title, and its paragraphs.
fn play_group(rt: &HostRuntime, group: &str, out: &mut Vec<u8>) -> io::Result<()> {
    let (title, text) = group.split_once('\n').unwrap_or((group, ""));
    writeln!(out, "={title}")?;
    let mut group = Group {
        rt,
        scene: "",
        counts: Counts { all: 0, held: 0 },
    };
    for paragraph in text.split("\n\n") {
        let paragraph = paragraph.trim_matches('\n');
        if !paragraph.is_empty() {
            group.go_on(paragraph, out)?;
        }
    }
    let Counts { all, held } = group.counts;
    writeln!(out, "{held} of {all}")
}

/// Plays each group of a text, on links, clocks, files and sockets of that runtime, and prints how many of its rows hold. An Err is out of memory.
pub(crate) fn play_all(rt: &HostRuntime, text: &str, out: &mut Vec<u8>) -> io::Result<()> {
    for group in text.trim_start_matches('=').split("\n=") {
        play_group(rt, group, out)?;
    }
    Ok(())
}
