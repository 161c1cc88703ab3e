//! Rows one after the other.
use crate::words::spelled;
use crate::{ends, frames, scripts, segments, services, slots, stores, texts, values};
use bac_rows::row::{Row, first, place_of};
use std::alloc::Global;
use std::io;
use std::io::Write;

/// What plays the lines of a row.
pub(crate) trait Stage {
    /// Prints the result of a verb with its words.
    fn hear(&mut self, verb: &str, words: &str, row: &mut Row);
}

/// Prints a line and its result; `?` where something goes wrong.
fn play_line<S: Stage>(stage: &mut S, line: &str, row: &mut Row) {
    row.say_line("> ", line);
    let text = spelled(row.alloc, line);
    let (verb, words) = first(text.text());
    stage.hear(verb, words, row);
    row.mark_fault();
}

/// Prints each line and its result.
pub(crate) fn play_lines<S: Stage>(stage: &mut S, lines: &str, row: &mut Row) {
    for line in lines.lines() {
        play_line(stage, line, row);
    }
}

/// The first words of titles: those of rows whose lines depend on those before them, and others from place 3 on.
const KINDS: &str = "segments slots store values frames services texts scripts ends";

/// The place of what plays lines of which none depends on those before it.
#[derive(Clone, Copy)]
struct Kind(usize);

impl Stage for Kind {
    fn hear(&mut self, verb: &str, words: &str, row: &mut Row) {
        match self.0 {
            3 => values::show(verb, words, row),
            4 => frames::show(verb, words, row),
            5 => services::show(verb, words, row),
            6 => texts::show(verb, words, row),
            7 => scripts::show(verb, words, row),
            8 => ends::show(verb, words, row),
            _ => row.fail(),
        }
    }
}

/// A row's title and its lines; the title's first word says what plays it.
fn play(text: &str, row: &mut Row) {
    let (title, lines) = text.split_once('\n').unwrap_or((text, ""));
    row.say_line("\n=", title);
    match place_of(KINDS, first(title).0) {
        0 => segments::play(lines, row),
        1 => slots::play(lines, row),
        2 => stores::play(lines, row),
        kind => play_lines(&mut Kind(kind), lines, row),
    }
}

/// Plays each row of a text, and prints what comes of it. An Err is out of memory.
pub fn play_all(alloc: Global, text: &str, out: &mut Vec<u8>) -> io::Result<()> {
    let mut row = Row::new(alloc);
    for text in text.strip_prefix('=').unwrap_or(text).split("\n=") {
        play(text.trim_end_matches('\n'), &mut row);
    }
    out.write_all(&row.told)
}
