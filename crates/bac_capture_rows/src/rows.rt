//! Rows one after the other.
use crate::printing::{Print, chart_of, print_end_of_chart, print_octets, print_seen};
use crate::selected::{ALL, options_of};
use crate::{failing, frames, transactions, worlds};
use bac_rows::row::{Row, first, place_of};
use std::alloc::Global;
use std::io;
use std::io::Write;

/// Rows that are printed of a capture file in hexadecimal digits.
const FILES: &str = "check named explain-file chart-file mermaid-file pairs-file";

/// Plays a row of a capture file of datagrams that are seen: all transactions, some by a line of options, or a chart of them.
fn play_seen(kind: &str, lines: &str, row: &mut Row) {
    let (words, seen) = lines.split_once('\n').unwrap_or((lines, ""));
    match place_of("explain explain-with explain-json explain-html", kind) {
        0 => print_seen(Print::Explain(ALL), lines, row),
        1 => print_seen(Print::Explain(options_of(words, true)), seen, row),
        2 => print_seen(Print::ExplainJson(options_of(words, false)), seen, row),
        3 => print_seen(Print::ExplainHtml(options_of(words, false)), seen, row),
        _ => print_seen(Print::Chart(chart_of(kind)), lines, row),
    }
}

/// Plays a row of a capture file.
fn play_file(kind: &str, lines: &str, row: &mut Row) {
    match place_of(FILES, kind) {
        0 => print_octets(Print::Check(false), lines, row),
        1 => print_octets(Print::Check(true), lines, row),
        2 => print_octets(Print::Explain(ALL), lines, row),
        3 | 4 | 5 => print_octets(Print::Chart(chart_of(kind)), lines, row),
        _ => play_seen(kind, lines, row),
    }
}

/// Plays a row; the first word of its title says what plays it.
fn play(text: &str, row: &mut Row) {
    let (title, lines) = text.split_once('\n').unwrap_or((text, ""));
    row.say_line("\n=", title);
    let kind = first(title).0;
    match place_of(
        "frames transaction worlds end input output named-output",
        kind,
    ) {
        0 => frames::play(lines, row),
        1 => transactions::play(lines, row),
        2 => worlds::play(lines, row),
        3 => print_end_of_chart(lines, row),
        4 => failing::input(lines, row),
        5 => failing::output(false, lines, row),
        6 => failing::output(true, lines, row),
        _ => play_file(kind, lines, row),
    }
    row.mark_fault();
}

/// Plays each row of a text, and prints what comes of it. An Err is out of memory.
pub fn play_all(alloc: Global, text: &str, out: &mut Vec<u8>) -> io::Result<()> {
    let mut row = Row::new(alloc);
    for text in text.strip_prefix('=').unwrap_or(text).split("\n=") {
        play(text.trim_end_matches('\n'), &mut row);
    }
    out.write_all(&row.told)
}
