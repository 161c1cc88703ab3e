//! Rows of whole scripts: what they print on standard output, on standard error after `! `, and their exit status where it is not 0.
//!
//! A row is one script, or each of its lines is: there `|` stands for the end of a line, `~` for a carriage return and `_` for nothing.
use bac_rows::row::{Row, place_of};
use bac_simulate::{View, show_over, simulate_lines_over};

/// How a script is run.
#[derive(Clone, Copy)]
enum Way {
    Plain,
    Noted,
    Shown(View),
}

fn run(way: Way, mut script: &[u8], row: &mut Row) {
    let mut err = Vec::new(row.alloc);
    let status = match way {
        Way::Shown(view) => show_over(row.alloc, view, true, &mut script, &mut row.told, &mut err),
        _ => {
            let notes = matches!(way, Way::Noted);
            simulate_lines_over(row.alloc, notes, true, &mut script, &mut row.told, &mut err)
        }
    };
    row.tell_end(status.code(), &err);
}

/// What an octet stands for.
fn meant(octet: u8) -> u8 {
    match octet {
        b'|' => b'\n',
        b'~' => b'\r',
        other => other,
    }
}

/// Runs the script that a text stands for.
fn run_text(way: Way, text: &str, end: &[u8], row: &mut Row) {
    let mut script = Row::new(row.alloc);
    for octet in text.as_bytes() {
        if *octet != b'_' {
            script.put(meant(*octet));
        }
    }
    script.put_all(end);
    run(way, &script.told, row);
    row.needs(!script.has_failed);
}

/// Runs each line.
fn run_each(way: Way, lines: &str, row: &mut Row) {
    for line in lines.lines() {
        row.say_line("> ", line);
        run_text(way, line, b"", row);
    }
}

/// Runs all lines as one script.
fn run_all(way: Way, lines: &str, row: &mut Row) {
    for line in lines.lines() {
        row.say_line("> ", line);
    }
    run_text(way, lines, b"\n", row);
}

/// How the scripts of a kind are run.
fn way_of(kind: &str) -> Option<Way> {
    match place_of(
        "script scripts noted chart mermaid text texts json jsons",
        kind,
    ) {
        0 | 1 => Some(Way::Plain),
        2 => Some(Way::Noted),
        3 => Some(Way::Shown(View::Chart)),
        4 => Some(Way::Shown(View::Mermaid)),
        5 | 6 => Some(Way::Shown(View::Text)),
        7 | 8 => Some(Way::Shown(View::Objects)),
        _ => None,
    }
}

/// Plays a row of a kind: in those of some kinds each line is a script.
pub(crate) fn play(kind: &str, lines: &str, row: &mut Row) {
    let has_many = place_of("scripts noted texts jsons", kind) < 4;
    match way_of(kind) {
        Some(way) if has_many => run_each(way, lines, row),
        Some(way) => run_all(way, lines, row),
        None => row.fail(),
    }
}
