//! Rows of the datagrams of transactions: the moment of each, and what is wrong with it, or `-`.
use crate::seen::{Seen, seen_of};
use bac_explain::{Explainer, Sighting, read_sighting};
use bac_rows::row::Row;

fn print_finding(explainer: &mut Explainer, moment: u64, it: Sighting<'_>, row: &mut Row) {
    match explainer.hear(row.alloc, moment, it, true) {
        Ok(heard) => match heard.finding {
            Some(finding) => row.line(finding),
            None => row.say("-\n"),
        },
        Err(_) => row.fail(),
    }
}

fn hear(explainer: &mut Explainer, seen: &Seen, row: &mut Row) {
    row.tell("# ", seen.moment);
    match read_sighting(seen.from, seen.to, &seen.datagram) {
        Some(it) => print_finding(explainer, seen.moment, it, row),
        None => row.say("-\n"),
    }
}

fn hear_all(explainer: &mut Explainer, lines: &str, row: &mut Row) {
    for line in lines.lines() {
        hear(explainer, &seen_of(line, row), row);
    }
}

/// Plays the lines of a row.
pub(crate) fn play(lines: &str, row: &mut Row) {
    match Explainer::new(row.alloc) {
        Ok(mut explainer) => hear_all(&mut explainer, lines, row),
        Err(_) => row.fail(),
    }
}
