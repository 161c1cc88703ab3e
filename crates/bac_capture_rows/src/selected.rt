//! The line of options of a row: `unanswered`, `errors`, `repeated`, `findings`, `slower MS`, `peer HOST` or `peer HOST:PORT`, where HOST is the number of a host, `fail`, `frames` and `strict-ids`.
use bac_explain_report::{PeerFilter, ReportOptions, Selection};
use bac_rows::row::{decimal, number, place_of, word};

/// No option.
pub(crate) const ALL: ReportOptions = ReportOptions {
    selection: Selection::ALL,
    strict: false,
    frames: false,
    strict_ids: false,
    early: true,
    flush: false,
};

/// The address of the host of a number, and a port or any.
fn filter_of(word: &str) -> PeerFilter {
    let (host, port) = word.split_once(':').unwrap_or((word, ""));
    PeerFilter {
        host: [10, 0, 0, (decimal(host) % 256) as u8],
        port: port.parse::<u16>().ok(),
    }
}

/// The names of options.
const NAMES: &str = "unanswered errors repeated findings slower peer fail frames strict-ids";

/// Takes the option of a name; what follows may be its value. A value is no name.
fn put_option(options: &mut ReportOptions, name: &str, words: &str, next: usize) {
    match place_of(NAMES, name) {
        0 => options.selection.unanswered = true,
        1 => options.selection.errors = true,
        2 => options.selection.repeated = true,
        3 => options.selection.findings = true,
        4 => options.selection.slower = Some(number(words, next)),
        5 => options.selection.peer = Some(filter_of(word(words, next))),
        6 => options.strict = true,
        7 => options.frames = true,
        8 => options.strict_ids = true,
        _ => {}
    }
}

/// The options of a line. `early` says whether a transaction may be printed before it is closed.
pub(crate) fn options_of(words: &str, early: bool) -> ReportOptions {
    let mut options = ALL;
    options.early = early;
    for (place, name) in words.split(' ').enumerate() {
        put_option(&mut options, name, words, place.wrapping_add(1));
    }
    options
}
