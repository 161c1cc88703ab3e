//! What the arguments of `decode`, `check` and `explain` ask for: which transactions are printed, what counts as a fault, and how datagrams are drawn.
ghost use Rattle.std.specs.Prelude.{◌≡◌, ◌<◌, ◌≤◌, ℕ, IfSome, Some, decimal};
ghost use Rattle.bac_reading.specs.Selecting.{AreChartOptions, AreGivenOptions, IsSlower, form_by};

use crate::copied::{copied_of, is_copied};
use crate::decoding::{Decoding, LayerForm, STANDARD_INPUT};
use crate::report::Report;
use bac_environment::{flag_of, read_end, read_time};
use bac_explain_report::{ChartFormat, ChartOptions, PeerFilter, ReportOptions, Selection};
use clap::ArgMatches;

/// The address behind `--peer`, if there is one. None where it is no address.
fn peer_of(given: &ArgMatches<'_>) -> Option<Option<PeerFilter>> {
    match given.get_str("peer") {
        Some(text) => {
            let (host, port) = read_end(text)?;
            Some(Some(PeerFilter { host, port }))
        }
        None => Some(None),
    }
}

/// The most milliseconds behind `--slower`.
pub const MOST_SLOWER: u64 = 1_000_000_000;

/// The milliseconds of the time behind `--slower`, from 1 to 1,000,000,000; a number alone is of milliseconds. None of any other text.
pub fn read_slower(text: &str) -> Option<u64>
    ensures { (n : ℕ) → 0 < n → n ≤ MOST_SLOWER → text.now ≡ decimal n → result ≡ Some n }
{
    let milliseconds = read_time(text, 1)?;
    if milliseconds == 0 || milliseconds > MOST_SLOWER {
        return None;
    }
    Some(milliseconds)
}

/// The time behind `--slower`, if there is one. None where it is invalid.
fn slower_of(given: &ArgMatches<'_>) -> Option<Option<u64>>
    ensures { IfSome result (IsSlower given.now) }
{
    match given.get_str("slower") {
        Some(text) => Some(Some(read_slower(text)?)),
        None => Some(None),
    }
}

/// Which transactions the arguments of `explain` select, and what counts as a fault. What is read of standard input, where a capture may go on, is printed at
/// once. None if the address of `--peer` or the time of `--slower` is invalid.
fn options_of(given: &ArgMatches<'_>, early: bool) -> Option<ReportOptions>
    ensures { IfSome result (AreGivenOptions given.now early) }
{
    let selection = Selection {
        unanswered: flag_of(given, "unanswered"),
        errors: flag_of(given, "errors"),
        repeated: flag_of(given, "repeated"),
        findings: flag_of(given, "findings"),
        slower: slower_of(given)?,
        peer: peer_of(given)?,
    };
    Some(ReportOptions {
        selection,
        strict: flag_of(given, "fail"),
        frames: flag_of(given, "frames"),
        strict_ids: flag_of(given, "strict-ids"),
        early,
        flush: given.get_str("FILE") == Some(STANDARD_INPUT),
    })
}

fn form_by(mermaid: bool) -> ChartFormat
    ensures { result ≡ form_by mermaid }
{
    if mermaid {
        ChartFormat::Mermaid
    } else {
        ChartFormat::Chart
    }
}

/// How the arguments of `explain` say that datagrams are drawn. None if transactions are printed.
fn chart_of(given: &ArgMatches<'_>) -> Option<ChartOptions>
    ensures { IfSome result (AreChartOptions given.now) }
{
    let chart = flag_of(given, "chart");
    let mermaid = flag_of(given, "mermaid");
    let options = ChartOptions {
        form: form_by(mermaid),
        values: flag_of(given, "values"),
        pairs: flag_of(given, "pairs"),
    };
    if chart || mermaid || options.values || options.pairs {
        Some(options)
    } else {
        None
    }
}

/// What the arguments of `check` say is printed of a capture.
pub fn check_of(given: &ArgMatches<'_>) -> Report {
    let in_words = given.get_flag("text");
    match (given.get_flag("notes"), given.get_flag("json")) {
        (true, true) => Report::CheckLinesJson,
        (true, false) => Report::CheckLines { in_words },
        (false, true) => Report::CheckJson,
        (false, false) => Report::Check { in_words },
    }
}

/// What the arguments of `explain` say is printed of a capture. None if the address of `--peer` or the time of `--slower` is invalid.
pub fn report_of(given: &ArgMatches<'_>) -> Option<Report> {
    if let Some(options) = chart_of(given) {
        return Some(Report::Chart(options));
    }
    if given.get_flag("json") {
        return Some(Report::ExplainJson(options_of(given, false)?));
    }
    if given.get_flag("html") {
        return Some(Report::ExplainHtml(options_of(given, false)?));
    }
    Some(Report::Explain(options_of(given, true)?))
}

/// How the arguments of `decode` say that datagrams are read and printed. None if the form is invalid.
pub fn decoding_of(given: &ArgMatches<'_>) -> Option<Decoding> {
    if given.get_flag("json") {
        return Some(Decoding::Lines(LayerForm::Objects));
    }
    if is_copied(given) {
        return Some(Decoding::Copied(copied_of(given)?));
    }
    let form = if given.get_flag("text") {
        LayerForm::Words
    } else {
        LayerForm::Numbers
    };
    Some(Decoding::Lines(form))
}
