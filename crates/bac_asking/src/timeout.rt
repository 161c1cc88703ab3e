//! How long a node is waited for: `500ms`, `2s`, `1m`, `2` or `0.5`.
ghost use Rattle.std.specs.Prelude.{◌≡◌, ◌&&◌, MatchOption, nat_le, nat_lt};
ghost use Rattle.bac_asking.specs.Given.{IsPatience};
ghost use Rattle.bac_asking.specs.Timeouts.{IsNoTimeout, IsNoWait, IsTimeout, IsWait};

use crate::seconds::read_seconds;
use bac_environment::read_time;
use clap::ArgMatches;
use std::io::Write;

/// The most milliseconds that an answer is waited for: a request ends by itself after that time.
const MOST: u64 = 60_000;

/// The milliseconds of a number with its unit, of whole seconds, or of seconds with a point.
#[tactic(auto, using(crate::proofs::Waits::with_unit, crate::proofs::Waits::without_unit))]
fn read_wait(text: &str) -> Option<u64>
    ensures { MatchOption result (IsNoWait text.now) (IsWait text.now) }
{
    match read_time(text, 1_000) {
        Some(milliseconds) => Some(milliseconds),
        None => read_seconds(text),
    }
}

/// Whether an answer may be waited for so many milliseconds.
fn is_within(milliseconds: u64) -> bool
    ensures { result ≡ (nat_lt 0 milliseconds && nat_le milliseconds 60000) }
{
    0 < milliseconds && milliseconds <= MOST
}

/// The milliseconds of a time, from one millisecond to a minute: `500ms`, `2s`, `1m`, or a number of seconds with at most three decimal places. None of any other
/// text.
#[tactic(auto, using(crate::proofs::Waits::timeout_told, crate::proofs::Waits::timeout_refused, crate::proofs::Waits::no_timeout))]
fn read_timeout(text: &str) -> Option<u64>
    ensures { MatchOption result (IsNoTimeout text.now) (IsTimeout text.now) }
{
    let milliseconds = read_wait(text)?;
    if is_within(milliseconds) {
        Some(milliseconds)
    } else {
        None
    }
}

/// How many milliseconds an answer is waited for, where the text given for `--timeout` is such a time.
pub(crate) fn timeout_of(given: &ArgMatches<'_>) -> Option<u64>
    ensures { IsPatience given.now result }
{
    read_timeout(given.get_str("timeout")?)
}

/// The text given for `--timeout`, if it is invalid: it is not a time from one millisecond to a minute.
pub fn bad_timeout<'a>(given: &ArgMatches<'a>) -> Option<&'a str> {
    let text = given.get_str("timeout")?;
    match read_timeout(text) {
        Some(_) => None,
        None => Some(text),
    }
}

/// Prints why the text given for `--timeout` is invalid, as clap does for other arguments.
pub fn print_bad_timeout<E: Write>(text: &str, err: &mut E) {
    // if that fails too, only the status is left
    let _ = writeln!(
        err,
        "error: invalid value '{text}' for '--timeout <TIME>': expected a time of at most 60 seconds, such as 500ms, 2s or 0.5"
    );
    let _ = err.write_all(b"\nFor more information, try '--help'.\n");
}
