//! Seconds as decimal numbers: `2`, or `0.5`.
ghost use Rattle.std.specs.Prelude.{◌≡◌, ◌&&◌, ◌<◌, ◌≤◌, ◌^◌, ◌-◌, ℕ, MatchOption, false, get_or, nat_eq, nat_le, nat_lt};
ghost use Rattle.bac_asking.specs.Seconds.{AreDecimal, AreDigits, AreMilliseconds, AreNoSeconds, AreSeconds, AreWhole, GivesTime};

use bac_environment::{parts_at, read_number};
use clap::ArgMatches;
use std::io::Write;

/// The most seconds between rounds.
const MOST: u64 = 1_000_000_000;

/// Whether a text begins with a plus.
fn has_plus(text: &str) -> bool
    ensures { result ≡ nat_eq (get_or text.now 0 0) 43 }
{
    match text.as_bytes() {
        [first, ..] => *first == b'+',
        [] => false,
    }
}

/// The number whose digits a text has, and nothing else.
#[tactic(auto, using(crate::proofs::Decimals::plus_no_digits, crate::proofs::Decimals::digits_without_plus))]
fn read_digits(text: &str) -> Option<u64>
    ensures { MatchOption result ((number : ℕ) → AreDigits text.now number → ⊥) (AreDigits text.now) }
{
    if has_plus(text) {
        return None;
    }
    read_number(text)
}

/// How many thousandths the last of so many digits behind a point counts.
fn each_digit(count: usize) -> Option<u64>
    ensures { MatchOption result (0 < count → count ≤ 3 → ⊥) (λ each. (count ≤ 3) × (each ≡ 10 ^ (3 - count))) }
{
    match count {
        1 => Some(100),
        2 => Some(10),
        3 => Some(1),
        _ => None,
    }
}

/// The milliseconds of digits before a point, and one to three behind it.
#[tactic(auto, using(crate::proofs::Decimals::decimal_given, crate::proofs::Decimals::no_digits_before, crate::proofs::Decimals::no_digits_behind, crate::proofs::Decimals::too_many_digits))]
fn decimal_seconds(front: &str, back: &str) -> Option<u64>
    ensures { MatchOption result ((m : ℕ) → AreDecimal front.now back.now m → ⊥) (GivesTime (AreDecimal front.now back.now)) }
{
    let seconds = read_digits(front)?;
    let rest = read_digits(back)?;
    let each = each_digit(back.len())?;
    Some(
        seconds
            .saturating_mul(1_000)
            .saturating_add(rest.saturating_mul(each)),
    )
}

/// The milliseconds of whole seconds.
#[tactic(auto, using(crate::proofs::Decimals::whole_given, crate::proofs::Decimals::no_whole))]
fn whole_seconds(text: &str) -> Option<u64>
    ensures { MatchOption result ((m : ℕ) → AreWhole text.now m → ⊥) (GivesTime (AreWhole text.now)) }
{
    let seconds = read_number(text)?;
    Some(seconds.saturating_mul(1_000))
}

/// The milliseconds of a number of seconds, which may have a point.
#[tactic(auto, using(crate::proofs::Decimals::with_point, crate::proofs::Decimals::without_point))]
fn milliseconds_in(text: &str) -> Option<u64>
    ensures { MatchOption result ((m : ℕ) → AreMilliseconds text.now m → ⊥) (GivesTime (AreMilliseconds text.now)) }
{
    match parts_at(text, '.') {
        Some((front, back)) => decimal_seconds(front, back),
        None => whole_seconds(text),
    }
}

/// Whether so many milliseconds may lie between rounds.
fn is_within(milliseconds: u64) -> bool
    ensures { result ≡ (nat_lt 0 milliseconds && nat_le milliseconds 1000000000000) }
{
    0 < milliseconds && milliseconds <= MOST * 1_000
}

/// The milliseconds of a number of seconds, 0.001 to 1,000,000,000, with at most three digits behind the point. None of any other text.
#[tactic(auto, using(crate::proofs::Decimals::seconds_told, crate::proofs::Decimals::seconds_refused, crate::proofs::Decimals::no_seconds))]
pub fn read_seconds(text: &str) -> Option<u64>
    ensures { MatchOption result (AreNoSeconds text.now) (AreSeconds text.now) }
{
    let milliseconds = milliseconds_in(text)?;
    if is_within(milliseconds) {
        Some(milliseconds)
    } else {
        None
    }
}

/// The text given for `--every`, if it is invalid: it is not a number of seconds from 0.001 to 1,000,000,000 with at most three decimal places.
pub fn bad_pace<'a>(given: &ArgMatches<'a>) -> Option<&'a str> {
    let text = given.get_str("every")?;
    match read_seconds(text) {
        Some(_) => None,
        None => Some(text),
    }
}

/// Prints why the text given for `--every` is invalid, as clap does for other arguments.
pub fn print_bad_pace<E: Write>(text: &str, err: &mut E) {
    // if that fails too, only the status is left
    let _ = writeln!(
        err,
        "error: invalid value '{text}' for '--every <S>': expected a number of seconds from 0.001 to {MOST}, with at most three decimal places"
    );
    let _ = err.write_all(b"\nFor more information, try '--help'.\n");
}
