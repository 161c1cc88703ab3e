//! Times as people write them: a number of milliseconds, seconds or minutes, such as `300ms`, `2s` or `1m`.
ghost use Rattle.std.specs.Prelude.{◌≡◌, ◌<◌, ◌*◌, ◌^◌, ◌++◌, ℕ, List, MatchOption, Some, decimal};
ghost use Rattle.bac_environment.specs.Times.{IsCutAtUnit, IsNoTime, IsTime};

use crate::read_number;

/// What stands before the text of a unit, at whose end that stands.
fn before_unit<'a>(text: &'a str, unit: &str) -> Option<&'a str>
    ensures { MatchOption result ((front : List ℕ) → text.now ≡ front ++ unit.now → ⊥) (λ front. text.now ≡ front.now ++ unit.now) }
{
    text.strip_suffix(unit)
}

/// What stands before the unit of a time, and how many milliseconds the unit has; without one, the whole text, and `own`.
#[tactic(auto, using(crate::proofs::TimeUnits::cut_at_milliseconds, crate::proofs::TimeUnits::cut_at_seconds, crate::proofs::TimeUnits::cut_at_minutes, crate::proofs::TimeUnits::not_cut))]
fn at_unit(text: &str, own: u64) -> (&str, u64)
    ensures { IsCutAtUnit own text.now result.0.now result.1 }
{
    if let Some(front) = before_unit(text, "ms") {
        return (front, 1);
    }
    if let Some(front) = before_unit(text, "s") {
        return (front, 1_000);
    }
    match before_unit(text, "m") {
        Some(front) => (front, 60_000),
        None => (text, own),
    }
}

/// The milliseconds of a time: a number with `ms`, `s` or `m` behind it, or a number alone, of a unit that has so many. None of any other text, and where they
/// are 2^64 or more.
#[tactic(auto, using(crate::proofs::TimeUnits::time_told))]
pub fn read_time(text: &str, unit: u64) -> Option<u64>
    ensures told { MatchOption result (IsNoTime unit text.now) (IsTime unit text.now) }
    ensures alone { (n : ℕ) → n < 2 ^ 64 → n * unit < 2 ^ 64 → text.now ≡ decimal n → result ≡ Some (n * unit) }
{
    let (front, each) = at_unit(text, unit);
    let count = read_number(front)?;
    count.checked_mul(each)
}
