//! Numbers and moments that may be missing, as JSON.
ghost use Rattle.std.specs.Prelude.{◌≡◌, IfOk};
ghost use Rattle.std.specs.Option.{option_map};
ghost use Rattle.bac_json.specs.Forms.{optional_number, string_or_null};
ghost use Rattle.bac_json_report.specs.TimeForms.{IsTimeForm};
ghost use Rattle.serde_json.specs.View.{view};

use bac_moment::{TimeText, time_text};
use serde_json::Value as Json;
use std::alloc::{AllocError, Global};

/// A number; Null where there is none.
pub fn number_or_null(number: Option<u64>) -> Json
    ensures { view result ≡ optional_number number }
{
    match number {
        Some(number) => Json::from(number),
        None => Json::Null,
    }
}

/// A moment; Null where there is none. An Err is out of memory.
pub fn time_or_null(alloc: Global, time: &Option<TimeText>) -> Result<Json, AllocError>
    ensures { IfOk result (λ v. view v ≡ string_or_null (option_map (λ t. t.bytes) time.now)) }
{
    match time {
        Some(time) => Json::try_from_str(alloc, time.as_str()),
        None => Ok(Json::Null),
    }
}

/// A moment in milliseconds since 1970 began in UTC, as `2026-11-27T07:10:00.000Z`; Null where it is not known, or beyond the year 9999. An Err is out of
/// memory.
#[tactic(auto, using(crate::proofs::Times::time_formed))]
pub fn time_json(alloc: Global, time: Option<u64>) -> Result<Json, AllocError>
    ensures { IfOk result (λ v. IsTimeForm time (view v)) }
{
    let text = time_text(time);
    time_or_null(alloc, &text)
}
