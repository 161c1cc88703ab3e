//! Moments as texts.
ghost use Rattle.std.specs.Prelude.{◌≡◌, IfSome};
ghost use Rattle.std.specs.Option.{option_map};
ghost use Rattle.jiff_core.specs.Timestamp.{IsTimestampNanos};
ghost use Rattle.bac_moment.specs.Times.{IsTextAt, IsTextOf, nanoseconds};

use arrayvec::ArrayString;
use jiff_core::Timestamp;
use jiff_fmt::temporal::DateTimePrinter;

/// The most octets of such a text.
pub type TimeText = ArrayString<33>;

fn nanoseconds(milliseconds: u64) -> i128
    ensures { result ≡ nanoseconds milliseconds }
{
    milliseconds as i128 * 1_000_000
}

/// None beyond the year 9999.
fn timestamp_at(milliseconds: u64) -> Option<Timestamp>
    ensures some { IfSome result (λ t. t.nanosecond ≡ nanoseconds milliseconds) }
    ensures none { result ≡ None → ¬ (IsTimestampNanos (nanoseconds milliseconds)) }
{
    match Timestamp::from_nanosecond(nanoseconds(milliseconds)) {
        Ok(timestamp) => Some(timestamp),
        Err(_) => None,
    }
}

/// The moment so many milliseconds after 1970 began in UTC, as `2026-11-27T07:10:00.000Z`. None beyond the year 9999.
fn text_at(milliseconds: u64) -> Option<TimeText>
    ensures { IsTextAt milliseconds (option_map (λ t. t.bytes) result) }
{
    match timestamp_at(milliseconds) {
        Some(timestamp) => {
            let printer = DateTimePrinter::new().precision(Some(3));
            Some(printer.timestamp_text(timestamp))
        }
        None => None,
    }
}

/// The moment so many milliseconds after 1970 began in UTC, as `2026-11-27T07:10:00.012Z`. None where it is not known, or beyond the year 9999.
pub fn time_text(time: Option<u64>) -> Option<TimeText>
    ensures { IsTextOf time (option_map (λ t. t.bytes) result) }
{
    match time {
        Some(milliseconds) => text_at(milliseconds),
        None => None,
    }
}
