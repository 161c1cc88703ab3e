//! The reasons of an Abort by number (BACnetAbortReason).
ghost use Rattle.std.specs.Prelude.{◌≡◌};
ghost use Rattle.std.specs.Option.{option_map};
ghost use Rattle.bac_value_text.specs.Names.{name_in as name_of, plain};
ghost use Rattle.bac_value_text.specs.AbortReasons.{ABORT_REASONS};

use crate::rows::name_in;

/// Names and numbers, sorted by name.
const ROWS: &[(&str, u32)] = &[
    ("apdu-too-long", 11),
    ("application-exceeded-reply-time", 8),
    ("buffer-overflow", 1),
    ("insufficient-security", 6),
    ("invalid-apdu-in-this-state", 2),
    ("other", 0),
    ("out-of-resources", 9),
    ("preempted-by-higher-priority-task", 3),
    ("security-error", 5),
    ("segmentation-not-supported", 4),
    ("tsm-timeout", 10),
    ("window-size-out-of-range", 7),
];

/// Names and numbers, sorted by name.
fn rows() -> &'static [(&'static str, u32)]
    ensures { plain result.now ≡ ABORT_REASONS }
{
    ROWS
}

/// The name of an Abort reason; None if the standard has no reason with this number.
pub fn abort_reason_name(number: u32) -> Option<&'static str>
    ensures { option_map (λ s. s.now) result ≡ name_of ABORT_REASONS number }
{
    name_in(rows(), number)
}
