//! The reasons of a Reject by number (BACnetRejectReason).
ghost use Rattle.std.specs.Prelude.{◌≡◌};
ghost use Rattle.std.specs.Option.{option_map};
ghost use Rattle.bac_value_text.specs.Names.{name_in as name_of, plain};
ghost use Rattle.bac_value_text.specs.RejectReasons.{REJECT_REASONS};

use crate::rows::name_in;

/// Names and numbers, sorted by name.
const ROWS: &[(&str, u32)] = &[
    ("buffer-overflow", 1),
    ("inconsistent-parameters", 2),
    ("invalid-parameter-data-type", 3),
    ("invalid-tag", 4),
    ("missing-required-parameter", 5),
    ("other", 0),
    ("parameter-out-of-range", 6),
    ("too-many-arguments", 7),
    ("undefined-enumeration", 8),
    ("unrecognized-service", 9),
];

/// Names and numbers, sorted by name.
fn rows() -> &'static [(&'static str, u32)]
    ensures { plain result.now ≡ REJECT_REASONS }
{
    ROWS
}

/// The name of a Reject reason; None if the standard has no reason with this number.
pub fn reject_reason_name(number: u32) -> Option<&'static str>
    ensures { option_map (λ s. s.now) result ≡ name_of REJECT_REASONS number }
{
    name_in(rows(), number)
}
