//! The object types by name and by number (BACnetObjectType).
ghost use Rattle.std.specs.Prelude.{◌≡◌};
ghost use Rattle.std.specs.Option.{option_map};
ghost use Rattle.bac_value_text.specs.Names.{name_in as name_of, number_in as number_of, plain};
ghost use Rattle.bac_value_text.specs.ObjectTypes.{OBJECT_TYPES};

use crate::rows::{name_in, number_in};

/// Names and numbers, sorted by name. The type that the standard has removed (38) is not listed.
const ROWS: &[(&str, u32)] = &[
    ("access-credential", 32),
    ("access-door", 30),
    ("access-point", 33),
    ("access-rights", 34),
    ("access-user", 35),
    ("access-zone", 36),
    ("accumulator", 23),
    ("alert-enrollment", 52),
    ("analog-input", 0),
    ("analog-output", 1),
    ("analog-value", 2),
    ("audit-log", 61),
    ("audit-reporter", 62),
    ("averaging", 18),
    ("binary-input", 3),
    ("binary-lighting-output", 55),
    ("binary-output", 4),
    ("binary-value", 5),
    ("bitstring-value", 39),
    ("calendar", 6),
    ("channel", 53),
    ("characterstring-value", 40),
    ("command", 7),
    ("credential-data-input", 37),
    ("date-pattern-value", 41),
    ("date-value", 42),
    ("datetime-pattern-value", 43),
    ("datetime-value", 44),
    ("device", 8),
    ("elevator-group", 57),
    ("escalator", 58),
    ("event-enrollment", 9),
    ("event-log", 25),
    ("file", 10),
    ("global-group", 26),
    ("group", 11),
    ("integer-value", 45),
    ("large-analog-value", 46),
    ("life-safety-point", 21),
    ("life-safety-zone", 22),
    ("lift", 59),
    ("lighting-output", 54),
    ("load-control", 28),
    ("loop", 12),
    ("multi-state-input", 13),
    ("multi-state-output", 14),
    ("multi-state-value", 19),
    ("network-port", 56),
    ("notification-class", 15),
    ("notification-forwarder", 51),
    ("octetstring-value", 47),
    ("positive-integer-value", 48),
    ("program", 16),
    ("pulse-converter", 24),
    ("schedule", 17),
    ("staging", 60),
    ("structured-view", 29),
    ("time-pattern-value", 49),
    ("time-value", 50),
    ("timer", 31),
    ("trend-log", 20),
    ("trend-log-multiple", 27),
];

/// Names and numbers, sorted by name.
fn rows() -> &'static [(&'static str, u32)]
    ensures { plain result.now ≡ OBJECT_TYPES }
{
    ROWS
}

/// The number of an object type, for example of `analog-input`; None if the standard has no type with this name.
pub fn object_type_number(name: &str) -> Option<u32>
    ensures { result ≡ number_of OBJECT_TYPES name.now }
{
    object_type_named(name.as_bytes())
}

/// The number of an object type, from the octets of its name.
pub fn object_type_named(name: &[u8]) -> Option<u32>
    ensures { result ≡ number_of OBJECT_TYPES name.now }
{
    number_in(rows(), name)
}

/// The name of an object type; None if the standard has no type with this number.
pub fn object_type_name(number: u32) -> Option<&'static str>
    ensures { option_map (λ s. s.now) result ≡ name_of OBJECT_TYPES number }
{
    name_in(rows(), number)
}
