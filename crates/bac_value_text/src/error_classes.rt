//! The error classes by number (BACnetError, error-class).
ghost use Rattle.std.specs.Prelude.{◌≡◌};
ghost use Rattle.std.specs.Option.{option_map};
ghost use Rattle.bac_value_text.specs.Names.{name_in as name_of, plain};
ghost use Rattle.bac_value_text.specs.ErrorClasses.{ERROR_CLASSES};

use crate::rows::name_in;

/// Names and numbers, sorted by name.
const ROWS: &[(&str, u32)] = &[
    ("communication", 7),
    ("device", 0),
    ("object", 1),
    ("property", 2),
    ("resources", 3),
    ("security", 4),
    ("services", 5),
    ("vt", 6),
];

/// Names and numbers, sorted by name.
fn rows() -> &'static [(&'static str, u32)]
    ensures { plain result.now ≡ ERROR_CLASSES }
{
    ROWS
}

/// The name of an error class; None if the standard has no class with this number.
pub fn error_class_name(number: u32) -> Option<&'static str>
    ensures { option_map (λ s. s.now) result ≡ name_of ERROR_CLASSES number }
{
    name_in(rows(), number)
}
