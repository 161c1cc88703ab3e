//! What a document has in place of what is expected.
ghost use Rattle.std.specs.Prelude.{◌≡◌};
ghost use Rattle.toml.specs.View.{view};
ghost use Rattle.bac_objects.specs.Reading.{given_of, in_place};

use crate::problem::{Given, Problem, Wanted};
use toml::Value;

/// The form of a TOML value.
fn given(value: &Value) -> Given
    ensures { result ≡ given_of (view value.now) }
{
    match value {
        Value::String(_) => Given::Text,
        Value::Integer(_) => Given::Integer,
        Value::Float(_) => Given::Float,
        Value::Boolean(_) => Given::Boolean,
        Value::Datetime(_) => Given::DateTime,
        Value::Array(_) => Given::Array,
        Value::Table(_) => Given::Table,
    }
}

/// The problem of a value in place of what is expected.
pub(crate) fn in_place(wanted: Wanted, value: &Value) -> Problem
    ensures { result ≡ in_place wanted (view value.now) }
{
    Problem {
        wanted,
        given: given(value),
    }
}
