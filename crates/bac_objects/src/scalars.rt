//! TOML values by their types.
ghost use Rattle.std.specs.Prelude.{◌≡◌, ◌≤◌, IfOk};
ghost use Rattle.bac_value.specs.Steps.{ReadsAll};
ghost use Rattle.toml.specs.View.{view, array_view, table_view};
ghost use Rattle.bac_objects.specs.Reading.{text_of, integer_of, number_of, boolean_of, datetime_of, array_of, table_of, number_up_to};

use crate::given::in_place;
use crate::problem::{Given, Problem, Wanted};
use std::num::nearest_i64_to_f64;
use toml::value::{Array, Datetime};
use toml::{Table, Value};

pub(crate) fn text(wanted: Wanted, value: &Value) -> Result<&str, Problem>
    ensures { ReadsAll (λ s. s.now) result (text_of wanted (view value.now)) }
{
    match value.as_str() {
        Some(text) => Ok(text),
        None => Err(in_place(wanted, value)),
    }
}

pub(crate) fn integer(wanted: Wanted, value: &Value) -> Result<i64, Problem>
    ensures { result ≡ integer_of wanted (view value.now) }
{
    match value.as_integer() {
        Some(number) => Ok(number),
        None => Err(in_place(wanted, value)),
    }
}

/// A number: a float, or the float of 64 bits that is nearest to an integer.
pub(crate) fn number(wanted: Wanted, value: &Value) -> Result<f64, Problem>
    ensures { result ≡ number_of wanted (view value.now) }
{
    match value {
        Value::Float(number) => Ok(*number),
        Value::Integer(number) => Ok(nearest_i64_to_f64(*number)),
        _ => Err(in_place(wanted, value)),
    }
}

pub(crate) fn boolean(wanted: Wanted, value: &Value) -> Result<bool, Problem>
    ensures { result ≡ boolean_of wanted (view value.now) }
{
    match value.as_bool() {
        Some(is) => Ok(is),
        None => Err(in_place(wanted, value)),
    }
}

pub(crate) fn datetime(wanted: Wanted, value: &Value) -> Result<&Datetime, Problem>
    ensures { ReadsAll (λ d. d.now) result (datetime_of wanted (view value.now)) }
{
    match value.as_datetime() {
        Some(datetime) => Ok(datetime),
        None => Err(in_place(wanted, value)),
    }
}

pub(crate) fn array(wanted: Wanted, value: &Value) -> Result<&Array, Problem>
    ensures { ReadsAll (λ a. array_view a.now) result (array_of wanted (view value.now)) }
{
    match value.as_array() {
        Some(array) => Ok(array),
        None => Err(in_place(wanted, value)),
    }
}

pub(crate) fn table(wanted: Wanted, value: &Value) -> Result<&Table, Problem>
    ensures { ReadsAll (λ t. table_view t.now) result (table_of wanted (view value.now)) }
{
    match value.as_table() {
        Some(table) => Ok(table),
        None => Err(in_place(wanted, value)),
    }
}

/// An integer from 0 to `most`.
#[tactic(auto, unfolding(crate::specs::Reading::number_up_to))]
pub(crate) fn number_up_to(most: u64, wanted: Wanted, value: &Value) -> Result<u64, Problem>
    ensures is { result ≡ number_up_to most wanted (view value.now) }
    ensures within { IfOk result (λ n. n ≤ most) }
{
    let number = integer(wanted, value)?;
    match u64::try_from(number) {
        Ok(number) if number <= most => Ok(number),
        _ => Err(Problem {
            wanted,
            given: Given::Other,
        }),
    }
}
