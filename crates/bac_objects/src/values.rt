//! Reading a value under the word of its kind (clause 20.2).
ghost use Rattle.std.specs.Prelude.{◌≡◌};
ghost use Rattle.bac_value.specs.Steps.{ReadsAll};
ghost use Rattle.bac_value.specs.Views.{value_view};
ghost use Rattle.toml.specs.View.{view};
ghost use Rattle.bac_point_text.specs.Enumerations.{number_of as number_named};
ghost use Rattle.bac_point_text.specs.Views.{maybe_names, names_view};
ghost use Rattle.bac_objects.specs.Answers.{Reads};
ghost use Rattle.bac_objects.specs.Values.{characters_of, date_alone, date_in as date_of_parts, date_of, double_of, enumerated_of, hex_of, null_of, numbered_of, or_unknown};
ghost use Rattle.bac_objects.specs.Values.{object_of, octets_of, real_of, signed_of, time_alone, time_in as time_of_parts, time_of, truth_of, unsigned_of, value_of};

use crate::bits::bits;
use crate::fault::ValueFault;
use crate::form::Kind;
use crate::identifier::identifier_in;
use crate::problem::{Given, Problem, Wanted};
use crate::scalars::{boolean, datetime, integer, number, number_up_to, text};
use bac_point_text::Enumeration;
use bac_value::{CharacterString, OctetString, Value};
use hex::FromHexError;
use std::alloc::Global;
use std::num::{f32_to_bits_with_nan, f64_to_bits_with_nan, nearest_f64_to_f32_with_nan};
use toml::value::{Date, Time};

fn other(wanted: Wanted) -> Problem
    ensures { result ≡ record { wanted = wanted; given = Given.Other } }
{
    Problem {
        wanted,
        given: Given::Other,
    }
}

const TOO_LONG: Problem = Problem {
    wanted: Wanted::ShortValue,
    given: Given::More,
};

/// Null is written as `true`.
fn null(value: &toml::Value) -> Result<Value, Problem>
    ensures { ReadsAll value_view result (null_of (view value.now)) }
{
    if boolean(Wanted::True, value)? {
        Ok(Value::Null)
    } else {
        Err(other(Wanted::True))
    }
}

fn truth(value: &toml::Value) -> Result<Value, Problem>
    ensures { ReadsAll value_view result (truth_of (view value.now)) }
{
    Ok(Value::Boolean(boolean(Wanted::Boolean, value)?))
}

fn unsigned(value: &toml::Value) -> Result<Value, Problem>
    ensures { ReadsAll value_view result (unsigned_of (view value.now)) }
{
    let number = number_up_to((1 << 63) - 1, Wanted::Unsigned, value)?;
    Ok(Value::Unsigned(number))
}

fn signed(value: &toml::Value) -> Result<Value, Problem>
    ensures { ReadsAll value_view result (signed_of (view value.now)) }
{
    Ok(Value::Signed(integer(Wanted::Integer, value)?))
}

fn numbered(value: &toml::Value) -> Result<Value, Problem>
    ensures { ReadsAll value_view result (numbered_of (view value.now)) }
{
    let number = number_up_to((1 << 32) - 1, Wanted::Enumerated, value)?;
    Ok(Value::Enumerated(number as u32))
}

fn named(names: Enumeration, name: &str) -> Result<Value, Problem>
    ensures { ReadsAll value_view result (or_unknown (number_named (names_view names) name.now)) }
{
    match names.number_of(name.as_bytes()) {
        Some(number) => Ok(Value::Enumerated(number)),
        None => Err(other(Wanted::Name)),
    }
}

/// A number, or where the standard has names for it the name of one.
fn enumerated(names: Option<Enumeration>, value: &toml::Value) -> Result<Value, Problem>
    ensures { ReadsAll value_view result (enumerated_of (maybe_names names) (view value.now)) }
{
    match (names, value.as_str()) {
        (Some(names), Some(name)) => named(names, name),
        _ => numbered(value),
    }
}

/// The float of 32 bits that is nearest to TOML's number as one of 64 bits, with one pattern for all NaN. A finite number must not become infinite.
fn real(value: &toml::Value) -> Result<Value, Problem>
    ensures { ReadsAll value_view result (real_of (view value.now)) }
{
    let number = number(Wanted::Float, value)?;
    let nearest = nearest_f64_to_f32_with_nan(number);
    if number.is_finite() && !nearest.is_finite() {
        return Err(other(Wanted::Single));
    }
    let bits = f32_to_bits_with_nan(nearest);
    Ok(Value::Real(bits.to_be_bytes()))
}

fn double(value: &toml::Value) -> Result<Value, Problem>
    ensures { ReadsAll value_view result (double_of (view value.now)) }
{
    let number = number(Wanted::Float, value)?;
    let bits = f64_to_bits_with_nan(number);
    Ok(Value::Double(bits.to_be_bytes()))
}

/// Octets in hexadecimal.
pub(crate) fn hex_octets(alloc: Global, value: &toml::Value) -> Result<Vec<u8>, ValueFault>
    ensures { Reads (λ v. v.items) result (hex_of (view value.now)) }
{
    let text = text(Wanted::Hex, value)?;
    match hex::decode(alloc, text.as_bytes()) {
        Ok(octets) => Ok(octets),
        Err(FromHexError::OutOfMemory) => Err(ValueFault::NoMemory),
        Err(_) => Err(ValueFault::Wrong(other(Wanted::Hex))),
    }
}

fn octets(alloc: Global, value: &toml::Value) -> Result<Value, ValueFault>
    ensures { Reads value_view result (octets_of (view value.now)) }
{
    match OctetString::new(hex_octets(alloc, value)?) {
        Some(string) => Ok(Value::OctetString(string)),
        None => Err(ValueFault::Wrong(TOO_LONG)),
    }
}

fn characters(alloc: Global, value: &toml::Value) -> Result<Value, ValueFault>
    ensures { Reads value_view result (characters_of (view value.now)) }
{
    let text = text(Wanted::Text, value)?;
    let octets = Vec::from_slice(alloc, text.as_bytes())?;
    match CharacterString::new(0, octets) {
        Some(string) => Ok(Value::CharacterString(string)),
        None => Err(ValueFault::Wrong(TOO_LONG)),
    }
}

fn date_in(date: Date) -> Result<Value, Problem>
    ensures { ReadsAll value_view result (date_of_parts date) }
{
    if date.year < 1900 || date.year > 2154 {
        return Err(other(Wanted::Date));
    }
    let year = (date.year - 1900) as u8;
    Ok(Value::Date([year, date.month, date.day, 255]))
}

/// A date, with any day of the week.
fn date(value: &toml::Value) -> Result<Value, Problem>
    ensures { ReadsAll value_view result (date_of (view value.now)) }
{
    let datetime = datetime(Wanted::Date, value)?;
    match (datetime.date, datetime.time) {
        (Some(date), None) => date_in(date),
        _ => Err(other(Wanted::Date)),
    }
}

fn time_in(time: Time) -> Result<Value, Problem>
    ensures { ReadsAll value_view result (time_alone None (Some time)) }
{
    let second = time.second.unwrap_or(0);
    let nanosecond = time.nanosecond.unwrap_or(0);
    if second >= 60 || nanosecond >= 1_000_000_000 {
        return Err(other(Wanted::Time));
    }
    let hundredths = (nanosecond / 10_000_000) as u8;
    Ok(Value::Time([time.hour, time.minute, second, hundredths]))
}

fn time(value: &toml::Value) -> Result<Value, Problem>
    ensures { ReadsAll value_view result (time_of (view value.now)) }
{
    let datetime = datetime(Wanted::Time, value)?;
    match (datetime.date, datetime.time) {
        (None, Some(time)) => time_in(time),
        _ => Err(other(Wanted::Time)),
    }
}

fn object(value: &toml::Value) -> Result<Value, Problem>
    ensures { ReadsAll value_view result (object_of (view value.now)) }
{
    Ok(Value::ObjectIdentifier(identifier_in(value)?))
}

/// Reads a value of a kind; `names` are those of its numbers.
pub(crate) fn value_in(
    alloc: Global,
    names: Option<Enumeration>,
    kind: Kind,
    value: &toml::Value,
) -> Result<Value, ValueFault>
    ensures { Reads value_view result (value_of (maybe_names names) kind (view value.now)) }
{
    match kind {
        Kind::Null => Ok(null(value)?),
        Kind::Boolean => Ok(truth(value)?),
        Kind::Unsigned => Ok(unsigned(value)?),
        Kind::Signed => Ok(signed(value)?),
        Kind::Real => Ok(real(value)?),
        Kind::Double => Ok(double(value)?),
        Kind::Octets => octets(alloc, value),
        Kind::Text => characters(alloc, value),
        Kind::Bits => bits(alloc, value),
        Kind::Enumerated => Ok(enumerated(names, value)?),
        Kind::Date => Ok(date(value)?),
        Kind::Time => Ok(time(value)?),
        Kind::Object => Ok(object(value)?),
    }
}
