//! Reading values from text.
ghost use Rattle.std.specs.Prelude.{◌≡◌};
ghost use Rattle.std.specs.Option.{option_map, option_or};
ghost use Rattle.percent_encoding.specs.Percent.{percent_decode};
ghost use Rattle.bac_value.specs.Views.{value_view};
ghost use Rattle.bac_value_text.specs.Numbers.{separator_octet};
ghost use Rattle.bac_value_text.specs.Reading.{characters_fit, number_value, raw_value, string_value, named_value, bare_value, value_in, Reads};

use crate::body_reading::{
    bits_in, boolean_in, characters_fitting, characters_in, double_in, fields_in, object_in,
    octets_fitting, real_in,
};
use crate::numbers::{eight_in, four_in, number_in, number_up_to, octets_in, parts_at, signed_in};
use crate::separator::Separator;
use crate::value_fault::ValueFault;
use bac_value::Value;
use percent_encoding::percent_decode;
use std::alloc::Global;

/// Reads a value of a kind whose values are numbers.
fn number_value(name: &[u8], body: &[u8]) -> Option<Value>
    ensures { option_map value_view result ≡ number_value name.now body.now }
{
    if name == b"boolean".as_slice() {
        Some(Value::Boolean(boolean_in(body)?))
    } else if name == b"unsigned".as_slice() {
        Some(Value::Unsigned(number_in(body)?))
    } else if name == b"signed".as_slice() {
        Some(Value::Signed(signed_in(body)?))
    } else if name == b"enumerated".as_slice() {
        Some(Value::Enumerated(number_up_to(u64::from(u32::MAX), body)? as u32))
    } else if name == b"real".as_slice() {
        Some(Value::Real(real_in(body)?))
    } else if name == b"double".as_slice() {
        Some(Value::Double(double_in(body)?))
    } else {
        None
    }
}

/// Reads a value of a kind with a fixed number of octets.
fn raw_value(name: &[u8], body: &[u8]) -> Option<Value>
    ensures { option_map value_view result ≡ raw_value name.now body.now }
{
    if name == b"date".as_slice() {
        Some(Value::Date(fields_in(1900, *b"---", body)?))
    } else if name == b"time".as_slice() {
        Some(Value::Time(fields_in(0, *b"::.", body)?))
    } else if name == b"object".as_slice() {
        Some(Value::ObjectIdentifier(object_in(body)?))
    } else if name == b"real-octets".as_slice() {
        Some(Value::Real(four_in(body)?))
    } else if name == b"double-octets".as_slice() {
        Some(Value::Double(eight_in(body)?))
    } else {
        None
    }
}

/// Reads text in character set 0.
fn text_in(alloc: Global, body: &[u8]) -> Result<Value, ValueFault>
    ensures { Reads value_view result (characters_fit 0 (percent_decode body.now)) }
{
    let mut text = Vec::new(alloc);
    percent_decode(body).append_to(&mut text)?;
    characters_fitting(0, text)
}

/// Reads a value of a kind that allocates.
fn string_value(alloc: Global, name: &[u8], body: &[u8]) -> Result<Value, ValueFault>
    ensures { Reads value_view result (string_value name.now body.now) }
{
    if name == b"octets".as_slice() {
        octets_fitting(octets_in(alloc, body)?)
    } else if name == b"text".as_slice() {
        text_in(alloc, body)
    } else if name == b"characters".as_slice() {
        characters_in(alloc, body)
    } else if name == b"bits".as_slice() {
        bits_in(alloc, body)
    } else {
        Err(ValueFault::NoValue)
    }
}

fn named_value(alloc: Global, name: &[u8], body: &[u8]) -> Result<Value, ValueFault>
    ensures { Reads value_view result (named_value name.now body.now) }
{
    if let Some(value) = number_value(name, body) {
        return Ok(value);
    }
    if let Some(value) = raw_value(name, body) {
        return Ok(value);
    }
    string_value(alloc, name, body)
}

fn bare_value(text: &[u8]) -> Result<Value, ValueFault>
    ensures { Reads value_view result (bare_value text.now) }
{
    if text == b"null".as_slice() {
        Ok(Value::Null)
    } else {
        Err(ValueFault::NoValue)
    }
}

/// Reads a value as [`value_text`](crate::value_text) prints it; hexadecimal digits may be in upper or lower case, and characters of a
/// text may be escaped without need. Returns `NoValue` if the text is not a value, and `NoMemory` if an allocation fails.
pub fn read_value(alloc: Global, separator: Separator, text: &[u8]) -> Result<Value, ValueFault>
    ensures { Reads value_view result (value_in (separator_octet separator) text.now) }
{
    match parts_at(separator.octet(), text) {
        Some((name, body)) => named_value(alloc, name, body),
        None => bare_value(text),
    }
}
