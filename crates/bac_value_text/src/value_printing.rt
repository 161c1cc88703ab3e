//! Printing values as text.
ghost use Rattle.std.specs.Prelude.{◌≡◌, ◌∷◌, ◌++◌, Some, IfOk};
ghost use Rattle.bac_value.specs.Value.{IsValue};
ghost use Rattle.bac_value.specs.Views.{value_view};
ghost use Rattle.bac_value_text.specs.Numbers.{separator_octet};
ghost use Rattle.bac_value_text.specs.Texts.{kind_name, IsBody, IsTextOf};
ghost use Rattle.bac_value_text.specs.Laws.{HasOctets};
ghost use Rattle.bac_value_text.specs.Reading.{value_in};

use crate::body_printing::{
    bits_text, boolean_text, characters_body, double_text, enumerated_text, fields_text,
    hexadecimal, is_double_number, is_real_number, is_text, object_text, real_text, signed_text,
    unsigned_text,
};
use crate::laws::printed_values_are_read;
use crate::separator::Separator;
use bac_value::Value;
use std::alloc::{AllocError, Global};

/// The name of a value's kind.
fn kind_name(value: &Value) -> &'static str
    ensures { result.now ≡ kind_name (value_view value.now) }
{
    match value {
        Value::Null => "null",
        Value::Boolean(_) => "boolean",
        Value::Unsigned(_) => "unsigned",
        Value::Signed(_) => "signed",
        Value::Real(octets) if is_real_number(*octets) => "real",
        Value::Real(_) => "real-octets",
        Value::Double(octets) if is_double_number(*octets) => "double",
        Value::Double(_) => "double-octets",
        Value::OctetString(_) => "octets",
        Value::CharacterString(string) if is_text(string.set, &string.text) => "text",
        Value::CharacterString(_) => "characters",
        Value::BitString(_) => "bits",
        Value::Enumerated(_) => "enumerated",
        Value::Date(_) => "date",
        Value::Time(_) => "time",
        Value::ObjectIdentifier(_) => "object",
    }
}

/// The text of a value after the name and the separator.
fn body_text(alloc: Global, value: &Value) -> Result<Vec<u8>, AllocError>
    ensures is { IfOk result (λ t. IsBody (value_view value.now) t.items) }
    ensures valid { IsValue (value_view value.now) }
    ensures each { HasOctets (value_view value.now) }
{
    match value {
        Value::Null => Ok(Vec::new(alloc)),
        Value::Boolean(truth) => boolean_text(alloc, *truth),
        Value::Unsigned(number) => unsigned_text(alloc, *number),
        Value::Signed(number) => signed_text(alloc, *number),
        Value::Real(octets) => real_text(alloc, *octets),
        Value::Double(octets) => double_text(alloc, *octets),
        Value::OctetString(string) => hexadecimal(alloc, &string.octets),
        Value::CharacterString(string) => characters_body(alloc, string.set, &string.text),
        Value::BitString(string) => bits_text(alloc, string.unused, &string.octets),
        Value::Enumerated(number) => enumerated_text(alloc, *number),
        Value::Date(fields) => fields_text(alloc, 1900, *b"---", *fields),
        Value::Time(fields) => fields_text(alloc, 0, *b"::.", *fields),
        Value::ObjectIdentifier(object) => object_text(alloc, *object),
    }
}

/// The text of a value: the name of its kind, the separator and the value itself; for a Null the name alone.
pub fn value_text(alloc: Global, separator: Separator, value: &Value) -> Result<Vec<u8>, AllocError>
    ensures is { IfOk result (λ t. IsTextOf (separator_octet separator) (value_view value.now) t.items) }
    ensures reads { IfOk result (λ t. value_in (separator_octet separator) t.items ≡ Some (value_view value.now)) }
{
    printed_values_are_read();
    let body = body_text(alloc, value)?;
    let mut text = Vec::from_slice(alloc, kind_name(value).as_bytes())?;
    if let Value::Null = value {
        return Ok(text);
    }
    text.push(separator.octet())?;
    text.extend_from_slice(body.as_slice())?;
    Ok(text)
}
