//! Printing the part of a value after the name of its kind.
ghost use Rattle.std.specs.Prelude.{◌≡◌, ◌++◌, ◌<◌, ◌^◌, false, length, decimal, IfOk, OnOk, string_bytes};
ghost use Rattle.std.specs.Fmt.{signed_decimal};
ghost use Rattle.hex.specs.Hex.{encode_upper};
ghost use Rattle.bac_value.specs.Number.{distance};
ghost use Rattle.bac_value.specs.Octets.{IsBytes};
ghost use Rattle.bac_value.specs.Views.{object_identifier_view};
ghost use Rattle.bac_value_text.specs.Texts.{boolean_text, is_real_number, is_double_number, IsRealText, IsDoubleText, is_text, escaped_octet, escaped};
ghost use Rattle.bac_value_text.specs.Texts.{characters_text, bit_digits, all_bits, bits_text, field_text, fields_text, type_text, property_text, object_text};

use crate::{object_type_name, property_name};
use bac_value::ObjectIdentifier;
use percent_encoding::percent_encode_byte;
use ryu::Buffer;
use std::alloc::{AllocError, Global};

/// Whether the octets encode a number, not NaN.
pub(crate) fn is_real_number(octets: [u8; 4]) -> bool
    ensures { result ≡ is_real_number octets }
{
    u32::from_be_bytes(octets) % 0x8000_0000 <= 0x7f80_0000
}

pub(crate) fn is_double_number(octets: [u8; 8]) -> bool
    ensures { result ≡ is_double_number octets }
{
    u64::from_be_bytes(octets) % 0x8000_0000_0000_0000 <= 0x7ff0_0000_0000_0000
}

pub(crate) fn boolean_text(alloc: Global, truth: bool) -> Result<Vec<u8>, AllocError>
    ensures { IfOk result (λ t. t.items ≡ boolean_text truth) }
{
    let text = format!(in alloc; "{truth}")?;
    Ok(text.into_bytes())
}

/// A number in decimal digits.
pub(crate) fn unsigned_text(alloc: Global, number: u64) -> Result<Vec<u8>, AllocError>
    ensures text { IfOk result (λ t. t.items ≡ decimal number) }
    ensures fits { number < 2 ^ 64 }
{
    let text = format!(in alloc; "{number}")?;
    Ok(text.into_bytes())
}

/// A number in decimal digits, with a minus where it is below 0.
pub(crate) fn signed_text(alloc: Global, number: i64) -> Result<Vec<u8>, AllocError>
    ensures text { IfOk result (λ t. t.items ≡ signed_decimal number) }
    ensures fits { distance number < 2 ^ 63 }
{
    let text = format!(in alloc; "{number}")?;
    Ok(text.into_bytes())
}

/// A number in decimal digits.
pub(crate) fn enumerated_text(alloc: Global, number: u32) -> Result<Vec<u8>, AllocError>
    ensures text { IfOk result (λ t. t.items ≡ decimal number) }
    ensures fits { number < 2 ^ 32 }
{
    let text = format!(in alloc; "{number}")?;
    Ok(text.into_bytes())
}

/// Octets in hexadecimal, in upper case.
pub(crate) fn hexadecimal(alloc: Global, octets: &[u8]) -> Result<Vec<u8>, AllocError>
    ensures text { IfOk result (λ t. t.items ≡ encode_upper octets.now) }
    ensures each { IsBytes octets.now }
{
    let text = hex::encode_upper(alloc, octets)?;
    Ok(text.into_bytes())
}

/// A Real in the fewest digits that read as the same number; the octets in hexadecimal for NaN.
#[tactic(auto, using(crate::proofs::Floats::real_printed))]
pub(crate) fn real_text(alloc: Global, octets: [u8; 4]) -> Result<Vec<u8>, AllocError>
    ensures text { IfOk result (λ t. IsRealText (is_real_number octets) octets t.items) }
    ensures len { length octets ≡ 4 }
    ensures each { IsBytes octets }
{
    if !is_real_number(octets) {
        return hexadecimal(alloc, &octets);
    }
    let mut buffer = Buffer::new();
    let number = buffer.format(f32::from_be_bytes(octets));
    Vec::from_slice(alloc, number.as_bytes())
}

/// A Double in the fewest digits that read as the same number; the octets in hexadecimal for NaN.
#[tactic(auto, using(crate::proofs::Floats::double_printed))]
pub(crate) fn double_text(alloc: Global, octets: [u8; 8]) -> Result<Vec<u8>, AllocError>
    ensures text { IfOk result (λ t. IsDoubleText (is_double_number octets) octets t.items) }
    ensures len { length octets ≡ 8 }
    ensures each { IsBytes octets }
{
    if !is_double_number(octets) {
        return hexadecimal(alloc, &octets);
    }
    let mut buffer = Buffer::new();
    let number = buffer.format(f64::from_be_bytes(octets));
    Vec::from_slice(alloc, number.as_bytes())
}

fn put_escaped(octet: u8, text: &mut Vec<u8>) -> Result<(), AllocError>
    ensures { OnOk result (text.new.items ≡ text.old.items ++ escaped_octet octet) }
{
    if octet < 32 || octet == b'%' || octet == 127 {
        text.extend_from_slice(percent_encode_byte(octet).as_bytes())?;
    } else {
        text.push(octet)?;
    }
    Ok(())
}

fn escaped_text(alloc: Global, octets: &[u8]) -> Result<Vec<u8>, AllocError>
    ensures { IfOk result (λ t. t.items ≡ escaped octets.now) }
{
    let mut text = Vec::new(alloc);
    for octet in octets {
        put_escaped(*octet, &mut text)?;
    }
    Ok(text)
}

/// Whether these octets in this character set are text: valid UTF-8 in set 0.
pub(crate) fn is_text(set: u8, text: &[u8]) -> bool
    ensures { result ≡ is_text set text.now }
{
    set == 0 && std::str::from_utf8(text).is_ok()
}

/// Octets in a character set that is not text, in hexadecimal.
fn raw_characters(alloc: Global, set: u8, text: &[u8]) -> Result<Vec<u8>, AllocError>
    ensures { IfOk result (λ t. t.items ≡ characters_text false set text.now) }
{
    let octets = hex::encode_upper(alloc, text)?;
    let body = format!(in alloc; "{set}:{octets}")?;
    Ok(body.into_bytes())
}

pub(crate) fn characters_body(alloc: Global, set: u8, text: &[u8]) -> Result<Vec<u8>, AllocError>
    ensures body { IfOk result (λ t. t.items ≡ characters_text (is_text set text.now) set text.now) }
    ensures set { set < 256 }
    ensures each { IsBytes text.now }
{
    if is_text(set, text) {
        escaped_text(alloc, text)
    } else {
        raw_characters(alloc, set, text)
    }
}

/// The bits of an octet as digits, the most significant first.
fn bit_digits(octet: u8) -> [u8; 8]
    ensures { result ≡ bit_digits octet }
{
    let half = octet / 2;
    let quarter = half / 2;
    let eighth = quarter / 2;
    let sixteenth = eighth / 2;
    let quarter_of_half = sixteenth / 2;
    let two_bits = quarter_of_half / 2;
    [
        48 + two_bits / 2 % 2,
        48 + two_bits % 2,
        48 + quarter_of_half % 2,
        48 + sixteenth % 2,
        48 + eighth % 2,
        48 + quarter % 2,
        48 + half % 2,
        48 + octet % 2,
    ]
}

fn all_bits(alloc: Global, octets: &[u8]) -> Result<Vec<u8>, AllocError>
    ensures { IfOk result (λ t. t.items ≡ all_bits octets.now) }
{
    let mut text = Vec::new(alloc);
    for octet in octets {
        text.extend_from_slice(&bit_digits(*octet))?;
    }
    Ok(text)
}

/// A digit for each bit.
pub(crate) fn bits_text(alloc: Global, unused: u8, octets: &[u8]) -> Result<Vec<u8>, AllocError>
    ensures text { IfOk result (λ t. t.items ≡ bits_text unused octets.now) }
    ensures each { IsBytes octets.now }
{
    let mut text = all_bits(alloc, octets)?;
    let len = text.len().saturating_sub(usize::from(unused));
    text.truncate(len);
    Ok(text)
}

/// A field of a date or a time, which counts from a number on.
fn field_text(alloc: Global, base: u16, octet: u8) -> Result<String, AllocError>
    ensures { IfOk result (λ t. string_bytes t ≡ field_text base octet) }
{
    if octet == 255 {
        return String::from_str(alloc, "*");
    }
    let number = u32::from(base) + u32::from(octet);
    format!(in alloc; "{number}")
}

/// The four fields of a date or a time with separators.
pub(crate) fn fields_text(
    alloc: Global,
    base: u16,
    separators: [u8; 3],
    fields: [u8; 4],
) -> Result<Vec<u8>, AllocError>
    ensures text { IfOk result (λ t. t.items ≡ fields_text base separators fields) }
    ensures len { length fields ≡ 4 }
    ensures each { IsBytes fields }
{
    let mut text = field_text(alloc, base, fields[0])?.into_bytes();
    text.push(separators[0])?;
    text.extend_from_slice(field_text(alloc, 0, fields[1])?.as_bytes())?;
    text.push(separators[1])?;
    text.extend_from_slice(field_text(alloc, 0, fields[2])?.as_bytes())?;
    text.push(separators[2])?;
    text.extend_from_slice(field_text(alloc, 0, fields[3])?.as_bytes())?;
    Ok(text)
}

/// The name of an object type, or its number if the standard has no name for it.
fn type_text(alloc: Global, kind: u16) -> Result<String, AllocError>
    ensures { IfOk result (λ t. string_bytes t ≡ type_text kind) }
{
    match object_type_name(u32::from(kind)) {
        Some(name) => String::from_str(alloc, name),
        None => format!(in alloc; "{kind}"),
    }
}

/// A property by its name in the standard, for example `present-value`, or by its number if it has no name.
pub fn property_text(alloc: Global, property: u32) -> Result<String, AllocError>
    ensures { IfOk result (λ t. string_bytes t ≡ property_text property) }
{
    match property_name(property) {
        Some(name) => String::from_str(alloc, name),
        None => format!(in alloc; "{property}"),
    }
}

/// An object by its type (by name if the standard has one) and its instance, for example `analog-input:5`.
pub fn object_text(alloc: Global, object: ObjectIdentifier) -> Result<Vec<u8>, AllocError>
    ensures { IfOk result (λ t. t.items ≡ object_text (object_identifier_view object)) }
{
    let kind = type_text(alloc, object.kind)?;
    let instance = object.instance;
    let text = format!(in alloc; "{kind}:{instance}")?;
    Ok(text.into_bytes())
}
