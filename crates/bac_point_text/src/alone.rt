//! Printing values alone, with no word for their kind.
ghost use Rattle.std.specs.Prelude.{◌≡◌, ◌++◌, codes, IfOk, OnOk};
ghost use Rattle.std.specs.Str.{is_utf8};
ghost use Rattle.hex.specs.Hex.{encode_upper};
ghost use Rattle.bac_value.specs.Views.{value_view};
ghost use Rattle.bac_value_text.specs.Texts.{bits_text, is_real_number, is_double_number, is_text};
ghost use Rattle.bac_point_text.specs.Alone.{bits_alone, behind_word, is_plain, line_octet, line_text, IsAlone, IsBehindWord, IsPlainOr, IsPlainText};
ghost use Rattle.bac_point_text.specs.Views.{maybe_names};

use crate::enumeration::Enumeration;
use crate::set_bits::{name_or_number, set_names};
use crate::utf8::is_utf8;
use bac_value::Value;
use bac_value_text::{Separator, parts_at, value_text};
use percent_encoding::percent_encode_byte;
use std::alloc::{AllocError, Global};

/// What stands behind the first colon of a text, or all of it.
fn behind_word(text: &[u8]) -> &[u8]
    ensures { result.now ≡ behind_word text.now }
{
    match parts_at(b':', text) {
        Some((_, body)) => body,
        None => text,
    }
}

/// The text of a value without the word for its kind.
#[tactic(auto, using(crate::proofs::Bodies::body_behind))]
fn body_of(alloc: Global, value: &Value) -> Result<Vec<u8>, AllocError>
    ensures { IfOk result (λ t. IsBehindWord (value_view value.now) t.items) }
{
    let text = value_text(alloc, Separator::Colon, value)?;
    Vec::from_slice(alloc, behind_word(&text))
}

/// Adds an octet of a text; a control character is escaped.
fn put_on_line(octet: u8, text: &mut Vec<u8>) -> Result<(), AllocError>
    ensures { OnOk result (text.new.items ≡ text.old.items ++ line_octet octet) }
{
    if octet < 32 || octet == 127 {
        text.extend_from_slice(percent_encode_byte(octet).as_bytes())?;
    } else {
        text.push(octet)?;
    }
    Ok(())
}

/// A text on one line: its control characters are escaped.
fn line_text(alloc: Global, octets: &[u8]) -> Result<Vec<u8>, AllocError>
    ensures { IfOk result (λ t. t.items ≡ line_text octets.now) }
{
    let mut text = Vec::new(alloc);
    for octet in octets {
        put_on_line(*octet, &mut text)?;
    }
    Ok(text)
}

/// The text of a value without the word for its kind; a text itself stands on one line.
fn plain_body(alloc: Global, value: &Value) -> Result<Vec<u8>, AllocError>
    ensures { IfOk result (λ t. IsPlainText (value_view value.now) t.items) }
{
    match value {
        Value::CharacterString(string) => line_text(alloc, &string.text),
        _ => body_of(alloc, value),
    }
}

/// Octets in hexadecimal behind `hex:`.
fn octets_text(alloc: Global, octets: &[u8]) -> Result<Vec<u8>, AllocError>
    ensures { IfOk result (λ t. t.items ≡ codes "hex:" ++ encode_upper octets.now) }
{
    let digits = hex::encode_upper(alloc, octets)?;
    let text = format!(in alloc; "hex:{digits}")?;
    Ok(text.into_bytes())
}

fn is_real_number(octets: [u8; 4]) -> bool
    ensures { result ≡ is_real_number octets }
{
    u32::from_be_bytes(octets) % 0x8000_0000 <= 0x7f80_0000
}

fn is_double_number(octets: [u8; 8]) -> bool
    ensures { result ≡ is_double_number octets }
{
    u64::from_be_bytes(octets) % 0x8000_0000_0000_0000 <= 0x7ff0_0000_0000_0000
}

/// Whether octets in a character set are text.
fn is_text(set: u8, text: &[u8]) -> bool
    ensures { result ≡ is_text set text.now }
{
    set == 0 && is_utf8(text)
}

/// Whether a value has a text without a word for its kind: not NaN, and no characters that are not UTF-8.
fn is_plain(value: &Value) -> bool
    ensures { result ≡ is_plain (value_view value.now) }
{
    match value {
        Value::Real(octets) => is_real_number(*octets),
        Value::Double(octets) => is_double_number(*octets),
        Value::CharacterString(string) => is_text(string.set, &string.text),
        _ => true,
    }
}

/// The text of a value without the word for its kind, or with it where there is none.
fn plain_text(alloc: Global, value: &Value) -> Result<Vec<u8>, AllocError>
    ensures { IfOk result (λ t. IsPlainOr (is_plain (value_view value.now)) (value_view value.now) t.items) }
{
    if is_plain(value) {
        plain_body(alloc, value)
    } else {
        value_text(alloc, Separator::Colon, value)
    }
}

/// Bits by their names, or a digit for each.
fn bits_alone(
    alloc: Global,
    names: Option<Enumeration>,
    digits: &[u8],
) -> Result<Vec<u8>, AllocError>
    ensures { IfOk result (λ t. t.items ≡ bits_alone (maybe_names names) digits.now) }
{
    match names {
        Some(names) => set_names(alloc, names, digits),
        None => Vec::from_slice(alloc, digits),
    }
}

/// The text of a value alone, as people write it: `72.3`, `true`, a text without quotes, `analog-input:1`, a date or a time, `null`.
///
/// With the names of its property an Enumerated value is printed by name, as `active`, and a bit string as the names of the bits that are set, as
/// `in-alarm,fault`, or `none`. Without names, and where a number has none, digits are printed. Octets stand in hexadecimal behind `hex:`.
/// Control characters of a text are escaped, a line feed as `%0A`; the percent sign is not. NaN, and characters that are not UTF-8, have the word
/// for their kind before them, as in [`value_text`]. An Err says that an allocation failed.
pub fn value_alone(
    alloc: Global,
    names: Option<Enumeration>,
    value: &Value,
) -> Result<Vec<u8>, AllocError>
    ensures { IfOk result (λ t. IsAlone (maybe_names names) (value_view value.now) t.items) }
{
    match value {
        Value::Enumerated(number) => Ok(name_or_number(alloc, names, *number)?.into_bytes()),
        Value::OctetString(string) => octets_text(alloc, &string.octets),
        Value::BitString(_) => bits_alone(alloc, names, &body_of(alloc, value)?),
        _ => plain_text(alloc, value),
    }
}
