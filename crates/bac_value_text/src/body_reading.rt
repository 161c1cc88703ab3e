//! Reading the part of a value after the name of its kind.
ghost use Rattle.std.specs.Prelude.{◌≡◌, IfOk, drop};
ghost use Rattle.std.specs.Option.{option_map, option_or};
ghost use Rattle.std.specs.List.{list_all};
ghost use Rattle.bac_value_text.specs.Names.{number_in};
ghost use Rattle.bac_value.specs.Views.{object_identifier_view, value_view};
ghost use Rattle.bac_value_text.specs.Numbers.{is_infinity, number_of};
ghost use Rattle.bac_value_text.specs.Reading.{boolean_in, real_in, double_in, field_from, field_in, fields_in, type_of, property_of, object_of};
ghost use Rattle.bac_value_text.specs.Reading.{octets_fit, characters_fit, characters_in, is_bit, bit_in, octet_in, octets_for, bits_fitting, bits_in, Reads};

use crate::numbers::{at_most, number_in, number_up_to, octets_in, parts_at};
use crate::value_fault::ValueFault;
use crate::{object_type_named, property_named};
use bac_value::{BitString, CharacterString, ObjectIdentifier, OctetString, Value};
use std::alloc::{AllocError, Global};

pub(crate) fn boolean_in(body: &[u8]) -> Option<bool>
    ensures { result ≡ boolean_in body.now }
{
    if body == b"true".as_slice() {
        Some(true)
    } else if body == b"false".as_slice() {
        Some(false)
    } else {
        None
    }
}

/// Whether it is the word of an infinity.
fn is_infinity(body: &[u8]) -> bool
    ensures { result ≡ is_infinity body.now }
{
    body == b"inf".as_slice() || body == b"-inf".as_slice()
}

/// The octets of a number in decimal digits, or of an infinity by its word. None if the number is beyond what a Real holds.
pub(crate) fn real_in(body: &[u8]) -> Option<[u8; 4]>
    ensures { result ≡ real_in body.now }
{
    let number: f32 = fast_float::parse(body).ok()?;
    if number.is_nan() || !(number.is_finite() || is_infinity(body)) {
        None
    } else {
        Some(number.to_be_bytes())
    }
}

/// The same of a Double.
pub(crate) fn double_in(body: &[u8]) -> Option<[u8; 8]>
    ensures { result ≡ double_in body.now }
{
    let number: f64 = fast_float::parse(body).ok()?;
    if number.is_nan() || !(number.is_finite() || is_infinity(body)) {
        None
    } else {
        Some(number.to_be_bytes())
    }
}

fn field_from(base: u64, number: u64) -> Option<u8>
    ensures { result ≡ field_from base number }
{
    if base <= number && number - base < 255 {
        Some((number - base) as u8)
    } else {
        None
    }
}

/// A field of a date or a time, which counts from a number on.
fn field_in(base: u64, word: &[u8]) -> Option<u8>
    ensures { result ≡ field_in base word.now }
{
    if word == b"*".as_slice() {
        return Some(255);
    }
    field_from(base, number_in(word)?)
}

/// The four fields of a date or a time.
#[tactic(auto, unfolding(crate::specs::Reading::fields_in))]
pub(crate) fn fields_in(base: u64, separators: [u8; 3], word: &[u8]) -> Option<[u8; 4]>
    ensures { result ≡ fields_in base separators word.now }
{
    let (first, rest) = parts_at(separators[0], word)?;
    let (second, rest) = parts_at(separators[1], rest)?;
    let (third, last) = parts_at(separators[2], rest)?;
    Some([
        field_in(base, first)?,
        field_in(0, second)?,
        field_in(0, third)?,
        field_in(0, last)?,
    ])
}

/// The number that a word is, or otherwise the number that it is a name of.
fn number_or(word: &[u8], named: Option<u32>) -> Option<u64>
    ensures { result ≡ option_or (number_of word.now) named }
{
    match number_in(word) {
        Some(number) => Some(number),
        None => Some(u64::from(named?)),
    }
}

/// Reads an object type: its number or its name.
fn type_in(word: &[u8]) -> Option<u16>
    ensures { result ≡ type_of word.now }
{
    let number = at_most(1023, number_or(word, object_type_named(word))?)?;
    Some(number as u16)
}

/// Reads a property: its number (32 bits) or its name in the standard, for example `present-value`. Returns None for all other words.
pub fn property_in(word: &[u8]) -> Option<u32>
    ensures { result ≡ property_of word.now }
{
    let number = at_most(u64::from(u32::MAX), number_or(word, property_named(word))?)?;
    Some(number as u32)
}

/// Reads an object: its type (0 to 1,023, or its name in the standard), a colon, and its instance (0 to 4,194,303), for example
/// `analog-input:5`. Returns None for all other words.
#[tactic(auto, unfolding(crate::specs::Reading::object_of))]
pub fn object_in(word: &[u8]) -> Option<ObjectIdentifier>
    ensures { option_map object_identifier_view result ≡ object_of word.now }
{
    let halves = parts_at(b':', word)?;
    let kind = type_in(halves.0)?;
    let instance = number_up_to(4_194_303, halves.1)?;
    Some(ObjectIdentifier {
        kind,
        instance: instance as u32,
    })
}

pub(crate) fn octets_fitting(octets: Vec<u8>) -> Result<Value, ValueFault>
    ensures { Reads value_view result (octets_fit octets.items) }
{
    match OctetString::new(octets) {
        Some(string) => Ok(Value::OctetString(string)),
        None => Err(ValueFault::NoValue),
    }
}

pub(crate) fn characters_fitting(set: u8, text: Vec<u8>) -> Result<Value, ValueFault>
    ensures { Reads value_view result (characters_fit set text.items) }
{
    match CharacterString::new(set, text) {
        Some(string) => Ok(Value::CharacterString(string)),
        None => Err(ValueFault::NoValue),
    }
}

/// Reads characters: their set and their octets.
#[tactic(auto, unfolding(crate::specs::Reading::characters_in))]
pub(crate) fn characters_in(alloc: Global, body: &[u8]) -> Result<Value, ValueFault>
    ensures { Reads value_view result (characters_in body.now) }
{
    let Some(halves) = parts_at(b':', body) else {
        return Err(ValueFault::NoValue);
    };
    let Some(set) = number_up_to(255, halves.0) else {
        return Err(ValueFault::NoValue);
    };
    let text = octets_in(alloc, halves.1)?;
    characters_fitting(set as u8, text)
}

fn are_bits(word: &[u8]) -> bool
    ensures { result ≡ list_all is_bit word.now }
{
    word.iter().all(|digit| *digit == b'0' || *digit == b'1')
}

fn bit_in(word: &[u8], i: usize) -> u8
    ensures { result ≡ bit_in word.now i }
{
    if i < word.len() && word[i] == b'1' {
        1
    } else {
        0
    }
}

/// The octet of the first eight bits.
fn octet_in(word: &[u8]) -> u8
    ensures { result ≡ octet_in word.now }
{
    let two = bit_in(word, 1) + 2 * bit_in(word, 0);
    let four = bit_in(word, 3) + 2 * (bit_in(word, 2) + 2 * two);
    let six = bit_in(word, 5) + 2 * (bit_in(word, 4) + 2 * four);
    bit_in(word, 7) + 2 * (bit_in(word, 6) + 2 * six)
}

/// The bits after the first eight.
fn behind_octet(word: &[u8]) -> &[u8]
    ensures { result.now ≡ drop 8 word.now }
{
    &word[word.len().min(8)..]
}

/// The octets of some bits.
fn octets_for(alloc: Global, word: &[u8]) -> Result<Vec<u8>, AllocError>
    ensures { IfOk result (λ v. v.items ≡ octets_for word.now) }
{
    let mut octets = Vec::new(alloc);
    let mut rest = word;
    while !rest.is_empty() {
        octets.push(octet_in(rest))?;
        rest = behind_octet(rest);
    }
    Ok(octets)
}

fn bits_fitting(unused: u8, octets: Vec<u8>) -> Result<Value, ValueFault>
    ensures { Reads value_view result (bits_fitting unused octets.items) }
{
    match BitString::new(unused, octets) {
        Some(string) => Ok(Value::BitString(string)),
        None => Err(ValueFault::NoValue),
    }
}

/// Reads bits as digits.
pub(crate) fn bits_in(alloc: Global, body: &[u8]) -> Result<Value, ValueFault>
    ensures { Reads value_view result (bits_in body.now) }
{
    if !are_bits(body) {
        return Err(ValueFault::NoValue);
    }
    let octets = octets_for(alloc, body)?;
    let unused = (8 - body.len() % 8) % 8;
    bits_fitting(unused as u8, octets)
}
