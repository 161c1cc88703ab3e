//! Reading values as people write them, given their kind.
ghost use Rattle.std.specs.Prelude.{◌≡◌, ◌++◌, is_some};
ghost use Rattle.std.specs.Option.{option_map};
ghost use Rattle.bac_value.specs.Views.{value_view};
ghost use Rattle.bac_value_text.specs.Reading.{Reads, characters_fit};
ghost use Rattle.bac_value.specs.Value as datum;
ghost use Rattle.bac_point_text.specs.Faults.{fault_of};
ghost use Rattle.bac_point_text.specs.Views.{maybe_names};
ghost use Rattle.bac_point_text.specs.Written.{kind_word, worded, is_finite, if_finite, finite, date_of, time_of, text_of, octets_of, number_among, enumerated_of, of_kind, null_or, written, IsWritten};
ghost use Rattle.bac_point_text.specs.declared.written_fault.WrittenFault.TheVariants as fault;

use crate::enumeration::Enumeration;
use crate::kind::Kind;
use crate::nearest::nearest;
use crate::refusing::fault_of;
use crate::utf8::is_utf8;
use crate::written_fault::WrittenFault;
use bac_value::{CharacterString, Value};
use bac_value_text::{Separator, ValueFault, number_up_to, parts_at, read_value};
use std::alloc::Global;

/// The word for a kind in front of a value that is read with its kind.
fn kind_word(kind: Kind) -> &'static str
    ensures { result.now ≡ kind_word kind }
{
    match kind {
        Kind::Null => "null:",
        Kind::Boolean => "boolean:",
        Kind::Unsigned => "unsigned:",
        Kind::Signed => "signed:",
        Kind::Real => "real:",
        Kind::Double => "double:",
        Kind::OctetString => "octets:",
        Kind::CharacterString => "text:",
        Kind::BitString => "bits:",
        Kind::Enumerated => "enumerated:",
        Kind::Date => "date:",
        Kind::Time => "time:",
        Kind::ObjectIdentifier => "object:",
    }
}

/// Reads a value behind the word for its kind.
fn worded(alloc: Global, kind: Kind, text: &[u8]) -> Result<Value, ValueFault>
    ensures { Reads value_view result (worded kind text.now) }
{
    let mut whole = Vec::from_slice(alloc, kind_word(kind).as_bytes())?;
    whole.extend_from_slice(text)?;
    read_value(alloc, Separator::Colon, &whole)
}

/// Whether a value is no infinite number, and not NaN.
fn is_finite(value: &Value) -> bool
    ensures { result ≡ is_finite (value_view value.now) }
{
    match value {
        Value::Real(octets) => u32::from_be_bytes(*octets) % 0x8000_0000 < 0x7f80_0000,
        Value::Double(octets) => {
            u64::from_be_bytes(*octets) % 0x8000_0000_0000_0000 < 0x7ff0_0000_0000_0000
        }
        _ => true,
    }
}

/// A value that is finite.
fn if_finite(value: Value) -> Result<Value, ValueFault>
    ensures { Reads value_view result (if_finite (value_view value)) }
{
    if is_finite(&value) {
        Ok(value)
    } else {
        Err(ValueFault::NoValue)
    }
}

/// Reads a number that is finite.
fn finite(alloc: Global, kind: Kind, text: &[u8]) -> Result<Value, ValueFault>
    ensures { Reads value_view result (finite kind text.now) }
{
    if_finite(worded(alloc, kind, text)?)
}

/// Reads a value behind whose text that end stands too.
fn ended(alloc: Global, kind: Kind, text: &[u8], end: &[u8]) -> Result<Value, ValueFault>
    ensures { Reads value_view result (worded kind (text.now ++ end.now)) }
{
    let mut whole = Vec::from_slice(alloc, text)?;
    whole.extend_from_slice(end)?;
    worded(alloc, kind, &whole)
}

/// Reads a date. Without a day of the week any is meant.
fn date_of(alloc: Global, text: &[u8]) -> Result<Value, ValueFault>
    ensures { Reads value_view result (date_of text.now) }
{
    match worded(alloc, Kind::Date, text) {
        Ok(value) => Ok(value),
        Err(ValueFault::NoMemory) => Err(ValueFault::NoMemory),
        Err(ValueFault::NoValue) => ended(alloc, Kind::Date, text, b"-*"),
    }
}

/// Reads a time whose hundredths, or seconds too, may be left out: they are 0 then.
fn time_of(alloc: Global, text: &[u8]) -> Result<Value, ValueFault>
    ensures { Reads value_view result (time_of text.now) }
{
    match worded(alloc, Kind::Time, text) {
        Ok(value) => Ok(value),
        Err(ValueFault::NoMemory) => Err(ValueFault::NoMemory),
        Err(ValueFault::NoValue) => match ended(alloc, Kind::Time, text, b".0") {
            Ok(value) => Ok(value),
            Err(ValueFault::NoMemory) => Err(ValueFault::NoMemory),
            Err(ValueFault::NoValue) => ended(alloc, Kind::Time, text, b":0.0"),
        },
    }
}

fn characters(text: Vec<u8>) -> Result<Value, ValueFault>
    ensures { Reads value_view result (characters_fit 0 text.items) }
{
    match CharacterString::new(0, text) {
        Some(string) => Ok(Value::CharacterString(string)),
        None => Err(ValueFault::NoValue),
    }
}

/// Reads a text as it is.
fn text_of(alloc: Global, text: &[u8]) -> Result<Value, ValueFault>
    ensures { Reads value_view result (text_of text.now) }
{
    if is_utf8(text) {
        characters(Vec::from_slice(alloc, text)?)
    } else {
        Err(ValueFault::NoValue)
    }
}

/// Reads octets behind `hex:`.
fn octets_of(alloc: Global, text: &[u8]) -> Result<Value, ValueFault>
    ensures { Reads value_view result (octets_of text.now) }
{
    match parts_at(b':', text) {
        Some((word, digits)) if word == b"hex".as_slice() => {
            worded(alloc, Kind::OctetString, digits)
        }
        _ => Err(ValueFault::NoValue),
    }
}

/// The number of a name, where there are names.
fn number_among(names: Option<Enumeration>, text: &[u8]) -> Option<u32>
    ensures { result ≡ number_among (maybe_names names) text.now }
{
    names?.number_of(text)
}

/// The number that a text is a name of, or otherwise that it is.
fn enumerated_of(names: Option<Enumeration>, text: &[u8]) -> Option<u32>
    ensures { result ≡ enumerated_of (maybe_names names) text.now }
{
    match number_among(names, text) {
        Some(number) => Some(number),
        None => Some(number_up_to(u64::from(u32::MAX), text)? as u32),
    }
}

fn enumerated(names: Option<Enumeration>, text: &[u8]) -> Result<Value, ValueFault>
    ensures { Reads value_view result (option_map datum.enumerated (enumerated_of (maybe_names names) text.now)) }
{
    match enumerated_of(names, text) {
        Some(number) => Ok(Value::Enumerated(number)),
        None => Err(ValueFault::NoValue),
    }
}

/// Reads a value of a kind.
fn of_kind(
    alloc: Global,
    kind: Kind,
    names: Option<Enumeration>,
    text: &[u8],
) -> Result<Value, ValueFault>
    ensures { Reads value_view result (of_kind kind (maybe_names names) text.now) }
{
    match kind {
        Kind::Real | Kind::Double => finite(alloc, kind, text),
        Kind::CharacterString => text_of(alloc, text),
        Kind::OctetString => octets_of(alloc, text),
        Kind::Enumerated => enumerated(names, text),
        Kind::Date => date_of(alloc, text),
        Kind::Time => time_of(alloc, text),
        _ => worded(alloc, kind, text),
    }
}

/// An unknown name, and the one that is like it.
fn unknown_name(alloc: Global, names: Enumeration, text: &[u8]) -> WrittenFault
    ensures { IsWritten (Err result) (Err (fault.UnknownName None)) }
{
    match nearest(alloc, names, text) {
        Ok(nearest) => WrittenFault::UnknownName { nearest },
        Err(_) => WrittenFault::NoMemory,
    }
}

/// Why a text is no value of a kind: for an unknown name with the one that is like it.
#[tactic(auto, using(crate::proofs::OwnFaults::own))]
fn whole_fault(alloc: Global, kind: Kind, names: Option<Enumeration>, text: &[u8]) -> WrittenFault
    ensures { IsWritten (Err result) (Err (fault_of kind (is_some names) text.now)) }
{
    let fault = fault_of(kind, names.is_some(), text);
    match (fault, names) {
        (WrittenFault::UnknownName { .. }, Some(names)) => unknown_name(alloc, names, text),
        _ => fault,
    }
}

/// Null where the text is `null`, otherwise why it is no value of the kind.
fn null_or_fault(
    alloc: Global,
    kind: Kind,
    names: Option<Enumeration>,
    text: &[u8],
) -> Result<Value, WrittenFault>
    ensures { IsWritten result (null_or (fault_of kind (is_some names) text.now) text.now) }
{
    if text == b"null".as_slice() {
        Ok(Value::Null)
    } else {
        Err(whole_fault(alloc, kind, names, text))
    }
}

/// Reads a value as people write it, of the kind that it has to have, or `null`, which is read where the text is no value of that kind.
///
/// A number is written in decimal digits, of which a Real or a Double may have some behind a point, and an exponent: `21.5`, `-3`, `1e3`. It is the
/// nearest one of the kind. An Enumerated value is a name of the enumeration `names`, as `active`, or a number; a Boolean is `true` or `false`.
/// A text is taken as it is, `null` too. Octets are written as `hex:4D5A`, bits as digits, dates, times and object identifiers as
/// [`value_alone`](crate::value_alone) prints them. A date may end behind its day, `2026-12-24`: any day of the week is meant. A time may end behind
/// its minutes or seconds, `8:15`: the rest is 0.
///
/// Refused are, by [`WrittenFault`]: what is no number, number below 0 where the kind has none, number out of range, infinite or NaN, unknown
/// name, text that is not UTF-8, and all that is not a value of the kind. `NoMemory` says that an allocation failed.
pub fn value_as_written(
    alloc: Global,
    kind: Kind,
    names: Option<Enumeration>,
    text: &[u8],
) -> Result<Value, WrittenFault>
    ensures { IsWritten result (written kind (maybe_names names) text.now) }
{
    match of_kind(alloc, kind, names, text) {
        Ok(value) => Ok(value),
        Err(ValueFault::NoMemory) => Err(WrittenFault::NoMemory),
        Err(ValueFault::NoValue) => null_or_fault(alloc, kind, names, text),
    }
}
