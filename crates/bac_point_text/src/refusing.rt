//! Why a text is no value of a kind.
ghost use Rattle.std.specs.Prelude.{◌≡◌};
ghost use Rattle.std.specs.Char.{is_ascii_digit};
ghost use Rattle.std.specs.Float.{binary32, binary64};
ghost use Rattle.std.specs.List.{list_all};
ghost use Rattle.fast_float.specs.Parse.{parse_float};
ghost use Rattle.bac_value_text.specs.Numbers.{is_minus};
ghost use Rattle.bac_point_text.specs.Faults.{are_digits, is_below_zero, unsigned_fault, signed_fault, enumerated_fault, float_fault, text_fault, fault_of};

use crate::kind::Kind;
use crate::utf8::is_utf8;
use crate::written_fault::WrittenFault;

fn has_only_digits(text: &[u8]) -> bool
    ensures { result ≡ list_all is_ascii_digit text.now }
{
    text.iter().all(|digit| digit.is_ascii_digit())
}

/// Whether a text consists of decimal digits, at least one.
fn are_digits(text: &[u8]) -> bool
    ensures { result ≡ are_digits text.now }
{
    !text.is_empty() && has_only_digits(text)
}

fn is_minus(text: &[u8]) -> bool
    ensures { result ≡ is_minus text.now }
{
    match text {
        [first, ..] => *first == b'-',
        _ => false,
    }
}

/// Whether a text consists of a minus and decimal digits.
fn is_below_zero(text: &[u8]) -> bool
    ensures { result ≡ is_below_zero text.now }
{
    is_minus(text) && are_digits(&text[1..])
}

fn unsigned_fault(text: &[u8]) -> WrittenFault
    ensures { result ≡ unsigned_fault text.now }
{
    if are_digits(text) {
        WrittenFault::OutOfRange
    } else if is_below_zero(text) {
        WrittenFault::Negative
    } else {
        WrittenFault::NoNumber
    }
}

fn signed_fault(text: &[u8]) -> WrittenFault
    ensures { result ≡ signed_fault text.now }
{
    if are_digits(text) || is_below_zero(text) {
        WrittenFault::OutOfRange
    } else {
        WrittenFault::NoNumber
    }
}

fn enumerated_fault(has_names: bool, text: &[u8]) -> WrittenFault
    ensures { result ≡ enumerated_fault has_names text.now }
{
    if are_digits(text) {
        WrittenFault::OutOfRange
    } else if is_below_zero(text) {
        WrittenFault::Negative
    } else if has_names {
        WrittenFault::UnknownName { nearest: None }
    } else {
        WrittenFault::NoNumber
    }
}

fn real_fault(text: &[u8]) -> WrittenFault
    ensures { result ≡ float_fault (parse_float binary32 text.now) }
{
    match fast_float::parse::<f32, _>(text) {
        Ok(_) => WrittenFault::NotFinite,
        Err(_) => WrittenFault::NoNumber,
    }
}

fn double_fault(text: &[u8]) -> WrittenFault
    ensures { result ≡ float_fault (parse_float binary64 text.now) }
{
    match fast_float::parse::<f64, _>(text) {
        Ok(_) => WrittenFault::NotFinite,
        Err(_) => WrittenFault::NoNumber,
    }
}

fn text_fault(text: &[u8]) -> WrittenFault
    ensures { result ≡ text_fault text.now }
{
    if is_utf8(text) {
        WrittenFault::TooLong
    } else {
        WrittenFault::NotUtf8
    }
}

/// Why a text is no value of a kind; `has_names` says whether its numbers have names.
pub(crate) fn fault_of(kind: Kind, has_names: bool, text: &[u8]) -> WrittenFault
    ensures { result ≡ fault_of kind has_names text.now }
{
    match kind {
        Kind::Null => WrittenFault::NoNull,
        Kind::Boolean => WrittenFault::NoBoolean,
        Kind::Unsigned => unsigned_fault(text),
        Kind::Signed => signed_fault(text),
        Kind::Real => real_fault(text),
        Kind::Double => double_fault(text),
        Kind::OctetString => WrittenFault::NoOctets,
        Kind::CharacterString => text_fault(text),
        Kind::BitString => WrittenFault::NoBits,
        Kind::Enumerated => enumerated_fault(has_names, text),
        Kind::Date => WrittenFault::NoDate,
        Kind::Time => WrittenFault::NoTime,
        Kind::ObjectIdentifier => WrittenFault::NoObject,
    }
}
