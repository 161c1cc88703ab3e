//! The application value of an element.
ghost use Rattle.std.specs.Prelude.{◌≡◌, ◌<◌, ◌≤◌, ◌+◌, ◌∷◌, ◌^◌, ◌≢◌, length, slice_index, drop, IsTrue, None, IfOk, OnErr, MatchOption};
ghost use Rattle.bac_value.specs.Element.{IsOfKind};
ghost use Rattle.bac_value.specs.Meaning.{IsValueOf, copied, datum_in};
ghost use Rattle.bac_value.specs.Reading.{length_in, flaw};
ghost use Rattle.bac_value.specs.Value.{Datum, kind_number, IsContents};
ghost use Rattle.bac_value.specs.Views.{value_view, element_view};

use crate::contents::{flaw_in, is_length_in};
use crate::element::Element;
use crate::kinds;
use crate::memory::NoMemory;
use crate::number_reading::{number_of, object_of, signed_of};
use crate::octets::{Octets, copy_of, copy_to};
use crate::tag::{Class, Form};
use crate::value::{BitString, CharacterString, OctetString, Value};
use std::alloc::Global;

/// Copies the octets to an array.
fn array_of<O: Octets, const N: usize>(octets: O) -> [u8; N]
    requires { length (O.octets octets) ≡ N }
    ensures { result ≡ O.octets octets }
{
    let mut array = [0u8; N];
    copy_to(octets, &mut array);
    array
}

fn octet_string<O: Octets>(alloc: Global, contents: O) -> Result<Value, NoMemory>
    requires { length (O.octets contents) < 2 ^ 32 }
    ensures value { IfOk result (λ v. value_view v ≡ datum_in 6 (O.octets contents)) }
    ensures full { OnErr result (0 < length (copied (datum_in 6 (O.octets contents)))) }
{
    let octets = copy_of(alloc, contents)?;
    Ok(Value::OctetString(OctetString { octets }))
}

fn character_string<O: Octets>(alloc: Global, contents: O) -> Result<Value, NoMemory>
    requires some { 0 < length (O.octets contents) }
    requires fits { length (O.octets contents) < 2 ^ 32 }
    ensures value { IfOk result (λ v. value_view v ≡ datum_in 7 (O.octets contents)) }
    ensures full { OnErr result (0 < length (copied (datum_in 7 (O.octets contents)))) }
{
    let Some((set, text)) = contents.first() else {
        unreachable!()
    };
    let text = copy_of(alloc, text)?;
    Ok(Value::CharacterString(CharacterString { set, text }))
}

fn bit_string<O: Octets>(alloc: Global, contents: O) -> Result<Value, NoMemory>
    requires some { 0 < length (O.octets contents) }
    requires fits { length (O.octets contents) < 2 ^ 32 }
    requires right { flaw 8 (O.octets contents) ≡ None }
    ensures value { IfOk result (λ v. value_view v ≡ datum_in 8 (O.octets contents)) }
    ensures full { OnErr result (0 < length (copied (datum_in 8 (O.octets contents)))) }
{
    let Some((unused, octets)) = contents.first() else {
        unreachable!()
    };
    let octets = copy_of(alloc, octets)?;
    Ok(Value::BitString(BitString { unused, octets }))
}

/// The value with these contents, which are correct for the kind.
fn value_of_kind<O: Octets>(alloc: Global, kind: u8, contents: O) -> Result<Value, NoMemory>
    requires kind { kind < 13 }
    requires no_boolean { kind ≢ 1 }
    requires fits { length (O.octets contents) < 2 ^ 32 }
    requires sized { IsTrue (length_in kind (length (O.octets contents))) }
    requires right { flaw kind (O.octets contents) ≡ None }
    ensures value { IfOk result (λ v. value_view v ≡ datum_in kind (O.octets contents)) }
    ensures full { OnErr result (0 < length (copied (datum_in kind (O.octets contents)))) }
{
    match kind {
        kinds::NULL => Ok(Value::Null),
        kinds::UNSIGNED => Ok(Value::Unsigned(number_of(contents))),
        kinds::SIGNED => Ok(Value::Signed(signed_of(contents))),
        kinds::REAL => Ok(Value::Real(array_of(contents))),
        kinds::DOUBLE => Ok(Value::Double(array_of(contents))),
        kinds::OCTET_STRING => octet_string(alloc, contents),
        kinds::CHARACTER_STRING => character_string(alloc, contents),
        kinds::BIT_STRING => bit_string(alloc, contents),
        kinds::ENUMERATED => Ok(Value::Enumerated(number_of(contents) as u32)),
        kinds::DATE => Ok(Value::Date(array_of(contents))),
        kinds::TIME => Ok(Value::Time(array_of(contents))),
        _ => Ok(Value::ObjectIdentifier(object_of(contents))),
    }
}

/// The application value of an element; None exactly if it has none.
///
/// An element that was read has a value exactly if its tag is of the application class. Returns `NoMemory` if the allocation for
/// a string fails.
pub fn value_of<O: Octets>(alloc: Global, element: Element<O>) -> Result<Option<Value>, NoMemory>
    ensures value { IfOk result (λ o. MatchOption o ((d : Datum) → IsValueOf d (element_view O.octets element) → ⊥)
        (λ v. IsValueOf (value_view v) (element_view O.octets element))) }
    ensures full { OnErr result ((d : Datum) × IsValueOf d (element_view O.octets element) × (0 < length (copied d))) }
{
    let len = element.contents.len();
    match (element.tag.class, element.tag.form) {
        (Class::Application, Form::Boolean(value)) if len == 0 => Ok(Some(Value::Boolean(value))),
        (Class::Application, Form::Length(length)) if len == length as usize => {
            let kind = element.tag.number;
            if !is_length_in(kind, len) || flaw_in(element.contents, kind).is_some() {
                return Ok(None);
            }
            Ok(Some(value_of_kind(alloc, kind, element.contents)?))
        }
        _ => Ok(None),
    }
}
