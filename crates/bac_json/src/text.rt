//! Printed texts, and octets, as JSON.
ghost use Rattle.std.specs.Prelude.{◌≡◌, IfOk};
ghost use Rattle.std.specs.Option.{option_map};
ghost use Rattle.bac_json.specs.Forms.{number_form, object_form, octets_form, optional_number, property_form, read_or_text, text_form, utf8_of};
ghost use Rattle.bac_value.specs.Views.{object_identifier_view};
ghost use Rattle.serde_json.specs.Read.{read};
ghost use Rattle.serde_json.specs.View.{view};

use bac_value::ObjectIdentifier;
use bac_value_text::{object_text, property_text};
use serde_json::Value as Json;
use std::alloc::{AllocError, Global};
use std::str;

/// The text that octets are; None where they are no UTF-8.
#[tactic(auto, using(crate::proofs::Utf8::text_is, crate::proofs::Utf8::text_is_not))]
pub(crate) fn text_of(octets: &[u8]) -> Option<&str>
    ensures { option_map (λ s. s.now) result ≡ utf8_of octets.now }
{
    match str::from_utf8(octets) {
        Ok(text) => Some(text),
        Err(_) => None,
    }
}

/// A text as a JSON string; Null where the octets are no UTF-8. An Err is out of memory.
pub fn text_json(alloc: Global, text: &[u8]) -> Result<Json, AllocError>
    ensures { IfOk result (λ v. view v ≡ text_form text.now) }
{
    match text_of(text) {
        Some(text) => Json::try_from_str(alloc, text),
        None => Ok(Json::Null),
    }
}

/// Octets as a JSON string, in hexadecimal. An Err is out of memory.
pub fn octets_json(alloc: Global, octets: &[u8]) -> Result<Json, AllocError>
    ensures { IfOk result (λ v. view v ≡ octets_form octets.now) }
{
    let text = hex::encode_upper(alloc, octets)?;
    Ok(Json::String(text))
}

/// What JSON reads in a text; None where that is nothing.
#[tactic(auto, using(crate::proofs::Utf8::is_refused))]
fn read_json(alloc: Global, text: &str) -> Result<Option<Json>, AllocError>
    ensures { IfOk result (λ o. option_map view o ≡ read text.now) }
{
    match Json::from_str(alloc, text) {
        Ok(json) => Ok(Some(json)),
        Err(error) => {
            if error.is_memory() {
                Err(AllocError)
            } else {
                Ok(None)
            }
        }
    }
}

/// What JSON reads in a text, or the text itself where that is nothing.
fn read_or_text(alloc: Global, text: &str) -> Result<Json, AllocError>
    ensures { IfOk result (λ v. view v ≡ read_or_text text.now (read text.now)) }
{
    match read_json(alloc, text)? {
        Some(json) => Ok(json),
        None => Json::try_from_str(alloc, text),
    }
}

/// The text of a number as a JSON number; as a string where JSON has no such number, as `inf`. An Err is out of memory.
pub(crate) fn number_json(alloc: Global, text: &[u8]) -> Result<Json, AllocError>
    ensures { IfOk result (λ v. view v ≡ number_form text.now) }
{
    match text_of(text) {
        Some(text) => read_or_text(alloc, text),
        None => Ok(Json::Null),
    }
}

/// A number; Null where there is none.
pub fn optional_json(number: Option<u32>) -> Json
    ensures { view result ≡ optional_number number }
{
    match number {
        Some(number) => Json::from(number),
        None => Json::Null,
    }
}

/// An object by its type and its instance, as `analog-input:5`. An Err is out of memory.
pub fn object_json(alloc: Global, object: ObjectIdentifier) -> Result<Json, AllocError>
    ensures { IfOk result (λ v. view v ≡ object_form (object_identifier_view object)) }
{
    let text = object_text(alloc, object)?;
    text_json(alloc, &text)
}

/// A property by its name, or by its number where the standard has no name for it. An Err is out of memory.
pub fn property_json(alloc: Global, property: u32) -> Result<Json, AllocError>
    ensures { IfOk result (λ v. view v ≡ property_form property) }
{
    let text = property_text(alloc, property)?;
    Ok(Json::String(text))
}
