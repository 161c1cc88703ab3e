//! Values, each with its kind.
ghost use Rattle.std.specs.Prelude.{◌≡◌, ◌++◌, IfOk};
ghost use Rattle.std.specs.Option.{option_map};
ghost use Rattle.bac_json.specs.Values.{AreElementForms, IsElementForm, characters_form, kind_and_body, member_or_null, named_form, plain_text, sole_member, tagged_form};
ghost use Rattle.bac_json.specs.Values.{value_form};
ghost use Rattle.bac_value.specs.Views.{element_view, value_view};
ghost use Rattle.serde_json.specs.Data.{null};
ghost use Rattle.serde_json.specs.Find.{get};
ghost use Rattle.serde_json.specs.View.{items_view, view};

use crate::members::Members;
use crate::text::{number_json, octets_json, text_json, text_of};
use bac_value::{CharacterString, Data, Element, Form, NoMemory, Value, value_of};
use bac_value_text::{Separator, parts_at, value_text};
use serde_json::Value as Json;
use std::alloc::{AllocError, Global};

/// The characters of a string that is text: of set 0, and UTF-8.
fn plain_text(string: &CharacterString) -> Option<&str>
    ensures { option_map (λ s. s.now) result ≡ plain_text string.now.set string.now.text.items }
{
    if string.set == 0 {
        text_of(&string.text)
    } else {
        None
    }
}

/// The characters of a string as they are where they are text; otherwise their set and their octets, as they are printed.
fn characters_json(alloc: Global, string: &CharacterString, body: &[u8]) -> Result<Json, AllocError>
    ensures { IfOk result (λ v. view v ≡ characters_form string.now.set string.now.text.items body.now) }
{
    match plain_text(string) {
        Some(text) => Json::try_from_str(alloc, text),
        None => text_json(alloc, body),
    }
}

/// A value without its kind: a number, a boolean and Null as such, all else as text.
fn value_json(alloc: Global, value: &Value, body: &[u8]) -> Result<Json, AllocError>
    ensures { IfOk result (λ v. view v ≡ value_form (value_view value.now) body.now) }
{
    match value {
        Value::Null => Ok(Json::Null),
        Value::Boolean(truth) => Ok(Json::from(*truth)),
        Value::Unsigned(number) => Ok(Json::from(*number)),
        Value::Signed(number) => Ok(Json::from(*number)),
        Value::Enumerated(number) => Ok(Json::from(*number)),
        Value::Real(_) | Value::Double(_) => number_json(alloc, body),
        Value::CharacterString(string) => characters_json(alloc, string, body),
        _ => text_json(alloc, body),
    }
}

/// The name of a kind, and what is printed behind it and a space; of a text without a space twice the text.
fn kind_and_body(text: &[u8]) -> (&[u8], &[u8])
    ensures { (result.0.now, result.1.now) ≡ kind_and_body text.now }
{
    match parts_at(b' ', text) {
        Some(parts) => parts,
        None => (text, text),
    }
}

/// A value under its kind, from the text that is printed of it.
fn named_json(alloc: Global, value: &Value, text: &[u8]) -> Result<Json, AllocError>
    ensures { IfOk result (λ v. view v ≡ named_form (value_view value.now) text.now) }
{
    let (kind, body) = kind_and_body(text);
    let kind = text_json(alloc, kind)?;
    let value = value_json(alloc, value, body)?;
    Members::new(alloc)
        .json("kind", kind)
        .json("value", value)
        .end()
}

/// An element with a context tag.
fn tagged_json(alloc: Global, element: Element<&[u8]>) -> Result<Json, AllocError>
    ensures { IfOk result (λ v. view v ≡ tagged_form element.entry.tag.form element.entry.tag.number element.entry.contents.now) }
{
    let tag = element.tag.number;
    match element.tag.form {
        Form::Opening => Members::new(alloc)
            .text("kind", "opening")
            .number("tag", u64::from(tag))
            .end(),
        Form::Closing => Members::new(alloc)
            .text("kind", "closing")
            .number("tag", u64::from(tag))
            .end(),
        Form::Length(_) | Form::Boolean(_) => {
            let octets = octets_json(alloc, element.contents)?;
            Members::new(alloc)
                .text("kind", "context")
                .json("octets", octets)
                .number("tag", u64::from(tag))
                .end()
        }
    }
}

fn element_json(alloc: Global, element: Element<&[u8]>) -> Result<Json, NoMemory>
    ensures { IfOk result (λ v. IsElementForm (element_view (λ s. s.now) element.entry) (view v)) }
{
    match value_of(alloc, element)? {
        Some(value) => {
            let text = value_text(alloc, Separator::Space, &value)?;
            Ok(named_json(alloc, &value, &text)?)
        }
        None => Ok(tagged_json(alloc, element)?),
    }
}

/// Data as an array: of each value its kind and the value, of an element with a context tag its number and its octets. An Err is out
/// of memory.
pub fn data_json(alloc: Global, values: Data<'_>) -> Result<Vec<Json>, NoMemory>
    ensures { IfOk result (λ vs. AreElementForms (items_view vs.items) values.entry.octets.now) }
{
    let mut elements = Vec::new(alloc);
    let mut rest = values.elements();
    while let Some((element, more)) = rest.split_first() {
        elements.push(element_json(alloc, element)?)?;
        rest = more;
    }
    Ok(elements)
}

/// A member of an element; Null where it has no such one.
fn member_or_null(element: &Json, name: &str) -> Result<Json, AllocError>
    ensures { IfOk result (λ v. view v ≡ member_or_null (get name.now (view element.now))) }
{
    match element.get(name) {
        Some(member) => member.clone(),
        None => Ok(Json::Null),
    }
}

/// Null.
fn nothing() -> Json
    ensures { view result ≡ null }
{
    Json::Null
}

/// A member of the only element, as data_json has it: of a value `kind` and `value`. Null where there is not exactly one element, or where it has no such
/// member. An Err is out of memory.
pub fn sole_member(elements: &[Json], name: &str) -> Result<Json, AllocError>
    ensures { IfOk result (λ v. view v ≡ sole_member name.now (items_view elements.now)) }
{
    match elements {
        [] => Ok(Json::Null),
        [element] => member_or_null(element, name),
        [_, _, ..] => Ok(nothing()),
    }
}
