//! The properties and the file of an object (clause 12).
ghost use Rattle.std.specs.Prelude.{◌≡◌, ◌≤◌, IfOk, IsTrue, false, length, map};
ghost use Rattle.bac_value.specs.Reading.{data_of};
ghost use Rattle.bac_value.specs.Steps.{ReadsAll};
ghost use Rattle.bac_value.specs.Views.{value_view};
ghost use Rattle.bac_value.specs.Writing.{value_spelling};
ghost use Rattle.bac_store.specs.Limits.{FILE_LIMIT as FILE_MOST, VALUE_LIMIT as VALUE_MOST};
ghost use Rattle.bac_store.specs.Objects.{are_right_values as are_right, is_right_number, is_right_property};
ghost use Rattle.bac_store.specs.Views.{file_view, property_view};
ghost use Rattle.toml.specs.View.{view};
ghost use Rattle.bac_point_text.specs.Views.{maybe_names};
ghost use Rattle.bac_objects.specs.Answers.{Reads};
ghost use Rattle.bac_objects.specs.Properties.{content_of, file_of, given_as as given_by, has_number as has_number_in};
ghost use Rattle.bac_objects.specs.Properties.{own_property as own_property_of, property_number as number_of, property_of, right_at as right_of, spelling_of};
ghost use Rattle.bac_objects.specs.Properties.{wanted_at as wanted_by, whole_data};

use crate::fault::ValueFault;
use crate::form::{Kind, ValueForm};
use crate::held::{held_file, held_values};
use crate::names::names_of;
use crate::problem::{Given, Problem, Wanted};
use crate::scalars::text;
use crate::values::{hex_octets, value_in};
use bac_point_text::Enumeration;
use bac_store::{Allowed, FILE_LIMIT, File, Property, VALUE_LIMIT, are_right_values};
use bac_value::{DataBuf, NoMemory, take_data, write_value};
use std::alloc::Global;
use toml::Value;

/// The property description.
pub(crate) const DESCRIPTION: u32 = 28;

/// The property present-value.
pub(crate) const PRESENT_VALUE: u32 = 85;

/// The first proprietary property (clause 23.1).
const FIRST_VENDOR_PROPERTY: u32 = 512;

/// The object type binary-value.
const BINARY_VALUE: u16 = 5;

/// The last proprietary property: numbers have 22 bits (clause 23.1).
const LAST_PROPERTY: u32 = 4_194_303;

/// The number of the listed property that a key identifies by its name or its number.
fn listed_number(key: &str) -> Result<u32, Problem>
    ensures is { result ≡ number_of key.now }
    ensures right { IfOk result (λ n. IsTrue (is_right_number n)) }
{
    match bac_value_text::property_in(key.as_bytes()) {
        Some(number @ (DESCRIPTION | PRESENT_VALUE | FIRST_VENDOR_PROPERTY..=LAST_PROPERTY)) => {
            Ok(number)
        }
        _ => Err(Problem {
            wanted: Wanted::Property,
            given: Given::Other,
        }),
    }
}

/// A value encoded as data.
pub(crate) fn spelled(alloc: Global, value: &bac_value::Value) -> Result<DataBuf, NoMemory>
    ensures { IfOk result (λ d. d.octets.items ≡ value_spelling (value_view value.now)) }
{
    let mut octets = Vec::new(alloc);
    write_value(value, &mut octets)?;
    Ok(DataBuf { octets })
}

/// The octets as data, if they encode data as a whole.
pub(crate) fn data_in(octets: Vec<u8>) -> Result<DataBuf, Problem>
    ensures { ReadsAll (λ d. d.octets.items) result (whole_data octets.items (data_of octets.items)) }
{
    match take_data(octets.as_slice()) {
        Ok(taken) if taken.1.is_empty() => Ok(DataBuf { octets }),
        _ => Err(Problem {
            wanted: Wanted::Spelling,
            given: Given::Other,
        }),
    }
}

/// Reads the values in a form; `names` are those of their numbers.
pub(crate) fn values_in(
    alloc: Global,
    names: Option<Enumeration>,
    form: ValueForm,
    value: &Value,
) -> Result<DataBuf, ValueFault>
    ensures { Reads (λ d. d.octets.items) result (spelling_of (maybe_names names) form (view value.now)) }
{
    match form {
        ValueForm::Value(kind) => {
            let value = value_in(alloc, names, kind, value)?;
            Ok(spelled(alloc, &value)?)
        }
        ValueForm::Hex => {
            let octets = hex_octets(alloc, value)?;
            Ok(data_in(octets)?)
        }
    }
}

/// What is expected as values of a property of an object of this type.
fn wanted_at(kind: u16, number: u32) -> Wanted
    ensures { result ≡ wanted_by kind number }
{
    if number == DESCRIPTION {
        Wanted::Kind(Kind::Text)
    } else if kind == BINARY_VALUE {
        Wanted::State
    } else {
        Wanted::Kind(Kind::Real)
    }
}

pub(crate) fn given_as(form: ValueForm) -> Given
    ensures { result ≡ given_by form }
{
    match form {
        ValueForm::Value(kind) => Given::Kind(kind),
        ValueForm::Hex => Given::Hex,
    }
}

/// Checks that values are not too long, and valid for the property.
fn right_at(kind: u16, number: u32, form: ValueForm, values: DataBuf) -> Result<DataBuf, Problem>
    ensures is { ReadsAll (λ d. d.octets.items) result (right_of kind number form values.octets.items) }
    ensures short { IfOk result (λ d. length d.octets.items ≤ VALUE_MOST) }
    ensures right { IfOk result (λ d. IsTrue (are_right kind number d.octets.items)) }
{
    if values.octets.len() > VALUE_LIMIT {
        return Err(Problem {
            wanted: Wanted::ShortValue,
            given: Given::More,
        });
    }
    if !are_right_values(kind, number, values.octets.as_slice()) {
        return Err(Problem {
            wanted: wanted_at(kind, number),
            given: given_as(form),
        });
    }
    Ok(values)
}

/// Reads the property of an object of this type.
#[tactic(auto, unfolding(crate::specs::Properties::property_of))]
fn property_in(alloc: Global, kind: u16, key: &str, value: &Value) -> Result<Property, ValueFault>
    ensures is { Reads property_view result (property_of kind key.now (view value.now)) }
    ensures right { IfOk result (λ p. IsTrue (is_right_property kind (property_view p))) }
{
    let number = listed_number(key)?;
    let names = names_of(kind, number);
    let held = held_values(names, value)?;
    let values = values_in(alloc, names, held.form, held.value)?;
    let values = right_at(kind, number, held.form, values)?;
    Ok(Property {
        number,
        values,
        writable: held.writable,
        allowed: Allowed::Any,
    })
}

/// Whether one of some properties has this number.
#[tactic(auto, using(crate::proofs::Numbers::number_next))]
pub(crate) fn has_number(number: u32, properties: &[Property]) -> bool
    ensures { result ≡ has_number_in number (map property_view properties.now) }
{
    for property in properties {
        if property.number == number {
            return true;
        }
    }
    false
}

/// Reads a property of an object of this type, which the object may not have already.
pub(crate) fn own_property(
    alloc: Global,
    kind: u16,
    done: &[Property],
    key: &str,
    value: &Value,
) -> Result<Property, ValueFault>
    ensures is { Reads property_view result (own_property_of kind (map property_view done.now) key.now (view value.now)) }
    ensures right { IfOk result (λ p. IsTrue (is_right_property kind (property_view p))) }
    ensures new { IfOk result (λ p. has_number_in p.number (map property_view done.now) ≡ false) }
{
    let property = property_in(alloc, kind, key, value)?;
    if has_number(property.number, done) {
        return Err(ValueFault::Wrong(Problem {
            wanted: Wanted::OwnProperty,
            given: Given::Again,
        }));
    }
    Ok(property)
}

fn content_in(alloc: Global, form: ValueForm, value: &Value) -> Result<Vec<u8>, ValueFault>
    ensures { Reads (λ v. v.items) result (content_of form (view value.now)) }
{
    match form {
        ValueForm::Hex => hex_octets(alloc, value),
        ValueForm::Value(_) => {
            let text = text(Wanted::Text, value)?;
            Ok(Vec::from_slice(alloc, text.as_bytes())?)
        }
    }
}

/// Reads the contents of a file.
#[tactic(auto, unfolding(crate::specs::Properties::file_of))]
pub(crate) fn file_in(alloc: Global, value: &Value) -> Result<File, ValueFault>
    ensures is { Reads file_view result (file_of (view value.now)) }
    ensures short { IfOk result (λ f. length f.octets.items ≤ FILE_MOST) }
{
    let held = held_file(value)?;
    let octets = content_in(alloc, held.form, held.value)?;
    if octets.len() > FILE_LIMIT {
        return Err(ValueFault::Wrong(Problem {
            wanted: Wanted::ShortFile,
            given: Given::More,
        }));
    }
    Ok(File {
        octets,
        writable: held.writable,
    })
}
