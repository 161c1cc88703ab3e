//! The elements of arrays (clause 15.5).
ghost use Rattle.std.specs.Prelude.{◌≡◌, ◌≤◌, ◌<◌, ◌+◌, ◌^◌, ◌==◌, ℕ, Some, IsSome, IfOk, IfSome, OnErr, length, take, if◌then◌else◌};
ghost use Rattle.std.specs.Option.{option_map};
ghost use Rattle.bac_value.specs.Data.{IsData};
ghost use Rattle.bac_value.specs.Value.{unsigned};
ghost use Rattle.bac_value.specs.Writing.{value_spelling};
ghost use Rattle.bac_store.specs.Arrays.{counted, element_from, first_value, is_array as is_array_in, parted, values_in, values_view};

use crate::limits::{ACTION_TEXT, CONFIGURATION_FILES, OBJECT_LIST, PROPERTY_LIST, STATE_TEXT};
use crate::spelled::spelled;
use bac_value::{Class, Data, DataBuf, NoMemory, Value, read_element};
use std::alloc::Global;

/// Some application values: how many, and the one at a chosen place, if there is one.
#[derive(Clone, Copy, Debug)]
pub(crate) struct Values<'a> {
    pub count: usize,
    pub chosen: Option<Data<'a>>,
}

/// Whether a property is an array whose elements are application values.
pub(crate) fn is_array(number: u32) -> bool
    ensures { result ≡ is_array_in number }
{
    match number {
        ACTION_TEXT | OBJECT_LIST | STATE_TEXT | CONFIGURATION_FILES | PROPERTY_LIST => true,
        _ => false,
    }
}

/// The length in octets of the application value at the front, if there is one.
fn value_len(octets: &[u8]) -> Option<usize>
    ensures exact { option_map (λ k. parted k octets.now) result ≡ first_value octets.now }
    ensures within { IfSome result (λ k. k ≤ length octets.now) }
    ensures whole { IfSome result (λ k. IsData (take k octets.now)) }
{
    match read_element(octets) {
        Ok((element, len)) => match element.tag.class {
            Class::Application => Some(len),
            Class::Context => None,
        },
        Err(_) => None,
    }
}

/// The application value at the front and the octets after it, if there is one.
fn first_of(octets: &[u8]) -> Option<(Data<'_>, &[u8])>
    ensures { option_map (λ s. (s.0.octets.now, s.1.now)) result ≡ first_value octets.now }
{
    let len = value_len(octets)?;
    let value = Data {
        octets: &octets[..len],
    };
    Some((value, &octets[len..]))
}

/// The values and one more, which is the chosen one if this is its place.
fn with_value<'a>(values: Values<'a>, at: usize, value: Data<'a>) -> Values<'a>
    requires { values.count + 1 < 2 ^ 64 }
    ensures count { result.count ≡ values.entry.count + 1 }
    ensures chosen { option_map (λ d. d.octets.now) result.chosen
        ≡ (if at == values.entry.count then Some value.entry.octets.now else option_map (λ d. d.octets.now) values.entry.chosen) }
{
    let chosen = if at == values.count {
        Some(value)
    } else {
        values.chosen
    };
    Values {
        count: values.count + 1,
        chosen,
    }
}

/// Counts the application values that the octets encode, and finds the one at a place; None if they encode anything else.
pub(crate) fn split_values(octets: &[u8], at: usize) -> Option<Values<'_>>
    ensures { option_map values_view result ≡ option_map (counted at) (values_in octets.now) }
{
    let mut rest = octets;
    let mut values = Values {
        count: 0,
        chosen: None,
    };
    for _ in 0..octets.len() {
        if rest.is_empty() {
            return Some(values);
        }
        let Some((value, left)) = first_of(rest) else {
            return None;
        };
        values = with_value(values, at, value);
        rest = left;
    }
    if rest.is_empty() { Some(values) } else { None }
}

/// A number of elements, encoded as an Unsigned.
fn number(alloc: Global, count: usize) -> Result<DataBuf, NoMemory>
    ensures same { IfOk result (λ d. d.octets.items ≡ value_spelling (unsigned count)) }
    ensures held { OnErr result (1 ≤ length (value_spelling (unsigned count))) }
{
    spelled(alloc, &Value::Unsigned(count as u64))
}

/// An owned copy of the element with this index, which is the number of elements for index 0; None if there is no such element. The chosen
/// value is the one at the place before the index.
pub(crate) fn element(
    alloc: Global,
    values: Values<'_>,
    index: u32,
) -> Result<Option<DataBuf>, NoMemory>
    ensures same { IfOk result (λ e. option_map (λ d. d.octets.items) e ≡ element_from (values_view values.entry) index) }
    ensures held { OnErr result (IfSome (element_from (values_view values.entry) index) (λ xs. 1 ≤ length xs)) }
    ensures some { OnErr result (IsSome (element_from (values_view values.entry) index)) }
{
    if index == 0 {
        let number = number(alloc, values.count)?;
        return Ok(Some(number));
    }
    match values.chosen {
        None => Ok(None),
        Some(value) => {
            let copy = value.to_owned(alloc)?;
            Ok(Some(copy))
        }
    }
}
