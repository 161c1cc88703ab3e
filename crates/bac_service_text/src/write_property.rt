//! WriteProperty as text (clause 15.9).
ghost use Rattle.std.specs.Prelude.{◌≡◌, IfOk, Some, map};
ghost use Rattle.std.specs.Option.{option_map};
ghost use Rattle.bac_service.specs.Views.{owned_request_view, priority_view, property_reference_view};
ghost use Rattle.bac_service_text.specs.Reading.{Reads};
ghost use Rattle.bac_service_text.specs.Views.{written_view};
ghost use Rattle.bac_service_text.specs.WriteProperty.{AreWriteWords, data_in, prioritized, priority_of, priority_text};
ghost use Rattle.bac_service_text.specs.WriteProperty.{priority_word, values_in_word, write_label, write_of, written_on};
ghost use Rattle.bac_value.specs.Views.{object_identifier_view, value_view};
ghost use Rattle.bac_value.specs.Writing.{value_spelling};

use crate::form_fault::FormFault;
use crate::reference::{octets_or_fault, reference_in, reference_words};
use bac_service::{AnyRequest, OwnedRequest, Priority, PropertyReference, WriteProperty};
use bac_value::{Data, DataBuf, NoMemory, ObjectIdentifier, Value, take_data, write_value};
use bac_value_text::{Separator, ValueFault, data_text, number_up_to, read_value};
use std::alloc::{AllocError, Global};

// ---- the request, printed

/// The request without its values.
pub(crate) fn write_label(
    alloc: Global,
    reference: PropertyReference,
) -> Result<Vec<u8>, AllocError>
    ensures { IfOk result (λ t. t.items ≡ write_label (property_reference_view reference)) }
{
    reference_words(alloc, b"write ", reference)
}

/// The priority behind the values, where one is given.
fn priority_text(alloc: Global, priority: Option<Priority>) -> Result<Vec<u8>, AllocError>
    ensures { IfOk result (λ t. t.items ≡ priority_text (priority_view priority)) }
{
    let Some(priority) = priority else {
        return Ok(Vec::new(alloc));
    };
    let number = u32::from(priority.number);
    let text = format!(in alloc; " priority {number}")?;
    Ok(text.into_bytes())
}

/// The request in words, as `write analog-value:1 present-value real 72.3 priority 8`.
pub(crate) fn write_words(
    alloc: Global,
    write: WriteProperty<Data<'_>>,
) -> Result<Vec<u8>, NoMemory>
    ensures { IfOk result (λ t. AreWriteWords (property_reference_view write.entry.reference) write.entry.values.octets.now
        (priority_view write.entry.priority) t.items) }
{
    let mut text = write_label(alloc, write.reference)?;
    let values = data_text(alloc, write.values)?;
    let priority = priority_text(alloc, write.priority)?;
    text.push(b' ')?;
    text.extend_from_slice(values.as_slice())?;
    text.extend_from_slice(priority.as_slice())?;
    Ok(text)
}

// ---- the request, read

/// Octets of values, and the priority that stands behind them.
#[derive(Drop)]
pub(crate) struct Written {
    pub(crate) octets: Vec<u8>,
    pub(crate) priority: Option<Priority>,
}

fn spelling_of(alloc: Global, value: &Value) -> Result<Vec<u8>, FormFault>
    ensures { Reads (λ v. v.items) result (Some (value_spelling (value_view value.now))) }
{
    let mut octets = Vec::new(alloc);
    match write_value(value, &mut octets) {
        Ok(()) => Ok(octets),
        Err(_) => Err(FormFault::NoMemory),
    }
}

/// The octets that a word of values is: a value by its kind, as `real:72.5`, or octets in hexadecimal.
pub(crate) fn values_in_word(alloc: Global, word: &[u8]) -> Result<Vec<u8>, FormFault>
    ensures { Reads (λ v. v.items) result (values_in_word word.now) }
{
    match read_value(alloc, Separator::Colon, word) {
        Ok(value) => spelling_of(alloc, &value),
        Err(ValueFault::NoMemory) => Err(FormFault::NoMemory),
        Err(ValueFault::NoValue) => octets_or_fault(alloc, word),
    }
}

pub(crate) fn priority_in(word: &[u8]) -> Option<Priority>
    ensures { option_map (λ p. p.number) result ≡ priority_of word.now }
{
    let number = number_up_to(16, word)?;
    Priority::new(number as u8)
}

/// The word of a priority, where only it and the word before it are left.
pub(crate) fn priority_word<'a>(words: &[&'a [u8]]) -> Option<&'a [u8]>
    ensures { option_map (λ w. w.now) result ≡ priority_word (map (λ w. w.now) words.now) }
{
    match words {
        [word, number] if *word == b"priority".as_slice() => Some(*number),
        _ => None,
    }
}

fn with_priority(octets: Vec<u8>, word: &[u8]) -> Result<Written, FormFault>
    ensures { Reads written_view result (prioritized octets.items word.now) }
{
    match priority_in(word) {
        Some(priority) => Ok(Written {
            octets,
            priority: Some(priority),
        }),
        None => Err(FormFault::NoForm),
    }
}

/// The octets of values in words, where octets stand before them, and the priority behind them.
fn written_on(alloc: Global, octets: Vec<u8>, words: &[&[u8]]) -> Result<Written, FormFault>
    ensures { Reads written_view result (written_on octets.items (map (λ w. w.now) words.now)) }
{
    let mut octets = octets;
    let mut rest = words;
    while let [word, more @ ..] = rest {
        if let Some(number) = priority_word(rest) {
            return with_priority(octets, number);
        }
        let values = values_in_word(alloc, *word)?;
        octets.extend_from_slice(values.as_slice())?;
        rest = more;
    }
    Ok(Written {
        octets,
        priority: None,
    })
}

/// Octets that spell data as a whole.
fn data_of(octets: Vec<u8>) -> Result<DataBuf, FormFault>
    ensures { Reads (λ d. d.octets.items) result (data_in octets.items) }
{
    match take_data(octets.as_slice()) {
        Ok(taken) if taken.1.is_empty() => Ok(DataBuf { octets }),
        _ => Err(FormFault::NoForm),
    }
}

/// The request that `write OBJECT PROPERTY VALUE ..` means.
#[tactic(auto, unfolding(crate::specs::WriteProperty::write_of))]
pub(crate) fn write_property_in(
    alloc: Global,
    object: ObjectIdentifier,
    property: &[u8],
    first: &[u8],
    words: &[&[u8]],
) -> Result<OwnedRequest, FormFault>
    ensures { Reads owned_request_view result (write_of (object_identifier_view object) property.now first.now (map (λ w. w.now) words.now)) }
{
    let reference = reference_in(object, property)?;
    let octets = values_in_word(alloc, first)?;
    let written = written_on(alloc, octets, words)?;
    let values = data_of(written.octets)?;
    Ok(AnyRequest::WriteProperty(WriteProperty {
        reference,
        values,
        priority: written.priority,
    }))
}
