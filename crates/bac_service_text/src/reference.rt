//! Objects and properties in words: printed, and read.
ghost use Rattle.std.specs.Prelude.{◌≡◌, ◌++◌, IfOk, string_bytes};
ghost use Rattle.std.specs.Option.{option_map};
ghost use Rattle.bac_service.specs.Views.{property_reference_view};
ghost use Rattle.bac_service_text.specs.Reading.{Reads};
ghost use Rattle.bac_service_text.specs.References.{element_of, index_of, index_text, reference_of, reference_text, whole_of};
ghost use Rattle.bac_value.specs.Views.{object_identifier_view};
ghost use Rattle.bac_value_text.specs.Numbers.{octets_of};
ghost use Rattle.bac_value_text.specs.Reading.{object_of};
ghost use Rattle.bac_value_text.specs.Texts.{object_text};

use crate::form_fault::FormFault;
use bac_service::PropertyReference;
use bac_value::ObjectIdentifier;
use bac_value_text::{
    ValueFault, number_up_to, object_in, object_text, octets_in, parts_at, property_in,
    property_text,
};
use std::alloc::{AllocError, Global};

// ---- printed

/// A word, and an object after it.
pub(crate) fn object_words(
    alloc: Global,
    word: &[u8],
    object: ObjectIdentifier,
) -> Result<Vec<u8>, AllocError>
    ensures { IfOk result (λ t. t.items ≡ word.now ++ object_text (object_identifier_view object)) }
{
    let object = object_text(alloc, object)?;
    let mut words = Vec::from_slice(alloc, word)?;
    words.extend_from_slice(&object)?;
    Ok(words)
}

/// The index of an element of an array, where there is one.
fn index_text(alloc: Global, index: Option<u32>) -> Result<String, AllocError>
    ensures { IfOk result (λ t. string_bytes t ≡ index_text index) }
{
    match index {
        Some(index) => format!(in alloc; "[{index}]"),
        None => Ok(String::new(alloc)),
    }
}

/// A word, and after it a property of an object, as `analog-input:5 present-value`, or an element of it, as `device:1 object-list[0]`.
pub(crate) fn reference_words(
    alloc: Global,
    word: &[u8],
    reference: PropertyReference,
) -> Result<Vec<u8>, AllocError>
    ensures { IfOk result (λ t. t.items ≡ word.now ++ reference_text (property_reference_view reference)) }
{
    let property = property_text(alloc, reference.property)?;
    let index = index_text(alloc, reference.index)?;
    let mut words = object_words(alloc, word, reference.object)?;
    words.push(b' ')?;
    words.extend_from_slice(property.as_bytes())?;
    words.extend_from_slice(index.as_bytes())?;
    Ok(words)
}

// ---- read

/// The object that a word names, by its type and instance; `NoForm` where it names none.
pub fn object_or_fault(word: &[u8]) -> Result<ObjectIdentifier, FormFault>
    ensures { Reads object_identifier_view result (object_of word.now) }
{
    match object_in(word) {
        Some(object) => Ok(object),
        None => Err(FormFault::NoForm),
    }
}

/// The octets that a word is, in hexadecimal of either case; `NoForm` where it is none.
pub fn octets_or_fault(alloc: Global, word: &[u8]) -> Result<Vec<u8>, FormFault>
    ensures { Reads (λ v. v.items) result (octets_of word.now) }
{
    match octets_in(alloc, word) {
        Ok(octets) => Ok(octets),
        Err(ValueFault::NoMemory) => Err(FormFault::NoMemory),
        Err(ValueFault::NoValue) => Err(FormFault::NoForm),
    }
}

/// The index in brackets, from behind the opening one on.
#[tactic(auto, unfolding(crate::specs::References::index_of))]
fn index_in(word: &[u8]) -> Option<u32>
    ensures { result ≡ index_of word.now }
{
    let (digits, behind) = parts_at(b']', word)?;
    let index = number_up_to(u64::from(u32::MAX), digits)?;
    if behind.is_empty() {
        Some(index as u32)
    } else {
        None
    }
}

/// A property as a whole.
#[tactic(auto, unfolding(crate::specs::References::whole_of))]
fn whole_in(object: ObjectIdentifier, word: &[u8]) -> Option<PropertyReference>
    ensures { option_map property_reference_view result ≡ whole_of (object_identifier_view object) word.now }
{
    let property = property_in(word)?;
    Some(PropertyReference {
        object,
        property,
        index: None,
    })
}

/// One element of a property, whose index stands in brackets.
#[tactic(auto, unfolding(crate::specs::References::element_of))]
fn element_in(object: ObjectIdentifier, before: &[u8], behind: &[u8]) -> Option<PropertyReference>
    ensures { option_map property_reference_view result ≡ element_of (object_identifier_view object) before.now behind.now }
{
    let property = property_in(before)?;
    let index = index_in(behind)?;
    Some(PropertyReference {
        object,
        property,
        index: Some(index),
    })
}

/// A property of an object, or one element of it.
pub(crate) fn reference_of(object: ObjectIdentifier, word: &[u8]) -> Option<PropertyReference>
    ensures { option_map property_reference_view result ≡ reference_of (object_identifier_view object) word.now }
{
    match parts_at(b'[', word) {
        None => whole_in(object, word),
        Some((before, behind)) => element_in(object, before, behind),
    }
}

/// The same, where a request must have one.
pub(crate) fn reference_in(
    object: ObjectIdentifier,
    word: &[u8],
) -> Result<PropertyReference, FormFault>
    ensures { Reads property_reference_view result (reference_of (object_identifier_view object) word.now) }
{
    match reference_of(object, word) {
        Some(reference) => Ok(reference),
        None => Err(FormFault::NoForm),
    }
}
