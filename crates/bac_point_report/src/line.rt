//! A value, or why there is none, on a line.
ghost use Rattle.std.specs.Prelude.{◌≡◌, IfOk, OnOk, ◌++◌};
ghost use Rattle.std.specs.Option.{option_map};
ghost use Rattle.bac_ask_report.specs.Records.{outcome_view};
ghost use Rattle.bac_service.specs.Views.{property_reference_view};
ghost use Rattle.bac_point_report.specs.Lines.{element_text, failure_line, failure_lines, front_text, names_text, value_line};

use crate::advice::advice_line;
use crate::outcome::failure_words;
use bac_ask_report::Outcome;
use bac_service::PropertyReference;
use bac_value_text::{object_text, property_text};
use std::alloc::{AllocError, Global};

/// A property, and the index of an element in brackets, as `priority-array[8]`.
fn element_text(alloc: Global, reference: PropertyReference) -> Result<Vec<u8>, AllocError>
    ensures { IfOk result (λ t. t.items ≡ element_text (property_reference_view reference)) }
{
    let property = property_text(alloc, reference.property)?;
    let Some(index) = reference.index else {
        return Ok(property.into_bytes());
    };
    let text = format!(in alloc; "{property}[{index}]")?;
    Ok(text.into_bytes())
}

/// An object and its property, with that octet between them.
fn names_text(
    alloc: Global,
    separator: u8,
    reference: PropertyReference,
) -> Result<Vec<u8>, AllocError>
    ensures { IfOk result (λ t. t.items ≡ names_text separator (property_reference_view reference)) }
{
    let mut text = object_text(alloc, reference.object)?;
    let property = element_text(alloc, reference)?;
    text.push(separator)?;
    text.extend_from_slice(&property)?;
    Ok(text)
}

/// What stands before a value: the names of its object and property, if they are shown, each before a tab.
fn front_text(alloc: Global, named: Option<PropertyReference>) -> Result<Vec<u8>, AllocError>
    ensures { IfOk result (λ t. t.items ≡ front_text (option_map property_reference_view named)) }
{
    let Some(reference) = named else {
        return Ok(Vec::new(alloc));
    };
    let mut text = names_text(alloc, b'\t', reference)?;
    text.push(b'\t')?;
    Ok(text)
}

/// The line of a value: the names of its object and property before it, if they are given, with tabs between. An Err is out of memory.
pub fn value_line(
    alloc: Global,
    named: Option<PropertyReference>,
    value: &[u8],
) -> Result<Vec<u8>, AllocError>
    ensures { IfOk result (λ t. t.items ≡ value_line (option_map property_reference_view named) value.now) }
{
    let mut line = front_text(alloc, named)?;
    line.extend_from_slice(value)?;
    line.push(b'\n')?;
    Ok(line)
}

/// The line that says why there is no value of a property.
fn failure_line(
    alloc: Global,
    reference: PropertyReference,
    outcome: Outcome<'_>,
) -> Result<Vec<u8>, AllocError>
    ensures { IfOk result (λ t. t.items ≡ failure_line (property_reference_view reference) (outcome_view outcome.entry)) }
{
    let words = failure_words(alloc, outcome)?;
    let mut line = names_text(alloc, b' ', reference)?;
    line.extend_from_slice(b": ")?;
    line.extend_from_slice(&words)?;
    line.push(b'\n')?;
    Ok(line)
}

/// The line that says why there is no value of a property, and behind it what to read in its place, where objects of that type have no present-value. An Err is
/// out of memory.
pub fn failure_lines(
    alloc: Global,
    reference: PropertyReference,
    outcome: Outcome<'_>,
) -> Result<Vec<u8>, AllocError>
    ensures { IfOk result (λ t. t.items ≡ failure_lines (property_reference_view reference) (outcome_view outcome.entry)) }
{
    let advice = advice_line(alloc, reference, outcome)?;
    let mut lines = failure_line(alloc, reference, outcome)?;
    lines.extend_from_slice(&advice)?;
    Ok(lines)
}
