//! What is asked for.
ghost use Rattle.std.specs.Prelude.{◌≡◌, IfOk, string_bytes};
ghost use Rattle.std.specs.Option.{option_map};
ghost use Rattle.bac_ask_report.specs.Questions.{index_text, property_column};
ghost use Rattle.bac_service.specs.Views.{property_reference_view};

use bac_service::PropertyReference;
use bac_value_text::property_text;
use std::alloc::{AllocError, Global};

/// The index of an element of an array in brackets, where there is one.
fn index_text(alloc: Global, index: Option<u32>) -> Result<String, AllocError>
    ensures { IfOk result (λ t. string_bytes t ≡ index_text index) }
{
    match index {
        Some(index) => format!(in alloc; "[{index}]"),
        None => Ok(String::new(alloc)),
    }
}

/// A property and its index, as `priority-array[8]`; nothing where there is none.
pub(crate) fn property_column(
    alloc: Global,
    reference: Option<PropertyReference>,
) -> Result<Vec<u8>, AllocError>
    ensures { IfOk result (λ t. t.items ≡ property_column (option_map property_reference_view reference)) }
{
    let Some(reference) = reference else {
        return Ok(Vec::new(alloc));
    };
    let mut text = property_text(alloc, reference.property)?.into_bytes();
    let index = index_text(alloc, reference.index)?;
    text.extend_from_slice(index.as_bytes())?;
    Ok(text)
}
