//! Words for the parts of a store that are kept.
ghost use Rattle.std.specs.Prelude.{◌≡◌, IfOk};
ghost use Rattle.bac_value.specs.Views.{object_identifier_view};
ghost use Rattle.bac_serving.specs.Listing.{part_words};

use bac_value::ObjectIdentifier;
use bac_value_text::{object_text, property_text};
use std::alloc::{AllocError, Global};
use std::io;
use std::io::Write;

/// An object, and its property where one is given: `analog-value:1 present-value`.
pub(crate) fn part_words(
    alloc: Global,
    object: ObjectIdentifier,
    property: Option<u32>,
) -> Result<Vec<u8>, AllocError>
    ensures { IfOk result (λ t. t.items ≡ part_words (object_identifier_view object) property) }
{
    let mut words = object_text(alloc, object)?;
    if let Some(number) = property {
        let name = property_text(alloc, number)?;
        words.push(b' ')?;
        words.extend_from_slice(name.as_bytes())?;
    }
    Ok(words)
}

/// Prints a path, a part of a store, and what is said of it.
pub(crate) fn print_about<E: Write>(
    alloc: Global,
    path: &str,
    object: ObjectIdentifier,
    property: Option<u32>,
    said: &str,
    err: &mut E,
) -> io::Result<()> {
    let words = part_words(alloc, object, property)?;
    let mut line = Vec::from_slice(alloc, path.as_bytes())?;
    line.extend_from_slice(b": ")?;
    line.extend_from_slice(words.as_slice())?;
    line.extend_from_slice(b": ")?;
    line.extend_from_slice(said.as_bytes())?;
    line.push(b'\n')?;
    err.write_all(line.as_slice())
}
