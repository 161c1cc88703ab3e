//! The names that `bac help` lists: of object types, of properties and of the values of enumerations.

use bac_point_text::{Enumeration, enumerations_text, names_text};
use std::alloc::{AllocError, Global};

/// The word for the enumeration whose names a list has.
fn enumeration_word(name: &str) -> &str {
    match name {
        "types" => "object-type",
        "properties" => "property-identifier",
        "units" => "engineering-units",
        _ => name,
    }
}

/// The list with that name: of all enumerations, or of the names of one. None if there is none.
pub(crate) fn list_named(alloc: Global, name: &str) -> Result<Option<Vec<u8>>, AllocError> {
    if name == "values" {
        return Ok(Some(enumerations_text(alloc)?));
    }
    match Enumeration::named(enumeration_word(name)) {
        Some(names) => Ok(Some(names_text(alloc, names)?)),
        None => Ok(None),
    }
}
