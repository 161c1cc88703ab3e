//! What is forgotten of what is kept.
ghost use Rattle.std.specs.Prelude.{◌≡◌};
ghost use Rattle.bac_value.specs.Views.{object_identifier_view};
ghost use Rattle.bac_keep_file.specs.Forgotten.{is_from as is_from_place, is_selected};

use bac_keep::{NUMBERS, file_place, value_place};
use bac_value::ObjectIdentifier;

/// What is selected of what is kept: a property of an object, or all that is kept of the object.
#[derive(Clone, Copy, Debug, PartialEq, Eq)]
pub struct Selection {
    /// The object.
    pub object: ObjectIdentifier,
    /// The number of the property; None for all properties of the object, and the octets of its file.
    pub property: Option<u32>,
}

/// Whether a place is one of the places of an object, from the first on.
fn is_from(first: u64, place: u64) -> bool
    ensures { result ≡ is_from_place first place }
{
    first <= place && place - first < NUMBERS
}

impl Selection {
    /// Whether it has a place.
    pub(crate) fn has(self, place: u64) -> bool
        ensures { result ≡ is_selected (object_identifier_view self.object) self.property place }
    {
        match self.property {
            None => {
                is_from(value_place(self.object, 0), place)
                    || is_from(file_place(self.object, 0), place)
            }
            Some(number) => {
                u64::from(number) < NUMBERS && place == value_place(self.object, number)
            }
        }
    }
}
