//! What a place is for.
ghost use Rattle.std.specs.Prelude.{◌≡◌, ◌<◌, ◌%◌, ◌^◌, None, IfSome};
ghost use Rattle.bac_value.specs.Views.{object_identifier_view};
ghost use Rattle.bac_keep.specs.Cells.{value_place};
ghost use Rattle.bac_keep.specs.Parts.{IsForNothing, IsSmall, place_for};

use crate::cell::{Cell, FILES, INSTANCES, NUMBERS};
use bac_value::ObjectIdentifier;

/// What a place is for.
#[derive(Clone, Copy, Debug, PartialEq, Eq)]
pub enum Part {
    /// The values of a property.
    Values {
        /// The object.
        object: ObjectIdentifier,
        /// The number of the property.
        property: u32,
    },
    /// The number of chunks of a file.
    Count {
        /// The file.
        object: ObjectIdentifier,
    },
    /// A chunk of a file.
    Chunk {
        /// The file.
        object: ObjectIdentifier,
        /// The number of the chunk, from 0.
        at: u8,
    },
}

/// The object identifier and the number of 22 bits that are one number.
fn object_of(number: u64) -> (ObjectIdentifier, u32)
    requires { number < 2 ^ 54 }
    ensures is { number ≡ value_place (object_identifier_view result.0) result.1 }
    ensures small { result.1 < 2 ^ 22 }
    ensures rest { result.1 ≡ number % 2 ^ 22 }
{
    let object = number / NUMBERS;
    let id = ObjectIdentifier {
        // below `FILES` the type has 10 bits, so no cast loses one
        kind: (object / INSTANCES) as u16,
        instance: (object % INSTANCES) as u32,
    };
    (id, (number % NUMBERS) as u32)
}

/// What a place is for. Returns None if no cell has it.
pub(crate) fn part_of(place: u64) -> Option<Part>
    ensures is { IfSome result (λ p. place ≡ place_for p) }
    ensures small { IfSome result IsSmall }
    ensures none { result ≡ None → IsForNothing place }
{
    if place < FILES {
        let (object, property) = object_of(place);
        return Some(Part::Values { object, property });
    }
    // an object and a number of 22 bits are 54 bits
    if place - FILES >= FILES {
        return None;
    }
    let (object, part) = object_of(place - FILES);
    match part {
        0 => Some(Part::Count { object }),
        1..=255 => Some(Part::Chunk {
            object,
            at: (part - 1) as u8,
        }),
        _ => None,
    }
}

impl Cell {
    /// What it is for; None if no write makes such a cell.
    pub fn part(&self) -> Option<Part>
        ensures is { IfSome result (λ p. self.now.place ≡ place_for p) }
        ensures small { IfSome result IsSmall }
        ensures none { result ≡ None → IsForNothing self.now.place }
    {
        part_of(self.place)
    }
}

impl Part {
    /// Whether it is a part of an object: of this property, or where none is given of any property and of the file.
    pub fn is_of(self, wanted: ObjectIdentifier, number: Option<u32>) -> bool {
        match self {
            Part::Values { object, property } => {
                object == wanted && (number.is_none() || number == Some(property))
            }
            Part::Count { object } | Part::Chunk { object, .. } => {
                object == wanted && number.is_none()
            }
        }
    }
}
