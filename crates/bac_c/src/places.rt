//! What the places of cells are for, as `bac serve --keep` numbers them.
ghost use Rattle.std.specs.Prelude.{◌≡◌, ◌≢◌, ◌↔◌, ◌<◌, ◌^◌, None, true, IfSome};
ghost use Rattle.bac_value.specs.Views.{object_identifier_view};
ghost use Rattle.bac_keep.specs.Cells.{value_place};
ghost use Rattle.bac_keep.specs.Parts.{IsSmall, place_for};
ghost use Rattle.bac_c.specs.Kept.{is_place};

use bac_keep::{FILES, NUMBERS, Part};
use bac_value::ObjectIdentifier;

/// How many instances an object type can have: 22 bits.
const INSTANCES: u64 = 0x40_0000;

/// The object identifier and the number of 22 bits that are one number.
fn object_of(number: u64) -> (ObjectIdentifier, u32)
    requires { number < 2 ^ 54 }
    ensures is { number ≡ value_place (object_identifier_view result.0) result.1 }
    ensures small { result.1 < 2 ^ 22 }
{
    let object = number / NUMBERS;
    let id = ObjectIdentifier {
        kind: (object / INSTANCES) as u16,
        instance: (object % INSTANCES) as u32,
    };
    (id, (number % NUMBERS) as u32)
}

/// What a place is for; None exactly where no cell can have it.
pub fn part_of(place: u64) -> Option<Part>
    ensures is { IfSome result (λ p. place ≡ place_for p) }
    ensures small { IfSome result IsSmall }
    ensures may { (result ≢ None) ↔ (is_place place ≡ true) }
{
    if place < FILES {
        let (object, property) = object_of(place);
        return Some(Part::Values { object, property });
    }
    // an object and a number of 22 bits are 54 bits
    if place - FILES >= FILES {
        return None;
    }
    let (object, part) = object_of(place - FILES);
    match part {
        0 => Some(Part::Count { object }),
        1..=255 => Some(Part::Chunk {
            object,
            at: (part - 1) as u8,
        }),
        _ => None,
    }
}
