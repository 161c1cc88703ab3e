//! Cells and their places.
ghost use Rattle.std.specs.Prelude.{◌≡◌, ◌+◌, ◌*◌, ◌<◌, ◌^◌, IfOk};
ghost use Rattle.bac_value.specs.Views.{object_identifier_view};
ghost use Rattle.bac_keep.specs.Cells.{file_place as file_place_in, value_place as value_place_in};

use bac_value::ObjectIdentifier;

/// How many places a property of an object, or a part of its file, can have: its number has 22 bits (clause 23.1).
pub const NUMBERS: u64 = 0x40_0000;

/// How many instances an object type can have: 22 bits.
pub(crate) const INSTANCES: u64 = 0x40_0000;

/// The first place of a file.
pub const FILES: u64 = 0x40_0000_0000_0000;

/// The greatest number of octets in a chunk of a file.
pub const CHUNK: usize = 1024;

/// Octets at a place.
#[derive(Debug, Drop)]
pub struct Cell {
    /// The place: a number for a property of an object, or for a part of a file.
    pub place: u64,
    /// The octets.
    pub octets: Vec<u8>,
}

/// The object identifier as one number (clause 20.2.14), and a number of 22 bits behind it.
fn numbered(object: ObjectIdentifier, number: u32) -> u64
    requires { number < 2 ^ 22 }
    ensures is { result ≡ value_place_in (object_identifier_view object) number }
    ensures short { result < 2 ^ 54 }
{
    // 10 bits of type, 22 of instance and 22 of the number
    (u64::from(object.kind) * INSTANCES + u64::from(object.instance)) * NUMBERS + u64::from(number)
}

/// The place of the values of a property. Its number has at most 22 bits (clause 23.1).
pub fn value_place(object: ObjectIdentifier, number: u32) -> u64
    requires { number < 2 ^ 22 }
    ensures is { result ≡ value_place_in (object_identifier_view object) number }
    ensures short { result < 2 ^ 63 }
{
    numbered(object, number)
}

/// The place of a part of a file: part 0 is the number of its chunks, part 1 the first chunk, and so on.
pub fn file_place(object: ObjectIdentifier, part: u32) -> u64
    requires { part < 2 ^ 22 }
    ensures is { result ≡ file_place_in (object_identifier_view object) part }
    ensures short { result < 2 ^ 63 }
{
    FILES + numbered(object, part)
}
