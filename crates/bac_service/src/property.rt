//! References to properties.
ghost use Rattle.std.specs.Prelude.{◌≡◌, ◌+◌, ◌++◌, ◌<◌, ◌≤◌, OnOk, OnErr, length, vec_len, vec_capacity};
ghost use Rattle.bac_value.specs.Steps.{Reads};
ghost use Rattle.bac_service.specs.References.{IsReference, property_reference_view, reference_at, reference_length, reference_spelling};
ghost use Rattle.bac_service.specs.Writing.{Writes};

use crate::member_len::{OBJECT_LEN, optional_len, unsigned_member_len};
use crate::member_reading::{object, short};
use crate::member_writing::put_optional;
use crate::stop::Stop;
use crate::tag_reading::comes_next;
use bac_value::{
    Class, NoMemory, ObjectIdentifier, Octets, write_object_identifier, write_unsigned,
};

/// A property of an object, or one element of an array property (clause 15.5).
///
/// Property and index have at most 32 bits each (for the index an own limit of this profile). Index 0 is the number of elements
/// of the array (clause 15.5).
#[derive(Clone, Copy, Debug, PartialEq, Eq)]
pub struct PropertyReference {
    /// The object.
    pub object: ObjectIdentifier,
    /// The property's number (BACnetPropertyIdentifier).
    pub property: u32,
    /// The element of an array; None for the whole property.
    pub index: Option<u32>,
}

/// Reads an object, a property, and an optional index.
#[tactic(auto, unfolding(crate::specs::References::reference_at, crate::specs::Reading::optional_at))]
#[inline(always)]
pub(crate) fn property_reference<O: Octets>(octets: O) -> Result<(PropertyReference, O), Stop>
    ensures { Reads property_reference_view O.octets (O.octets octets) result reference_at }
{
    let (object, rest) = object(octets, Class::Context, 0)?;
    let (property, rest) = short(rest, 1)?;
    let (index, rest) = if comes_next(rest, 2)? {
        let (index, rest) = short(rest, 2)?;
        (Some(index), rest)
    } else {
        (None, rest)
    };
    let reference = PropertyReference {
        object,
        property,
        index,
    };
    Ok((reference, rest))
}

/// Appends an object, a property, and an optional index.
#[inline(always)]
pub(crate) fn put_reference(to: PropertyReference, out: &mut Vec<u8>) -> Result<(), NoMemory>
    ensures { Writes result out.old out.new (reference_spelling (property_reference_view to)) }
{
    write_object_identifier(Class::Context, 0, to.object, out)?;
    write_unsigned(Class::Context, 1, u64::from(to.property), out)?;
    put_optional(2, to.index, out)
}

/// The length in octets of a reference.
pub(crate) fn reference_len(to: PropertyReference) -> usize
    ensures len { result ≡ reference_length (property_reference_view to) }
    ensures is { IsReference (property_reference_view to) }
    ensures few { result ≤ 25 }
{
    OBJECT_LEN + unsigned_member_len(u64::from(to.property)) + optional_len(to.index)
}
