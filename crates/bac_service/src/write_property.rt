//! WriteProperty (clause 15.9).
ghost use Rattle.std.specs.Prelude.{◌≡◌, ◌+◌, ◌++◌, ◌<◌, ◌≤◌, OnOk, OnErr, length, vec_len, vec_capacity};
ghost use Rattle.bac_value.specs.Steps.{Reads};
ghost use Rattle.bac_service.specs.Reading.{optional_at};
ghost use Rattle.bac_service.specs.References.{property_reference_view};
ghost use Rattle.bac_service.specs.Priorities.{priority_at};
ghost use Rattle.bac_service.specs.WriteProperty.{IsWriteProperty, priority_view, write_property_at, write_property_length};
ghost use Rattle.bac_service.specs.WriteProperty.{write_property_spelling, write_property_view};
ghost use Rattle.bac_service.specs.Writing.{Writes};

use crate::member_len::{PAIR_LEN, optional_len};
use crate::member_reading::enclosed_values;
use crate::member_writing::{put_optional, put_values};
use crate::priority::{Priority, take_priority};
use crate::property::{PropertyReference, property_reference, put_reference, reference_len};
use crate::stop::Stop;
use crate::tag_reading::comes_next;
use bac_value::{Data, NoMemory, Octets};

/// A request to write a property (clause 15.9). The priority is used for commandable properties.
#[derive(Clone, Copy, Debug, Drop)]
pub struct WriteProperty<D> {
    /// The property.
    pub reference: PropertyReference,
    /// The new values.
    pub values: D,
    /// The priority, if any.
    pub priority: Option<Priority>,
}

/// Reads an optional priority.
#[tactic(auto, unfolding(crate::specs::Reading::optional_at))]
fn take_optional_priority<O: Octets>(octets: O) -> Result<(Option<Priority>, O), Stop>
    ensures { Reads priority_view O.octets (O.octets octets) result (optional_at 4 priority_at) }
{
    if !comes_next(octets, 4)? {
        return Ok((None, octets));
    }
    let (priority, rest) = take_priority(octets)?;
    Ok((Some(priority), rest))
}

/// Reads the members of a request, and returns them and the octets after them.
#[tactic(auto, unfolding(crate::specs::WriteProperty::write_property_at))]
pub(crate) fn take_write_property<O: Octets>(octets: O) -> Result<(WriteProperty<O>, O), Stop>
    ensures { Reads (write_property_view O.octets) O.octets (O.octets octets) result write_property_at }
{
    let (reference, rest) = property_reference(octets)?;
    let (values, rest) = enclosed_values(rest)?;
    let (priority, rest) = take_optional_priority(rest)?;
    let write = WriteProperty {
        reference,
        values,
        priority,
    };
    Ok((write, rest))
}

fn level(priority: Option<Priority>) -> Option<u32>
    ensures { result ≡ priority_view priority }
{
    match priority {
        Some(priority) => Some(u32::from(priority.number)),
        None => None,
    }
}

/// Appends the members of a request.
pub(crate) fn put_write_property(
    write: WriteProperty<Data<'_>>,
    out: &mut Vec<u8>,
) -> Result<(), NoMemory>
    ensures { Writes result out.old out.new (write_property_spelling (property_reference_view write.entry.reference) write.entry.values.octets.now (priority_view write.entry.priority)) }
{
    put_reference(write.reference, out)?;
    put_values(write.values.octets, out)?;
    put_optional(4, level(write.priority), out)
}

/// The length in octets of the members of a request.
#[tactic(auto, using(crate::proofs::MembersSpelled::whole_data))]
pub(crate) fn write_property_len(write: WriteProperty<Data<'_>>) -> usize
    ensures len { result ≡ write_property_length (property_reference_view write.entry.reference) (length write.entry.values.octets.now)
        (priority_view write.entry.priority) }
    ensures is { IsWriteProperty (property_reference_view write.entry.reference) write.entry.values.octets.now (priority_view write.entry.priority) }
{
    let values = Octets::len(write.values.octets) + PAIR_LEN;
    reference_len(write.reference) + values + optional_len(level(write.priority))
}
