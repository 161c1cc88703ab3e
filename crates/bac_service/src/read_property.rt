//! ReadProperty (clause 15.5). A request is just a property reference.
ghost use Rattle.std.specs.Prelude.{◌≡◌, ◌+◌, ◌++◌, ◌<◌, ◌≤◌, OnOk, OnErr, length, vec_len, vec_capacity};
ghost use Rattle.bac_value.specs.Steps.{Reads};
ghost use Rattle.bac_service.specs.ReadProperty.{IsPropertyRead, property_read_at, property_read_length, property_read_spelling, property_read_view};
ghost use Rattle.bac_service.specs.References.{property_reference_view};
ghost use Rattle.bac_service.specs.Writing.{Writes};

use crate::member_len::PAIR_LEN;
use crate::member_reading::enclosed_values;
use crate::member_writing::put_values;
use crate::property::{PropertyReference, property_reference, put_reference, reference_len};
use crate::stop::Stop;
use bac_value::{Data, NoMemory, Octets};

/// The values of a property that was read (clause 15.5).
#[derive(Clone, Copy, Debug, Drop)]
pub struct PropertyRead<D> {
    /// The property that was read.
    pub reference: PropertyReference,
    /// Its values.
    pub values: D,
}

/// Reads the members of the service data, and returns them and the octets after them.
#[tactic(auto, unfolding(crate::specs::ReadProperty::property_read_at))]
pub(crate) fn take_property_read<O: Octets>(octets: O) -> Result<(PropertyRead<O>, O), Stop>
    ensures { Reads (property_read_view O.octets) O.octets (O.octets octets) result property_read_at }
{
    let (reference, rest) = property_reference(octets)?;
    let (values, rest) = enclosed_values(rest)?;
    Ok((PropertyRead { reference, values }, rest))
}

/// Appends the members of the service data.
pub(crate) fn put_property_read(
    read: PropertyRead<Data<'_>>,
    out: &mut Vec<u8>,
) -> Result<(), NoMemory>
    ensures { Writes result out.old out.new (property_read_spelling (property_reference_view read.entry.reference) read.entry.values.octets.now) }
{
    put_reference(read.reference, out)?;
    put_values(read.values.octets, out)
}

/// The length in octets of the members of the service data.
#[tactic(auto, using(crate::proofs::MembersSpelled::whole_data))]
pub(crate) fn property_read_len(read: PropertyRead<Data<'_>>) -> usize
    ensures len { result ≡ property_read_length (property_reference_view read.entry.reference) (length read.entry.values.octets.now) }
    ensures is { IsPropertyRead (property_reference_view read.entry.reference) read.entry.values.octets.now }
{
    reference_len(read.reference) + Octets::len(read.values.octets) + PAIR_LEN
}
