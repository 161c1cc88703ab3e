//! Readers of members that several services have: a value after its tag, and data between a pair of tags.
ghost use Rattle.std.specs.Prelude.{◌<◌, ◌-◌, IfOk, length};
ghost use Rattle.bac_value.specs.Views.{object_identifier_view};
ghost use Rattle.bac_value.specs.Reading.{number_at, signed_at, object_at, kind_at};
ghost use Rattle.bac_value.specs.Steps.{Reads};
ghost use Rattle.bac_service.specs.Reading.{member_at, enclosed_at, values_at};

use crate::stop::{Stop, Why};
use crate::tag_reading::{closing, head, opening};
use bac_value::{
    Class, ObjectIdentifier, Octets, kinds, take_contents, take_data, take_enumerated,
    take_object_identifier, take_signed, take_unsigned,
};

/// Reads an ObjectIdentifier after a tag with this class and number.
#[tactic(auto, unfolding(crate::specs::Reading::member_at))]
#[inline(always)]
pub(crate) fn object<O: Octets>(
    octets: O,
    class: Class,
    number: u8,
) -> Result<(ObjectIdentifier, O), Stop>
    ensures { Reads object_identifier_view O.octets (O.octets octets) result (member_at class number object_at) }
{
    let left = octets.len();
    let (len, contents) = head(octets, class, number)?;
    match take_object_identifier(contents, len) {
        Ok(read) => Ok(read),
        Err(kind) => Err(Stop::new(Why::Fault(kind), left)),
    }
}

/// Reads a number of at most 4 octets after a context tag: an Enumerated, or an array index.
#[tactic(auto, unfolding(crate::specs::Reading::member_at))]
#[inline(always)]
pub(crate) fn short<O: Octets>(octets: O, number: u8) -> Result<(u32, O), Stop>
    ensures { Reads (λ n. n) O.octets (O.octets octets) result (member_at Class.Context number (number_at 9)) }
{
    let left = octets.len();
    let (len, contents) = head(octets, Class::Context, number)?;
    match take_enumerated(contents, len) {
        Ok(read) => Ok(read),
        Err(kind) => Err(Stop::new(Why::Fault(kind), left)),
    }
}

/// Reads an Unsigned after a tag with this class and number.
#[tactic(auto, unfolding(crate::specs::Reading::member_at))]
#[inline(always)]
pub(crate) fn unsigned<O: Octets>(octets: O, class: Class, number: u8) -> Result<(u64, O), Stop>
    ensures { Reads (λ n. n) O.octets (O.octets octets) result (member_at class number (number_at 2)) }
{
    let left = octets.len();
    let (len, contents) = head(octets, class, number)?;
    match take_unsigned(contents, len) {
        Ok(read) => Ok(read),
        Err(kind) => Err(Stop::new(Why::Fault(kind), left)),
    }
}

/// Reads a Signed after a tag with this class and number.
#[tactic(auto, unfolding(crate::specs::Reading::member_at))]
#[inline(always)]
pub(crate) fn signed<O: Octets>(octets: O, class: Class, number: u8) -> Result<(i64, O), Stop>
    ensures { Reads (λ z. z) O.octets (O.octets octets) result (member_at class number signed_at) }
{
    let left = octets.len();
    let (len, contents) = head(octets, class, number)?;
    match take_signed(contents, len) {
        Ok(read) => Ok(read),
        Err(kind) => Err(Stop::new(Why::Fault(kind), left)),
    }
}

/// Reads the octets of an application OctetString.
#[tactic(auto, unfolding(crate::specs::Reading::member_at))]
#[inline(always)]
pub(crate) fn string<O: Octets>(octets: O) -> Result<(O, O), Stop>
    ensures reads { Reads O.octets O.octets (O.octets octets) result (member_at Class.Application 6 (kind_at 6)) }
    ensures onward { IfOk result (λ r. length (O.octets r.1) < length (O.octets octets)) }
{
    let left = octets.len();
    let (len, contents) = head(octets, Class::Application, kinds::OCTET_STRING)?;
    match take_contents(contents, kinds::OCTET_STRING, len) {
        Ok(read) => Ok(read),
        Err(kind) => Err(Stop::new(Why::Fault(kind), left)),
    }
}

/// Reads data between a pair of tags with number 3.
#[tactic(auto, unfolding(crate::specs::Reading::enclosed_at, crate::specs::Reading::values_at))]
#[inline(always)]
pub(crate) fn enclosed_values<O: Octets>(octets: O) -> Result<(O, O), Stop>
    ensures { Reads O.octets O.octets (O.octets octets) result (enclosed_at 3 values_at) }
{
    let inside = opening(octets, 3)?;
    let left = inside.len();
    match take_data(inside) {
        Ok((values, rest)) => {
            let rest = closing(rest, 3)?;
            Ok((values, rest))
        }
        Err(fault) => Err(Stop::new(Why::Fault(fault.kind), left - fault.at)),
    }
}
