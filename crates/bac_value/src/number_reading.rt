//! Reading numbers and object identifiers from contents (clauses 20.2.4, 20.2.5, 20.2.11 and 20.2.14).
ghost use Rattle.std.specs.Prelude.{◌≡◌, ◌<◌, ◌≤◌, ◌+◌, ◌-◌, ◌*◌, ◌/◌, ◌%◌, ◌^◌, length};
ghost use Rattle.bac_value.specs.Number.{number_in, signed_in};
ghost use Rattle.bac_value.specs.Steps.{Reads};
ghost use Rattle.bac_value.specs.Reading.{number_at, signed_at, object_at};
ghost use Rattle.bac_value.specs.Views.{object_identifier_view};

use crate::contents::take_contents;
use crate::fault::FaultKind;
use crate::kinds;
use crate::number_width::greatest_in;
use crate::octets::{Octets, copy_to};
use crate::value::ObjectIdentifier;

/// The number in at most 8 octets, most significant first.
pub(crate) fn number_of<O: Octets>(octets: O) -> u64
    requires { length (O.octets octets) ≤ 8 }
    ensures is { result ≡ number_in (O.octets octets) }
    ensures small { result < 256 ^ length (O.octets octets) }
{
    let mut eight = [0u8; 8];
    copy_to(octets, &mut eight[8 - octets.len()..]);
    u64::from_be_bytes(eight)
}

/// The number in 1 to 8 octets of two's complement.
pub(crate) fn signed_of<O: Octets>(octets: O) -> i64
    requires some { 0 < length (O.octets octets) }
    requires most { length (O.octets octets) ≤ 8 }
    ensures { result ≡ signed_in (O.octets octets) }
{
    let number = number_of(octets);
    let greatest = greatest_in(octets.len());
    if number <= greatest / 2 {
        number as i64
    } else {
        -1 - (greatest - number) as i64
    }
}

/// Reads an Unsigned from `len` octets of contents (clause 20.2.4), and returns it and the octets after it.
#[tactic(auto, unfolding(crate::specs::Reading::number_at))]
pub fn take_unsigned<O: Octets>(octets: O, len: usize) -> Result<(u64, O), FaultKind>
    ensures { Reads (λ n. n) O.octets (O.octets octets) result (number_at 2 len) }
{
    let (contents, rest) = take_contents(octets, kinds::UNSIGNED, len)?;
    Ok((number_of(contents), rest))
}

/// Reads an Enumerated from `len` octets of contents (clause 20.2.11), and returns it and the octets after it.
#[tactic(auto, unfolding(crate::specs::Reading::number_at))]
pub fn take_enumerated<O: Octets>(octets: O, len: usize) -> Result<(u32, O), FaultKind>
    ensures { Reads (λ n. n) O.octets (O.octets octets) result (number_at 9 len) }
{
    let (contents, rest) = take_contents(octets, kinds::ENUMERATED, len)?;
    let number = number_of(contents);
    Ok((number as u32, rest))
}

/// Reads a Signed from `len` octets of contents (clause 20.2.5), and returns it and the octets after it.
#[tactic(auto, unfolding(crate::specs::Reading::signed_at))]
pub fn take_signed<O: Octets>(octets: O, len: usize) -> Result<(i64, O), FaultKind>
    ensures { Reads (λ z. z) O.octets (O.octets octets) result (signed_at len) }
{
    let (contents, rest) = take_contents(octets, kinds::SIGNED, len)?;
    Ok((signed_of(contents), rest))
}

/// The object identifier in 4 octets.
pub(crate) fn object_of<O: Octets>(octets: O) -> ObjectIdentifier
    requires { length (O.octets octets) ≡ 4 }
    ensures kind { result.kind ≡ number_in (O.octets octets) / 2 ^ 22 }
    ensures instance { result.instance ≡ number_in (O.octets octets) % 2 ^ 22 }
{
    let number = number_of(octets);
    ObjectIdentifier {
        kind: (number / 0x40_0000) as u16,
        instance: (number % 0x40_0000) as u32,
    }
}

/// Reads an ObjectIdentifier from `len` octets of contents (clause 20.2.14), and returns it and the octets after it.
#[tactic(auto, unfolding(crate::specs::Reading::object_at))]
pub fn take_object_identifier<O: Octets>(
    octets: O,
    len: usize,
) -> Result<(ObjectIdentifier, O), FaultKind>
    ensures { Reads object_identifier_view O.octets (O.octets octets) result (object_at len) }
{
    let (contents, rest) = take_contents(octets, kinds::OBJECT_IDENTIFIER, len)?;
    Ok((object_of(contents), rest))
}
