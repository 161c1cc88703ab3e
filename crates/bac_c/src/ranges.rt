//! Numbers and octets of a C program that are in range.
ghost use Rattle.std.specs.Prelude.{◌≡◌, true, false, MatchOption};
ghost use Rattle.bac_store.specs.AtNode.{is_data};
ghost use Rattle.bac_value.specs.Views.{object_identifier_view};
ghost use Rattle.bac_c.specs.Asking.{identifier_of as plain_identifier};
ghost use Rattle.bac_c.specs.Ranges.{is_identifier};

use bac_value::{Data, ObjectIdentifier, take_data};

/// An identifier of that type and instance; None where one is out of range (clause 20.2.14).
pub fn identifier_of(object_type: u16, instance: u32) -> Option<ObjectIdentifier>
    ensures { MatchOption result (is_identifier object_type instance ≡ false)
        (λ o. (is_identifier object_type instance ≡ true) × (object_identifier_view o ≡ plain_identifier object_type instance)) }
{
    if object_type >= 1_024 || instance >= 0x40_0000 {
        return None;
    }
    Some(ObjectIdentifier {
        kind: object_type,
        instance,
    })
}

/// Octets that are data, all of them (clause 20.2).
pub fn whole_data(octets: &[u8]) -> Option<Data<'_>>
    ensures { MatchOption result (is_data octets.now ≡ false) (λ d. (is_data octets.now ≡ true) × (d.octets.now ≡ octets.now)) }
{
    match take_data(octets) {
        Ok((octets, rest)) if rest.is_empty() => Some(Data { octets }),
        _ => None,
    }
}
