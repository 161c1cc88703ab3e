//! Names of the standard in place of numbers (clause 21).
ghost use Rattle.std.specs.Prelude.{◌≡◌};
ghost use Rattle.bac_objects.specs.Names.{has_bits as are_bits, is_bare as is_bare_of, names_of as names_in};
ghost use Rattle.bac_point_text.specs.Views.{maybe_names};
ghost use Rattle.toml.specs.View.{view};

use bac_point_text::{Enumeration, enumeration_of};
use toml::Value;

/// Whether the names of a property are those of bits: acked-transitions, ack-required, event-enable, limit-enable, protocol-object-types-supported,
/// protocol-services-supported, status-flags, audit-priority-filter and auditable-operations.
pub(crate) fn has_bits(property: u32) -> bool
    ensures { result ≡ are_bits property }
{
    matches!(property, 0 | 1 | 35 | 52 | 96 | 97 | 111 | 500 | 501)
}

/// The names of the numbers that a property of an object of this type has. None where the standard has no names for them.
#[tactic(auto, unfolding(crate::specs::Names::names_of))]
pub(crate) fn names_of(kind: u16, property: u32) -> Option<Enumeration>
    ensures { maybe_names result ≡ names_in kind property }
{
    if has_bits(property) {
        None
    } else {
        enumeration_of(kind, property)
    }
}

/// Whether a text stands in place of the table of a property whose numbers have names.
pub(crate) fn is_bare(names: Option<Enumeration>, value: &Value) -> bool
    ensures { result ≡ is_bare_of (maybe_names names) (view value.now) }
{
    match names {
        Some(_) => value.as_str().is_some(),
        None => false,
    }
}
