//! The properties by name and by number (BACnetPropertyIdentifier).
ghost use Rattle.std.specs.Prelude.{◌≡◌};
ghost use Rattle.std.specs.Option.{option_map};
ghost use Rattle.bac_value_text.specs.Names.{name_in as name_of, number_in as number_of};
ghost use Rattle.bac_value_text.specs.Properties.{PROPERTIES};

mod a_to_b;
mod c;
mod d_to_e;
mod f_to_l;
mod m_to_n;
mod o_to_p;
mod r_to_s;
mod t_to_z;

use crate::rows::{name_in, number_in};

/// The number of a property, for example of `present-value`; None if the standard has no property with this name.
pub fn property_number(name: &str) -> Option<u32>
    ensures { result ≡ number_of PROPERTIES name.now }
{
    property_named(name.as_bytes())
}

/// The number of a property, from the octets of its name.
#[tactic(auto, using(crate::proofs::Appended::number_in_both))]
pub fn property_named(name: &[u8]) -> Option<u32>
    ensures { result ≡ number_of PROPERTIES name.now }
{
    number_in(a_to_b::rows(), name)
        .or(number_in(c::rows(), name))
        .or(number_in(d_to_e::rows(), name))
        .or(number_in(f_to_l::rows(), name))
        .or(number_in(m_to_n::rows(), name))
        .or(number_in(o_to_p::rows(), name))
        .or(number_in(r_to_s::rows(), name))
        .or(number_in(t_to_z::rows(), name))
}

/// The name of a property; None if the standard has no property with this number, or has removed it.
#[tactic(auto, using(crate::proofs::Appended::name_in_both, crate::proofs::Appended::option_map_or))]
pub fn property_name(number: u32) -> Option<&'static str>
    ensures { option_map (λ s. s.now) result ≡ name_of PROPERTIES number }
{
    name_in(a_to_b::rows(), number)
        .or(name_in(c::rows(), number))
        .or(name_in(d_to_e::rows(), number))
        .or(name_in(f_to_l::rows(), number))
        .or(name_in(m_to_n::rows(), number))
        .or(name_in(o_to_p::rows(), number))
        .or(name_in(r_to_s::rows(), number))
        .or(name_in(t_to_z::rows(), number))
}
