//! The error codes by number (BACnetError, error-code).
ghost use Rattle.std.specs.Prelude.{◌≡◌};
ghost use Rattle.std.specs.Option.{option_map};
ghost use Rattle.bac_value_text.specs.Names.{name_in as name_of};
ghost use Rattle.bac_value_text.specs.ErrorCodes.{ERROR_CODES};

mod a_to_c;
mod d_to_k;
mod l_to_r;
mod s_to_z;

use crate::rows::name_in;

/// The name of an error code; None if the standard has no code with this number, or has removed it (33).
#[tactic(auto, using(crate::proofs::Appended::name_in_both, crate::proofs::Appended::option_map_or))]
pub fn error_code_name(number: u32) -> Option<&'static str>
    ensures { option_map (λ s. s.now) result ≡ name_of ERROR_CODES number }
{
    name_in(a_to_c::rows(), number)
        .or(name_in(d_to_k::rows(), number))
        .or(name_in(l_to_r::rows(), number))
        .or(name_in(s_to_z::rows(), number))
}
