//! Names of the standard, and their numbers.
ghost use Rattle.std.specs.Prelude.{◌≡◌};
ghost use Rattle.std.specs.Option.{option_map};
ghost use Rattle.bac_c.specs.Names.{name_of as plain_name, number_of as plain_number, octets_of, IsNumberTold};
ghost use Rattle.bac_c.specs.Results.{IsCopied};

use crate::copying::copy_out;
use bac_value_text::{
    abort_reason_name, error_class_name, error_code_name, object_type_name, object_type_named,
    property_name, property_named, reject_reason_name,
};

/// The name of a number of this kind.
fn name_of(kind: u32, number: u32) -> Option<&'static str>
    ensures { option_map (λ s. s.now) result ≡ plain_name kind number }
{
    match kind {
        0 => object_type_name(number),
        1 => property_name(number),
        2 => error_class_name(number),
        3 => error_code_name(number),
        4 => reject_reason_name(number),
        5 => abort_reason_name(number),
        _ => None,
    }
}

/// The number of a name of this kind.
fn number_of(kind: u32, name: &[u8]) -> Option<u32>
    ensures { result ≡ plain_number kind name.now }
{
    match kind {
        0 => object_type_named(name),
        1 => property_named(name),
        _ => None,
    }
}

/// Copies the name of a number out: how many octets it has, 0 where the standard has none. The kinds are 0 object types, 1 properties, 2 error classes, 3 error
/// codes, 4 reasons of a Reject and 5 reasons of an Abort.
#[unsafe(no_mangle)]
#[tactic(auto, using(crate::proofs::Copies::none_copied))]
pub extern "C" fn bac_name(kind: u32, number: u32, out: &mut [u8]) -> usize
    ensures { IsCopied (octets_of (plain_name kind number)) out.old result out.new }
{
    match name_of(kind, number) {
        Some(name) => copy_out(name.as_bytes(), out),
        None => 0,
    }
}

/// The number of a name; 4,294,967,295 where the standard has none. The kinds are 0 object types and 1 properties.
#[unsafe(no_mangle)]
pub extern "C" fn bac_number(kind: u32, name: &[u8]) -> u32
    ensures { IsNumberTold (plain_number kind name.now) result }
{
    number_of(kind, name).unwrap_or(u32::MAX)
}
