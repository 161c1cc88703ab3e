//! Bit strings as texts of digits (clause 20.2.10).
ghost use Rattle.std.specs.Prelude.{◌≡◌, ◌+◌, [], IfOk, if◌then◌else◌};
ghost use Rattle.bac_value.specs.Views.{value_view};
ghost use Rattle.toml.specs.View.{view};
ghost use Rattle.bac_objects.specs.Answers.{Reads};
ghost use Rattle.bac_objects.specs.Bits.{after_bit as after_bit_of, bits_of, fresh as fresh_of, packed as packed_of, string_of, whole as whole_of, with_digit as with_digit_of};
ghost use Rattle.bac_objects.specs.Views.{packing_view};

use crate::fault::ValueFault;
use crate::packing::Packing;
use crate::problem::{Given, Problem, Wanted};
use crate::scalars::text;
use bac_value::{BitString, Value};
use std::alloc::{AllocError, Global};

fn fresh(octets: Vec<u8>) -> Packing
    ensures { packing_view result ≡ fresh_of octets.items }
{
    Packing {
        octets,
        left: 8,
        weight: 128,
        octet: 0,
    }
}

/// Adds a bit that makes the last octet this value.
fn after_bit(packing: Packing, is_set: bool) -> Result<Packing, AllocError>
    ensures { IfOk result (λ p. packing_view p ≡ after_bit_of (packing_view packing) (if is_set then packing.octet + packing.weight else packing.octet)) }
{
    let Packing {
        mut octets,
        left,
        weight,
        mut octet,
    } = packing;
    if is_set {
        octet += weight;
    }
    if left == 1 {
        octets.push(octet)?;
        return Ok(fresh(octets));
    }
    Ok(Packing {
        octets,
        left: left - 1,
        weight: weight / 2,
        octet,
    })
}

fn with_digit(packing: Packing, digit: u8) -> Result<Packing, ValueFault>
    ensures { Reads packing_view result (with_digit_of digit (packing_view packing)) }
{
    match digit {
        b'0' => Ok(after_bit(packing, false)?),
        b'1' => Ok(after_bit(packing, true)?),
        _ => Err(ValueFault::Wrong(Problem {
            wanted: Wanted::Bits,
            given: Given::Other,
        })),
    }
}

fn packed(alloc: Global, digits: &[u8]) -> Result<Packing, ValueFault>
    ensures { Reads packing_view result (packed_of (fresh_of []) digits.now) }
{
    let mut packing = fresh(Vec::new(alloc));
    for digit in digits {
        packing = with_digit(packing, *digit)?;
    }
    Ok(packing)
}

fn string(unused: u8, octets: Vec<u8>) -> Result<Value, ValueFault>
    ensures { Reads value_view result (string_of unused octets.items) }
{
    match BitString::new(unused, octets) {
        Some(string) => Ok(Value::BitString(string)),
        None => Err(ValueFault::Wrong(Problem {
            wanted: Wanted::ShortValue,
            given: Given::More,
        })),
    }
}

/// The bit string; the bits that are missing in the last octet are unused.
fn whole(packing: Packing) -> Result<Value, ValueFault>
    ensures { Reads value_view result (whole_of (packing_view packing)) }
{
    let Packing {
        mut octets,
        left,
        weight: _,
        octet,
    } = packing;
    if left == 8 {
        return string(0, octets);
    }
    octets.push(octet)?;
    string(left, octets)
}

/// Reads a bit string from a text of digits 0 and 1.
#[tactic(auto, unfolding(crate::specs::Bits::bits_of))]
pub(crate) fn bits(alloc: Global, value: &toml::Value) -> Result<Value, ValueFault>
    ensures { Reads value_view result (bits_of (view value.now)) }
{
    let text = text(Wanted::Bits, value)?;
    let packing = packed(alloc, text.as_bytes())?;
    whole(packing)
}
