//! Numbers and bits by their names.
ghost use Rattle.std.specs.Prelude.{◌≡◌, ◌++◌, IfOk, OnOk, string_bytes};
ghost use Rattle.std.specs.Option.{option_map};
ghost use Rattle.bac_point_text.specs.Alone.{name_among, name_or_number, bit_text, behind_comma, set_from, set_names};
ghost use Rattle.bac_point_text.specs.Views.{maybe_names, names_view};

use crate::enumeration::Enumeration;
use std::alloc::{AllocError, Global};

/// The name of a number, where there are names.
fn name_among(names: Option<Enumeration>, number: u32) -> Option<&'static str>
    ensures { option_map (λ s. s.now) result ≡ name_among (maybe_names names) number }
{
    names?.name_of(number)
}

/// The name of a number, or its digits where it has no name.
pub(crate) fn name_or_number(
    alloc: Global,
    names: Option<Enumeration>,
    number: u32,
) -> Result<String, AllocError>
    ensures { IfOk result (λ t. string_bytes t ≡ name_or_number (maybe_names names) number) }
{
    match name_among(names, number) {
        Some(name) => String::from_str(alloc, name),
        None => format!(in alloc; "{number}"),
    }
}

/// The name of a bit behind a comma, if its digit says that it is set.
fn bit_text(alloc: Global, names: Enumeration, place: u32, digit: u8) -> Result<Vec<u8>, AllocError>
    ensures { IfOk result (λ t. t.items ≡ bit_text (names_view names) place digit) }
{
    if digit != b'1' {
        return Ok(Vec::new(alloc));
    }
    let name = name_or_number(alloc, Some(names), place)?;
    let text = format!(in alloc; ",{name}")?;
    Ok(text.into_bytes())
}

/// The names of all bits that are set, each behind a comma.
#[tactic(auto, using(crate::proofs::SetBits::set_step))]
fn all_set(alloc: Global, names: Enumeration, digits: &[u8]) -> Result<Vec<u8>, AllocError>
    ensures { IfOk result (λ t. t.items ≡ set_from (names_view names) 0 digits.now) }
{
    let mut text = Vec::new(alloc);
    let mut place = 0u32;
    for digit in digits {
        let bit = bit_text(alloc, names, place, *digit)?;
        text.extend_from_slice(&bit)?;
        place = place.saturating_add(1);
    }
    Ok(text)
}

/// What stands behind the first comma; `none` for nothing.
fn behind_comma(text: &[u8]) -> &[u8]
    ensures { result.now ≡ behind_comma text.now }
{
    match text {
        [] => b"none",
        [_, others @ ..] => others,
    }
}

/// The names of the bits that are set, separated by commas; `none` where none is. Each bit has a digit in `digits`.
pub(crate) fn set_names(
    alloc: Global,
    names: Enumeration,
    digits: &[u8],
) -> Result<Vec<u8>, AllocError>
    ensures { IfOk result (λ t. t.items ≡ set_names (names_view names) digits.now) }
{
    let text = all_set(alloc, names, digits)?;
    Vec::from_slice(alloc, behind_comma(&text))
}
