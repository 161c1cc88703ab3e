//! Octets as people copy them: in groups of hexadecimal digits.
ghost use Rattle.std.specs.Prelude.{◌≡◌, ◌<◌, [], ◌∷◌, length, IfOk, MatchOption};
ghost use Rattle.std.specs.List.{position};
ghost use Rattle.std.specs.Option.{option_map};
ghost use Rattle.bac_text.specs.Groups.{digits_of, groups_of, is_gap, octets_in};

use crate::digits::read_digits;
use std::alloc::{AllocError, Global};

/// The place of the first gap between groups.
fn gap_in(text: &[u8]) -> Option<usize>
    ensures { result ≡ position is_gap text.now }
{
    text.iter().position(|octet| *octet == b' ' || *octet == b'\t' || *octet == b':')
}

/// The first group and what stands behind the gap after it.
#[tactic(auto, using(crate::proofs::Gaps::no_gap, crate::proofs::Gaps::at_gap))]
fn first_group(text: &[u8]) -> Option<(&[u8], &[u8])>
    ensures { MatchOption result (groups_of text.now ≡ text.now ∷ [])
        (λ r. (length r.1.now < length text.now) × (groups_of text.now ≡ r.0.now ∷ groups_of r.1.now)) }
{
    match gap_in(text) {
        Some(end) => Some((&text[..end], &text[end + 1..])),
        None => None,
    }
}

/// The digits of a group, before which `0x` may stand.
fn digits_of(group: &[u8]) -> &[u8]
    ensures { result.now ≡ digits_of group.now }
{
    match group {
        [zero, mark, digits @ ..] if *zero == b'0' && *mark == b'x' => digits,
        _ => group,
    }
}

/// The octets that a text is. It has hexadecimal digits of either case, in groups of whole octets with spaces, tabs or colons between them. `0x` may
/// stand before a group. None where it is none such, and an Err only where memory ran out.
pub fn octets_in(alloc: Global, text: &[u8]) -> Result<Option<Vec<u8>>, AllocError>
    ensures { IfOk result (λ o. option_map (λ v. v.items) o ≡ octets_in text.now) }
{
    let mut octets = Vec::new(alloc);
    let mut part = Vec::new(alloc);
    let mut rest = text;
    while let Some((group, others)) = first_group(rest) {
        if !read_digits(digits_of(group), &mut part)? {
            return Ok(None);
        }
        octets.extend_from_slice(&part)?;
        rest = others;
    }
    if !read_digits(digits_of(rest), &mut part)? {
        return Ok(None);
    }
    octets.extend_from_slice(&part)?;
    Ok(Some(octets))
}
