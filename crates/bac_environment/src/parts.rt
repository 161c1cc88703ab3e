//! The parts of a text: its lines, and the words of a line.
ghost use Rattle.std.specs.Prelude.{◌≡◌, ◌<◌, [], ◌∷◌, length, map, IfOk, MatchOption};
ghost use Rattle.std.specs.List.{position};
ghost use Rattle.bac_value_text.specs.Splits.{split_by};
ghost use Rattle.bac_environment.specs.QuestionLines.{is_octet};

use std::alloc::{AllocError, Global};

/// The place of the first such octet.
fn octet_in(wanted: u8, text: &[u8]) -> Option<usize>
    ensures { result ≡ position (is_octet wanted) text.now }
{
    text.iter().position(|octet| *octet == wanted)
}

/// What stands before the first such octet, and what comes after it; None where there is none.
#[tactic(auto, using(crate::proofs::Separated::no_octet, crate::proofs::Separated::at_octet))]
fn first_part(wanted: u8, text: &[u8]) -> Option<(&[u8], &[u8])>
    ensures { MatchOption result (split_by (is_octet wanted) text.now ≡ text.now ∷ [])
        (λ r. (length r.1.now < length text.now) × (split_by (is_octet wanted) text.now ≡ r.0.now ∷ split_by (is_octet wanted) r.1.now)) }
{
    match octet_in(wanted, text) {
        Some(end) => Some((&text[..end], &text[end + 1..])),
        None => None,
    }
}

/// The parts of a text between such octets; where two of them stand side by side, an empty one. An Err says that memory was refused.
pub(crate) fn parts_of(alloc: Global, wanted: u8, text: &[u8]) -> Result<Vec<&[u8]>, AllocError>
    ensures { IfOk result (λ parts. map (λ p. p.now) parts.items ≡ split_by (is_octet wanted) text.now) }
{
    let mut parts = Vec::new(alloc);
    let mut rest = text;
    while let Some((part, others)) = first_part(wanted, rest) {
        parts.push(part)?;
        rest = others;
    }
    parts.push(rest)?;
    Ok(parts)
}
