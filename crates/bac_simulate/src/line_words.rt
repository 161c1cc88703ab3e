//! The words of a line.
ghost use Rattle.std.specs.Prelude.{◌≡◌, ◌<◌, [], ◌∷◌, length, map, IfOk, MatchOption};
ghost use Rattle.std.specs.List.{position};
ghost use Rattle.bac_simulate.specs.LineWords.{is_space, words_of};

use std::alloc::{AllocError, Global};

/// The place of the first space.
fn space_in(text: &[u8]) -> Option<usize>
    ensures { result ≡ position is_space text.now }
{
    text.iter().position(|octet| *octet == b' ')
}

/// The first word of a line and the rest of it, where a space is between them.
#[tactic(auto, using(crate::proofs::Separated::no_space, crate::proofs::Separated::at_space))]
fn first_word(line: &[u8]) -> Option<(&[u8], &[u8])>
    ensures { MatchOption result (words_of line.now ≡ line.now ∷ [])
        (λ r. (length r.1.now < length line.now) × (words_of line.now ≡ r.0.now ∷ words_of r.1.now)) }
{
    match space_in(line) {
        Some(end) => Some((&line[..end], &line[end + 1..])),
        None => None,
    }
}

/// The words of a line, separated by single spaces.
pub(crate) fn words_in(alloc: Global, line: &[u8]) -> Result<Vec<&[u8]>, AllocError>
    ensures { IfOk result (λ words. map (λ w. w.now) words.items ≡ words_of line.now) }
{
    let mut words = Vec::new(alloc);
    let mut rest = line;
    while let Some((word, others)) = first_word(rest) {
        words.push(word)?;
        rest = others;
    }
    words.push(rest)?;
    Ok(words)
}
