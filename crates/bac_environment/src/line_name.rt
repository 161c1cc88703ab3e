//! The name of a line of a list, which stands before all else: `flow: read analog-input:5 present-value`.
ghost use Rattle.std.specs.Prelude.{◌≡◌, false, map, true, IfErr, IfOk, MatchOption};
ghost use Rattle.std.specs.List.{list_all};
ghost use Rattle.std.specs.Option.{option_map};
ghost use Rattle.bac_environment.specs.LineNames.{has_bad_name, is_name, is_name_octet, is_naming, name_in, name_of, words_behind};

use crate::line_words::is_address;
use std::str;

/// Whether an octet may stand in a name: a letter, a digit, `_`, `-` or `.`.
fn is_name_octet(octet: u8) -> bool
    ensures { result ≡ is_name_octet octet }
{
    octet.is_ascii_alphanumeric() || octet == b'_' || octet == b'-' || octet == b'.'
}

fn are_name_octets(text: &[u8]) -> bool
    ensures { result ≡ list_all is_name_octet text.now }
{
    text.iter().all(|octet| is_name_octet(*octet))
}

fn is_name(text: &[u8]) -> bool
    ensures { result ≡ is_name text.now }
{
    !text.is_empty() && are_name_octets(text)
}

/// Whether a word stands where a name does: it ends with a colon, and names no peer.
fn is_naming(word: &[u8]) -> bool
    ensures { result ≡ is_naming word.now }
{
    match word.split_last() {
        Some((octet, _)) => *octet == b':' && !is_address(word),
        None => false,
    }
}

/// The words of a line.
#[derive(Clone, Copy)]
pub(crate) struct NamedWords<'w, 'a> {
    /// The line's name, if it has one.
    pub name: Option<&'a str>,
    /// The words behind it.
    pub words: &'w [&'a [u8]],
}

/// The name that these octets are. None where they are none.
#[tactic(auto, using(crate::proofs::LineNames::name_is_text))]
fn name_text(octets: &[u8]) -> Option<&str>
    ensures { MatchOption result (is_name octets.now ≡ false) (λ t. t.now ≡ octets.now) }
{
    if !is_name(octets) {
        return None;
    }
    match str::from_utf8(octets) {
        Ok(text) => Some(text),
        Err(_) => None,
    }
}

/// The name in a word that ends with a colon. None where it is none.
#[tactic(auto, using(crate::proofs::LineNames::name_front))]
fn name_in(word: &[u8]) -> Option<&str>
    ensures { MatchOption result (is_name (name_in word.now) ≡ false) (λ t. t.now ≡ name_in word.now) }
{
    let (_, octets) = word.split_last()?;
    name_text(octets)
}

/// The name of a line with these words, and the words behind it. An Err has the word that stands where a name does, and is none.
pub(crate) fn named_words<'w, 'a>(words: &'w [&'a [u8]]) -> Result<NamedWords<'w, 'a>, &'a [u8]>
    ensures name { IfOk result (λ n. option_map (λ t. t.now) n.name ≡ name_of (map (λ w. w.now) words.now)) }
    ensures words { IfOk result (λ n. map (λ w. w.now) n.words.now ≡ words_behind (map (λ w. w.now) words.now)) }
    ensures bad { IfErr result (λ _. has_bad_name (map (λ w. w.now) words.now) ≡ true) }
{
    let Some((word, others)) = words.split_first() else {
        return Ok(NamedWords { name: None, words });
    };
    if !is_naming(*word) {
        return Ok(NamedWords { name: None, words });
    }
    match name_in(*word) {
        Some(name) => Ok(NamedWords {
            name: Some(name),
            words: others,
        }),
        None => Err(*word),
    }
}
