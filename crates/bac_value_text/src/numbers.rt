//! Reading numbers, octets and parts of words.
ghost use Rattle.std.specs.Prelude.{◌≡◌};
ghost use Rattle.std.specs.Option.{option_map};
ghost use Rattle.std.specs.List.{list_all, position};
ghost use Rattle.std.specs.Char.{is_ascii_digit};
ghost use Rattle.bac_value_text.specs.Numbers.{is_octet, number_of, at_most, number_up_to, is_minus, negative_of, positive_of, signed_of};
ghost use Rattle.bac_value_text.specs.Numbers.{octets_of, array_of, parts_at};
ghost use Rattle.bac_value_text.specs.Reading.{Reads};

use crate::value_fault::ValueFault;
use hex::{FromHex, FromHexError};
use std::alloc::Global;

fn are_digits(word: &[u8]) -> bool
    ensures { result ≡ list_all is_ascii_digit word.now }
{
    word.iter().all(|digit| digit.is_ascii_digit())
}

/// Reads a number: one or more decimal digits and nothing else, of at most 64 bits. Returns None for all other words.
pub fn number_in(word: &[u8]) -> Option<u64>
    ensures { result ≡ number_of word.now }
{
    if are_digits(word) {
        fast_float::parse_u64(word).ok()
    } else {
        None
    }
}

/// The number, if it is at most `most`.
pub(crate) fn at_most(most: u64, number: u64) -> Option<u64>
    ensures { result ≡ at_most most number }
{
    if number <= most { Some(number) } else { None }
}

/// Reads a number that is at most `most`.
pub fn number_up_to(most: u64, word: &[u8]) -> Option<u64>
    ensures { result ≡ number_up_to most word.now }
{
    at_most(most, number_in(word)?)
}

fn is_minus(word: &[u8]) -> bool
    ensures { result ≡ is_minus word.now }
{
    match word {
        [first, ..] => *first == b'-',
        _ => false,
    }
}

#[tactic(auto, unfolding(crate::specs::Numbers::negative_of))]
fn negative(digits: &[u8]) -> Option<i64>
    ensures { result ≡ negative_of digits.now }
{
    let number = number_up_to(1 << 63, digits)?;
    0i64.checked_sub_unsigned(number)
}

#[tactic(auto, unfolding(crate::specs::Numbers::positive_of))]
fn positive(digits: &[u8]) -> Option<i64>
    ensures { result ≡ positive_of digits.now }
{
    let number = number_up_to((1 << 63) - 1, digits)?;
    Some(number as i64)
}

/// Reads a signed number of 64 bits: decimal digits with an optional minus before them. Returns None for all other words.
pub fn signed_in(word: &[u8]) -> Option<i64>
    ensures { result ≡ signed_of word.now }
{
    if is_minus(word) {
        negative(&word[1..])
    } else {
        positive(word)
    }
}

/// Reads octets in hexadecimal, in upper or lower case; an empty word has no octets. Returns `NoValue` if the word is not hexadecimal,
/// and `NoMemory` if an allocation fails.
pub fn octets_in(alloc: Global, word: &[u8]) -> Result<Vec<u8>, ValueFault>
    ensures { Reads (λ v. v.items) result (octets_of word.now) }
{
    match hex::decode(alloc, word) {
        Ok(octets) => Ok(octets),
        Err(FromHexError::OutOfMemory) => Err(ValueFault::NoMemory),
        Err(_) => Err(ValueFault::NoValue),
    }
}

/// Reads four octets in hexadecimal.
pub(crate) fn four_in(word: &[u8]) -> Option<[u8; 4]>
    ensures { result ≡ array_of 4 word.now }
{
    <[u8; 4] as FromHex>::from_hex(word).ok()
}

/// Reads eight octets in hexadecimal.
pub(crate) fn eight_in(word: &[u8]) -> Option<[u8; 8]>
    ensures { result ≡ array_of 8 word.now }
{
    <[u8; 8] as FromHex>::from_hex(word).ok()
}

fn place_of(octet: u8, word: &[u8]) -> Option<usize>
    ensures { result ≡ position (is_octet octet) word.now }
{
    word.iter().position(|other| *other == octet)
}

/// Splits a word at the first such octet, which is in neither part. Returns None if the word has no such octet.
pub fn parts_at(octet: u8, word: &[u8]) -> Option<(&[u8], &[u8])>
    ensures { option_map (λ r. (r.0.now, r.1.now)) result ≡ parts_at octet word.now }
{
    let place = place_of(octet, word)?;
    Some((&word[..place], &word[place + 1..]))
}
