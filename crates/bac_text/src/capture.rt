//! Lines of a capture.
ghost use Rattle.std.specs.Prelude.{◌≡◌, IfOk};
ghost use Rattle.std.specs.Option.{option_map};
ghost use Rattle.std.specs.List.{list_all, position};
ghost use Rattle.std.specs.Char.{is_ascii_digit, is_ascii_hexdigit};
ghost use Rattle.bac_text.specs.Capture.{is_space, word_at, is_link, moment_at, parts_at, capture_at};

use crate::digits::read_digits;
use std::alloc::{AllocError, Global};

/// A datagram as it was captured.
#[derive(Debug, Drop)]
pub struct CaptureLine {
    /// When it was seen, in milliseconds.
    pub moment: u64,
    /// Its octets, from the BVLL on.
    pub datagram: Vec<u8>,
}

fn are_digits(text: &[u8]) -> bool
    ensures { result ≡ list_all is_ascii_digit text.now }
{
    text.iter().all(|digit| digit.is_ascii_digit())
}

fn are_hexdigits(text: &[u8]) -> bool
    ensures { result ≡ list_all is_ascii_hexdigit text.now }
{
    text.iter().all(|digit| digit.is_ascii_hexdigit())
}

/// The place of the first space.
fn space_in(text: &[u8]) -> Option<usize>
    ensures { result ≡ position is_space text.now }
{
    text.iter().position(|octet| *octet == b' ')
}

/// A decimal number of digits alone that has at most 64 bits.
fn moment_in(text: &[u8]) -> Option<u64>
    ensures { result ≡ moment_at text.now }
{
    if !are_digits(text) {
        return None;
    }
    match std::str::from_utf8(text) {
        Ok(text) => text.parse().ok(),
        Err(_) => None,
    }
}

/// Whether some text is the address of a link: 12 hexadecimal digits.
fn is_link(text: &[u8]) -> bool
    ensures { result ≡ is_link text.now }
{
    text.len() == 12 && are_hexdigits(text)
}

/// The front of some text up to a space, and what is after the space.
fn word(text: &[u8]) -> Option<(&[u8], &[u8])>
    ensures { option_map (λ r. (r.0.now, r.1.now)) result ≡ word_at text.now }
{
    let end = space_in(text)?;
    Some((&text[..end], &text[end + 1..]))
}

/// The moment and the text of the datagram of a line `moment from to hex`.
#[tactic(auto, unfolding(crate::specs::Capture::parts_at))]
fn parts_in(line: &[u8]) -> Option<(u64, &[u8])>
    ensures { option_map (λ r. (r.0, r.1.now)) result ≡ parts_at line.now }
{
    let (moment, rest) = word(line)?;
    let (from, rest) = word(rest)?;
    let (to, datagram) = word(rest)?;
    if is_link(from) && is_link(to) {
        Some((moment_in(moment)?, datagram))
    } else {
        None
    }
}

/// Reads a line as `read_capture_line` does: answers its moment, and puts its datagram in the place of what `datagram` has.
#[tactic(auto, unfolding(crate::specs::Capture::capture_at))]
pub(crate) fn read_into(line: &[u8], datagram: &mut Vec<u8>) -> Result<Option<u64>, AllocError>
    ensures { IfOk result (λ m. option_map (λ moment. (moment, datagram.new.items)) m ≡ capture_at line.now) }
{
    let Some((moment, text)) = parts_in(line) else {
        return Ok(None);
    };
    if read_digits(text, datagram)? {
        Ok(Some(moment))
    } else {
        Ok(None)
    }
}

/// Reads a line `moment from to hex`, without its end: a decimal moment, two addresses of 12 hexadecimal digits and a datagram
/// in hexadecimal, separated by single spaces. None where the line is none such, and an Err only where memory ran out.
pub fn read_capture_line(alloc: Global, line: &[u8]) -> Result<Option<CaptureLine>, AllocError>
    ensures { IfOk result (λ c. option_map (λ l. (l.moment, l.datagram.items)) c ≡ capture_at line.now) }
{
    let mut datagram = Vec::new(alloc);
    match read_into(line, &mut datagram)? {
        Some(moment) => Ok(Some(CaptureLine { moment, datagram })),
        None => Ok(None),
    }
}
