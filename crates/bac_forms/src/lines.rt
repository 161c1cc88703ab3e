//! Lines of Base64, a datagram on each.
ghost use Rattle.std.specs.Prelude.{◌≡◌, ◌∷◌, [], ◌<◌, ◌≤◌, ◌+◌, ◌^◌, length, Ok, IfOk, IfErr, OnOk, MatchOption};
ghost use Rattle.std.specs.List.{position};
ghost use Rattle.std.specs.Option.{option_map};
ghost use Rattle.bac_forms.specs.Base64.{base64_whole, is_line_end, line_at, lines_of, place_in, with_line, without_return};
ghost use Rattle.bac_forms.specs.Reading.{IsMisfit, IsWithin, octets_of};

use crate::fault::ScanFault;
use bac_value_text::parts_at;
use base64::engine::general_purpose::STANDARD;
use base64::{DecodeAllocError, DecodeError};
use std::alloc::Global;

/// The place of the first end of a line.
fn end_in(text: &[u8]) -> Option<usize>
    ensures { result ≡ position is_line_end text.now }
{
    text.iter().position(|octet| *octet == b'\n')
}

/// The first line, and what stands behind its end; None where the text is one line.
#[tactic(auto, using(crate::proofs::TextLines::one_line, crate::proofs::TextLines::at_an_end))]
fn first_line(text: &[u8]) -> Option<(&[u8], &[u8])>
    ensures { MatchOption result (lines_of text.now ≡ text.now ∷ [])
        (λ r. (length text.now ≡ length r.0.now + 1 + length r.1.now) × (lines_of text.now ≡ r.0.now ∷ lines_of r.1.now)) }
{
    match end_in(text) {
        Some(end) => Some((&text[..end], &text[end + 1..])),
        None => None,
    }
}

/// The line without the carriage return at its end.
fn without_return(line: &[u8]) -> &[u8]
    ensures { result.now ≡ without_return line.now }
{
    match parts_at(b'\r', line) {
        Some((front, [])) => front,
        _ => line,
    }
}

/// How many characters of a line stand before the first that does not fit.
fn place_in(line: &[u8], error: DecodeError) -> usize
    ensures is { result ≡ place_in line.now error }
    ensures within { result ≤ length line.now }
{
    match error {
        DecodeError::InvalidByte(offset, _)
        | DecodeError::InvalidLength(offset)
        | DecodeError::InvalidLastSymbol { offset, .. } => offset.min(line.len()),
        DecodeError::InvalidPadding => line.len(),
    }
}

/// The datagram of a line; None of a blank one.
fn read_line(alloc: Global, line: &[u8]) -> Result<Option<Vec<u8>>, ScanFault>
    ensures datagram { IfOk result (λ d. line_at line.now ≡ Ok (option_map (λ v. v.items) d)) }
    ensures misfit { IfErr result (IsMisfit (line_at line.now)) }
    ensures within { IfErr result (IsWithin (length line.now)) }
{
    let symbols = without_return(line);
    if symbols.is_empty() {
        return Ok(None);
    }
    match STANDARD.decode(alloc, symbols) {
        Ok(datagram) => Ok(Some(datagram)),
        Err(DecodeAllocError::DecodeError(error)) => Err(ScanFault::At(place_in(line, error))),
        Err(DecodeAllocError::OutOfMemory) => Err(ScanFault::NoMemory),
    }
}

/// Reads the line, which begins at that place, and adds its datagram to those before it.
fn add_line(
    alloc: Global,
    place: usize,
    line: &[u8],
    datagrams: &mut Vec<Vec<u8>>,
) -> Result<(), ScanFault>
    requires { place + length line.now < 2 ^ 64 }
    ensures datagrams { OnOk result (with_line place (line_at line.now) (octets_of datagrams.old.items) ≡ Ok (octets_of datagrams.new.items)) }
    ensures misfit { IfErr result (IsMisfit (with_line place (line_at line.now) (octets_of datagrams.old.items))) }
{
    match read_line(alloc, line) {
        Ok(None) => Ok(()),
        Ok(Some(datagram)) => match datagrams.push(datagram) {
            Ok(()) => Ok(()),
            Err(_) => Err(ScanFault::NoMemory),
        },
        Err(ScanFault::At(offset)) => Err(ScanFault::At(place + offset)),
        Err(ScanFault::NoMemory) => Err(ScanFault::NoMemory),
    }
}

/// The datagrams of a text, one on each line that is not blank.
pub(crate) fn read_base64(alloc: Global, text: &[u8]) -> Result<Vec<Vec<u8>>, ScanFault>
    ensures datagrams { IfOk result (λ d. base64_whole text.now ≡ Ok (octets_of d.items)) }
    ensures misfit { IfErr result (IsMisfit (base64_whole text.now)) }
{
    let mut datagrams = Vec::new(alloc);
    let mut rest = text;
    while let Some((line, others)) = first_line(rest) {
        add_line(alloc, text.len() - rest.len(), line, &mut datagrams)?;
        rest = others;
    }
    add_line(alloc, text.len() - rest.len(), rest, &mut datagrams)?;
    Ok(datagrams)
}
