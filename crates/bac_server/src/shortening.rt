//! Lines in which long octets are shown by their first ones, and long lines by their front. Objects of JSON stay objects.
ghost use Rattle.std.specs.Prelude.{◌≤◌, length};

use crate::log_settings::LogFormat;
use std::alloc::{AllocError, Global};

/// How many digits of octets are shown at most: those of 32 octets.
const MOST_DIGITS: usize = 64;

/// How many octets of a line are shown at most.
const MOST_OF_LINE: usize = 480;

/// Whether an octet is a digit of octets: those of the log are in capitals.
fn is_digit(octet: u8) -> bool {
    matches!(octet, b'0'..=b'9' | b'A'..=b'F')
}

/// How many digits stand first.
fn digits_in(text: &[u8]) -> usize
    ensures { result ≤ length text.now }
{
    match text.iter().position(|octet| !is_digit(*octet)) {
        Some(count) => count,
        None => text.len(),
    }
}

/// Appends digits; of more than 64, the first 64 and how many octets they all are.
fn add_digits(alloc: Global, digits: &[u8], short: &mut Vec<u8>) -> Result<(), AllocError> {
    if digits.len() <= MOST_DIGITS {
        return short.extend_from_slice(digits);
    }
    let octets = digits.len() / 2;
    let more = format!(in alloc; ".. ({octets} octets)")?;
    let first = &digits[..MOST_DIGITS.min(digits.len())];
    short.extend_from_slice(first)?;
    short.extend_from_slice(more.as_bytes())
}

/// Whether what stands behind a text may be digits of a text or of bits, which are no octets.
fn has_kind_of_digits(text: &[u8]) -> bool {
    text.ends_with(b" text ")
        || text.ends_with(b" bits ")
        || text.ends_with(b"\"text\",\"value\":\"")
        || text.ends_with(b"\"bits\",\"value\":\"")
}

/// How many octets stand before the end of a string of JSON.
fn string_len(text: &[u8]) -> usize
    ensures { result ≤ length text.now }
{
    let mut is_escaped = false;
    for place in 0..text.len() {
        match text[place] {
            b'"' if !is_escaped => return place,
            b'\\' => is_escaped = !is_escaped,
            _ => is_escaped = false,
        }
    }
    text.len()
}

/// How many octets stay as they are behind the kind of a value: to the end of a line, or of the string of an object.
fn kept_len(format: LogFormat, rest: &[u8]) -> usize
    ensures { result ≤ length rest.now }
{
    match format {
        LogFormat::Lines => rest.len(),
        LogFormat::Objects { .. } => string_len(rest),
    }
}

/// Appends the front of a text up to an octet that is no digit: digits, or what stays as it is. Returns what is behind it.
fn add_front<'t>(
    alloc: Global,
    format: LogFormat,
    rest: &'t [u8],
    short: &mut Vec<u8>,
) -> Result<&'t [u8], AllocError> {
    if has_kind_of_digits(short) {
        let (kept, after) = rest.split_at(kept_len(format, rest));
        short.extend_from_slice(kept)?;
        return Ok(after);
    }
    let (digits, after) = rest.split_at(digits_in(rest));
    add_digits(alloc, digits, short)?;
    Ok(after)
}

/// A line in which more than 64 hexadecimal digits in a row, in capitals, are the first 64, `..` and in brackets how many octets they all are. Those of a text
/// or of bits stay as they are.
fn with_short_octets(alloc: Global, format: LogFormat, line: &[u8]) -> Result<Vec<u8>, AllocError> {
    let mut short = Vec::new(alloc);
    let mut rest = line;
    // each turn takes an octet at least
    for _ in 0..line.len() {
        let after = add_front(alloc, format, rest, &mut short)?;
        let Some((octet, more)) = after.split_first() else {
            return Ok(short);
        };
        short.push(*octet)?;
        rest = more;
    }
    Ok(short)
}

/// How many octets a line shows at most, so that no character is cut.
fn shown_of(line: &[u8]) -> usize
    ensures { result ≤ length line.now }
{
    let most = MOST_OF_LINE.min(line.len());
    for count in (0..most).rev() {
        match line.get(count) {
            // in the midst of a character
            Some(0x80..=0xBF) => {}
            _ => return count,
        }
    }
    0
}

/// Whether a line is shown whole. An object of JSON always is.
fn is_shown_whole(format: LogFormat, line: &[u8]) -> bool {
    match format {
        LogFormat::Lines => line.len() <= MOST_OF_LINE,
        LogFormat::Objects { .. } => true,
    }
}

/// Appends a line, without its end; of one of words that is longer than 480 octets its front, `..`, and in brackets how many octets it has.
fn add_line(
    alloc: Global,
    format: LogFormat,
    line: &[u8],
    short: &mut Vec<u8>,
) -> Result<(), AllocError> {
    if is_shown_whole(format, line) {
        return short.extend_from_slice(line);
    }
    let (front, _) = line.split_at(shown_of(line));
    let len = line.len();
    let more = format!(in alloc; ".. (a line of {len} octets)")?;
    short.extend_from_slice(front)?;
    short.extend_from_slice(more.as_bytes())
}

/// Lines of a log in which long octets are shown by their first 32, and long lines of words by their front.
pub(crate) fn shortened(
    alloc: Global,
    format: LogFormat,
    text: &[u8],
) -> Result<Vec<u8>, AllocError> {
    let mut short = Vec::new(alloc);
    if text.is_empty() {
        return Ok(short);
    }
    let text = text.strip_suffix(b"\n").unwrap_or(text);
    for line in text.split(|octet| *octet == b'\n') {
        let line = with_short_octets(alloc, format, line)?;
        add_line(alloc, format, &line, &mut short)?;
        short.push(b'\n')?;
    }
    Ok(short)
}
