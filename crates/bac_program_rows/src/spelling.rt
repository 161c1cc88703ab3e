//! The octets that a text of a row stands for.
use std::alloc::Global;
use std::io::Write;

/// The octet of two hexadecimal digits, and the text behind them.
fn put_octet(alloc: Global, text: &str, out: &mut Vec<u8>) -> Option<()> {
    let (digits, rest) = (text.get(..2)?, text.get(2..)?);
    let octets = hex::decode(alloc, digits).ok()?;
    out.extend_from_slice(&octets).ok()?;
    out.extend_from_slice(rest.as_bytes()).ok()
}

/// What a letter behind a backslash stands for.
fn letter(text: &str) -> Option<u8> {
    match text.as_bytes().first()? {
        b'n' => Some(b'\n'),
        b'r' => Some(b'\r'),
        b't' => Some(b'\t'),
        b's' => Some(b' '),
        _ => None,
    }
}

/// What that letter stands for, and the text behind it.
fn put_letter(text: &str, out: &mut Vec<u8>) -> Option<()> {
    let rest = text.get(1..)?;
    out.push(letter(text)?).ok()?;
    out.extend_from_slice(rest.as_bytes()).ok()
}

/// The text behind a backslash, at the number of a repetition.
fn put_escape(alloc: Global, text: &str, number: u64, out: &mut Vec<u8>) -> Option<()> {
    if let Some(rest) = text.strip_prefix('x') {
        return put_octet(alloc, rest, out);
    }
    if let Some(rest) = text.strip_prefix('#') {
        return write!(out, "{number}{rest}").ok();
    }
    put_letter(text, out)
}

/// A text without repeats, at the number of a repetition.
fn put_once(alloc: Global, text: &str, number: u64, out: &mut Vec<u8>) -> Option<()> {
    for (place, part) in text.split('\\').enumerate() {
        if place == 0 {
            out.extend_from_slice(part.as_bytes()).ok()?;
        } else {
            put_escape(alloc, part, number, out)?;
        }
    }
    Some(())
}

/// The first and the last number of a repeat, `COUNT` or `FIRST..LAST`.
fn range_of(text: &str) -> Option<(u64, u64)> {
    let (first, last) = text.split_once("..").unwrap_or(("1", text));
    Some((first.parse::<u64>().ok()?, last.parse::<u64>().ok()?))
}

/// A repeat, `RANGE*TEXT`.
fn put_repeat(alloc: Global, repeat: &str, out: &mut Vec<u8>) -> Option<()> {
    let (range, text) = repeat.split_once('*')?;
    let (first, last) = range_of(range)?;
    for number in first..=last {
        put_once(alloc, text, number, out)?;
    }
    Some(())
}

/// Appends the octets of a text that begins with a repeat, behind its `\{`.
fn put_repeated(alloc: Global, text: &str, out: &mut Vec<u8>) -> Option<()> {
    let (repeat, rest) = text.split_once('}')?;
    put_repeat(alloc, repeat, out)?;
    put_once(alloc, rest, 0, out)
}

/// Appends the octets of a text.
pub(crate) fn put_text(alloc: Global, text: &str, out: &mut Vec<u8>) -> Option<()> {
    for (place, part) in text.split("\\{").enumerate() {
        if place == 0 {
            put_once(alloc, part, 0, out)?;
        } else {
            put_repeated(alloc, part, out)?;
        }
    }
    Some(())
}

/// Appends the octets of a line, with its end.
pub(crate) fn put_line(alloc: Global, line: &str, out: &mut Vec<u8>) -> Option<()> {
    match line.strip_suffix('\\') {
        Some(line) => put_text(alloc, line, out),
        None => {
            put_text(alloc, line, out)?;
            out.push(b'\n').ok()
        }
    }
}

/// The text that a text of a row stands for.
pub(crate) fn text_of(alloc: Global, text: &str) -> Option<String> {
    let mut octets = Vec::new(alloc);
    put_text(alloc, text, &mut octets)?;
    String::from_utf8(octets).ok()
}
