//! Scripts in rows: how lines of tests are written.
//!
//! After a line that says what happens come the lines that are printed, each indented by two spaces. Lines that begin with `--` are comments.
//! `FIRST,NEXT..LAST: ` before a line stands for that line once for each of these numbers.
//! In a line these stand for something else:
//! - `<name>` for the text that a line `name: text` of the names has;
//! - `{41*00}` for 41 times the text `00`;
//! - `#` for the number in decimal, `{+6}` for the number plus 6, and `@` for the number modulo 256 in hexadecimal;
//! - `|` for the end of a line, and `_` for nothing;
//! - `{41/}` for the first 41 octets of a long file whose octet i is i / 256;
//! - `{41/7}` for 41 octets of it from octet 7 on;
//! - `{41/-12,44}` for 41 octets of it from octet -12 + 44 times the number on.
use crate::RowFault;
use std::alloc::Global;
use std::fmt::Write;

/// The numbers that a line stands for: so many from the first on, each greater by one step than the one before.
#[derive(Clone, Copy)]
pub struct Numbers {
    /// How many numbers there are.
    pub count: u64,
    first: u64,
    step: u64,
}

impl Numbers {
    /// The number of that place.
    pub fn at(&self, place: u64) -> u64 {
        self.first.wrapping_add(place.wrapping_mul(self.step))
    }
}

/// The numbers of a line without a range: once, with number 0.
const ONCE: Numbers = Numbers {
    count: 1,
    first: 0,
    step: 0,
};

/// A decimal number.
pub fn number(text: &str) -> Result<u64, RowFault> {
    match text.parse::<u64>() {
        Ok(number) => Ok(number),
        Err(_) => Err(RowFault::NoLine),
    }
}

/// The text before the first separator, and the text after it.
pub fn parted(text: &str, separator: char) -> Result<(&str, &str), RowFault> {
    match text.split_once(separator) {
        Some(parts) => Ok(parts),
        None => Err(RowFault::NoLine),
    }
}

/// Numbers from a first one to a last one, each so much more than the one before it.
fn numbers_to(first: u64, next: u64, last: u64) -> Result<Numbers, RowFault> {
    if next <= first || last < first {
        return Err(RowFault::NoLine);
    }
    let step = next - first;
    Ok(Numbers {
        count: ((last - first) / step).saturating_add(1),
        first,
        step,
    })
}

/// The numbers `FIRST,NEXT..LAST`.
fn numbers_of(text: &str) -> Result<Numbers, RowFault> {
    let (first, rest) = parted(text, ',')?;
    let (next, last) = parted(rest, '.')?;
    let Some(last) = last.strip_prefix('.') else {
        return Err(RowFault::NoLine);
    };
    numbers_to(number(first)?, number(next)?, number(last)?)
}

/// The numbers that a line stands for, and the line. Only a range has two dots.
pub fn ranged(line: &str) -> Result<(Numbers, &str), RowFault> {
    match line.split_once("..") {
        Some(_) => {
            let (numbers, line) = parted(line, ' ')?;
            let Some(numbers) = numbers.strip_suffix(":") else {
                return Err(RowFault::NoLine);
            };
            Ok((numbers_of(numbers)?, line))
        }
        None => Ok((ONCE, line)),
    }
}

/// The text that a name stands for.
fn text_of<'a>(names: &'a str, wanted: &str) -> Result<&'a str, RowFault> {
    for line in names.lines() {
        if let Some((name, text)) = line.split_once(": ") {
            if name == wanted {
                return Ok(text);
            }
        }
    }
    Err(RowFault::NoLine)
}

/// A line with the texts in the place of their names.
fn named(alloc: Global, names: &str, line: &str) -> Result<String, RowFault> {
    let mut out = String::with_capacity(alloc, 256)?;
    for (place, part) in line.split('<').enumerate() {
        if place == 0 {
            out.push_str(part)?;
            continue;
        }
        let (name, rest) = parted(part, '>')?;
        out.push_str(text_of(names, name)?)?;
        out.push_str(rest)?;
    }
    Ok(out)
}

/// Appends the digits, `count` times.
fn put_digits(count: u64, digits: &str, out: &mut String) -> Result<(), RowFault> {
    for _ in 0..count {
        out.push_str(digits)?;
    }
    Ok(())
}

/// A decimal number, or one below 0, modulo 2^64.
fn wrapped(text: &str) -> Result<u64, RowFault> {
    match text.strip_prefix("-") {
        Some(text) => Ok(0u64.wrapping_sub(number(text)?)),
        None => number(text),
    }
}

/// Where octets of the long file begin: `PLACE`, or `PLACE,STEP`.
fn begin_of(place: &str, number_here: u64) -> Result<u64, RowFault> {
    match place.split_once(',') {
        Some((place, step)) => {
            Ok(wrapped(place)?.wrapping_add(number(step)?.wrapping_mul(number_here)))
        }
        None if place.is_empty() => Ok(0),
        None => number(place),
    }
}

/// Appends `count` octets of the long file from octet `begin` on, in hexadecimal.
fn put_octets(count: u64, begin: u64, out: &mut String) -> Result<(), RowFault> {
    for i in 0..count {
        // octet i of the long file is i / 256
        write!(out, "{:02X}", begin.wrapping_add(i) / 256 % 256)?;
    }
    Ok(())
}

/// A text so many times, octets of the long file, or the number and so much more.
fn put_word(word: &str, number_here: u64, out: &mut String) -> Result<(), RowFault> {
    if let Some(more) = word.strip_prefix("+") {
        write!(out, "{}", number_here.saturating_add(number(more)?))?;
        return Ok(());
    }
    match word.split_once('*') {
        Some((count, digits)) => put_digits(number(count)?, digits, out),
        None => {
            let (count, place) = parted(word, '/')?;
            put_octets(number(count)?, begin_of(place, number_here)?, out)
        }
    }
}

/// A line with what its words in braces stand for.
fn filled(alloc: Global, line: &str, number: u64) -> Result<String, RowFault> {
    let mut out = String::with_capacity(alloc, 256)?;
    for part in line.split('{') {
        match part.split_once('}') {
            Some((word, rest)) => {
                put_word(word, number, &mut out)?;
                out.push_str(rest)?;
            }
            None => out.push_str(part)?,
        }
    }
    Ok(out)
}

/// A line with a number in its places.
fn numbered(alloc: Global, line: &str, number: u64) -> Result<String, RowFault> {
    let mut out = String::with_capacity(alloc, 256)?;
    for character in line.chars() {
        match character {
            '_' => {}
            '#' => write!(out, "{number}")?,
            '@' => write!(out, "{:02X}", number % 256)?,
            '|' => out.push('\n')?,
            other => out.push(other)?,
        }
    }
    Ok(out)
}

/// A line with its number, as it is typed or printed.
pub fn spelled(alloc: Global, names: &str, line: &str, number: u64) -> Result<String, RowFault> {
    let line = named(alloc, names, line)?;
    let line = filled(alloc, &line, number)?;
    numbered(alloc, &line, number)
}

/// A text without names or numbers, as it is typed.
pub fn plain(alloc: Global, text: &str) -> Result<String, RowFault> {
    spelled(alloc, "", text, 0)
}

/// A line, once for each of its numbers, each with its end.
pub fn add_lines(
    alloc: Global,
    names: &str,
    line: &str,
    out: &mut Vec<u8>,
) -> Result<(), RowFault> {
    let (numbers, line) = ranged(line)?;
    for place in 0..numbers.count {
        let line = spelled(alloc, names, line, numbers.at(place))?;
        out.extend_from_slice(line.as_bytes())?;
        out.push(b'\n')?;
    }
    Ok(())
}
