//! Documents of which some lines are no TOML: what is wrong with each of these, and the table of all others.
use crate::fault::Place;
use crate::finding::{Finding, Wrong};
use crate::found::cut;
use crate::outline::{line_behind, statement_at};
use bac_value::NoMemory;
use std::alloc::Global;
use std::ops::Range;
use std::str;
use toml::de::Error;
use toml::{Table, Value};

/// The head of an object.
const HEAD: &str = "[[object]]";

/// The same, one bracket short.
const SINGLE: &str = "[object]";

/// How that begins.
const OPEN: &str = "[object";

/// How the head of a table in an object begins.
const MEMBER: &str = "[object.";

/// What is said of a key or a table that stands there already.
const DUPLICATE: &str = "duplicate key";

/// How many lines that are no TOML are told.
const MOST_UNREAD: usize = 16;

/// What is read of a document.
#[derive(Drop)]
pub(crate) struct Mended {
    pub(crate) table: Table,
    /// The text, with blank lines in place of those that are no TOML.
    pub(crate) octets: Vec<u8>,
}

/// A part of a line, in print.
fn printed(alloc: Global, part: &str) -> Result<String, NoMemory> {
    let mut printed = String::new(alloc);
    for letter in part.chars() {
        printed.push(if letter < ' ' { ' ' } else { letter })?;
    }
    cut(alloc, printed)
}

/// What stands at a place: the rest of its line, or the line before it where it ends there.
fn words_at(alloc: Global, text: &str, place: usize) -> Result<String, NoMemory> {
    let rest = text.get(place..).unwrap_or("");
    let rest = rest.split('\n').next().unwrap_or("").trim();
    if !rest.is_empty() {
        return printed(alloc, rest);
    }
    let before = text.get(..place).unwrap_or("");
    let before = before.rsplit('\n').next().unwrap_or("").trim();
    let before = printed(alloc, before)?;
    Ok(format!(in alloc; "after {before}")?)
}

/// Whether a text ends in the head of an object that is one bracket short, and is TOML with no object before.
fn ends_in_single(alloc: Global, text: &str) -> Result<bool, NoMemory> {
    match toml::table_from_str(alloc, text) {
        Ok(table) => Ok(matches!(table.get("object"), Some(Value::Table(_)))),
        Err(error) if error.span().is_none() => Err(NoMemory),
        Err(_) => Ok(false),
    }
}

/// The place of the first line that begins as the head of an object that is one bracket short, where the text up to it is TOML and has no object before.
fn single_head(alloc: Global, text: &str) -> Result<Option<Range<usize>>, NoMemory> {
    let mut end: usize = 0;
    for line in text.split_inclusive('\n') {
        let head = line.trim_start();
        let begin = end.saturating_add(line.len().saturating_sub(head.len()));
        end = end.saturating_add(line.len());
        if head.starts_with(SINGLE) {
            let is_single = ends_in_single(alloc, text.get(..end).unwrap_or(""))?;
            let place = begin..begin.saturating_add(SINGLE.len());
            return Ok(if is_single { Some(place) } else { None });
        }
    }
    Ok(None)
}

/// The text with the head of an object at a place.
fn with_head(alloc: Global, text: &str, place: &Range<usize>) -> Result<Vec<u8>, NoMemory> {
    let octets = text.as_bytes();
    let mut mended = Vec::from_slice(alloc, octets.get(..place.start).unwrap_or(&[]))?;
    mended.extend_from_slice(HEAD.as_bytes())?;
    mended.extend_from_slice(octets.get(place.end..).unwrap_or(&[]))?;
    Ok(mended)
}

/// The finding of what is wrong at a place.
fn finding_at(alloc: Global, text: &str, start: usize, wrong: Wrong) -> Finding {
    Finding {
        line: Some(line_behind(text.as_bytes(), start)),
        place: Place {
            object: 0,
            id: None,
            key: String::new(alloc),
        },
        wrong,
    }
}

/// Whether the fault at a place is that of the head of a further object that is one bracket short.
fn is_single_again(text: &str, start: usize, error: &Error) -> bool {
    let lines = text.get(start..).unwrap_or("");
    error.message() == DUPLICATE && lines.starts_with(SINGLE)
}

/// The finding of a line that is no TOML.
fn finding_of(alloc: Global, text: &str, start: usize, error: Error) -> Result<Finding, NoMemory> {
    if is_single_again(text, start, &error) {
        return Ok(finding_at(alloc, text, start, Wrong::SingleObject));
    }
    let there = words_at(alloc, text, start)?;
    let wrong = Wrong::NoToml { error, there };
    Ok(finding_at(alloc, text, start, wrong))
}

/// Whether lines begin as the head of an object does, with one bracket or two: its end may be missing.
fn begin_object(lines: &str) -> bool {
    lines.starts_with("[[") || (lines.starts_with(OPEN) && !lines.starts_with(MEMBER))
}

/// What stands for lines that cannot be read, or, as they say, again: what their beginning means. None where nothing behind them can be told.
fn meant_by(lines: &str, is_again: bool) -> Option<&'static str> {
    if begin_object(lines) {
        Some(HEAD)
    } else if lines.starts_with("[") {
        None
    } else if lines.starts_with("described") && !is_again {
        Some("described = true")
    } else {
        Some("")
    }
}

/// Where the line ends in which a span does.
fn end_of_line(text: &[u8], span: &Range<usize>) -> usize {
    let from = span.start.max(span.end.saturating_sub(1));
    let rest = text.get(from..).unwrap_or(&[]);
    match rest.iter().position(|octet| *octet == b'\n') {
        Some(count) => from.saturating_add(count),
        None => text.len(),
    }
}

/// Where the lines of a key or a head end: with its value, or with the line of its fault, where the value may be one that is not closed.
fn end_of(text: &str, begin: usize, value_end: Option<usize>, line_end: usize) -> usize {
    let Some(end) = value_end else {
        return line_end;
    };
    let value = text.get(begin..end).unwrap_or("");
    if value.contains("\n[") || value.contains("\n\n") {
        line_end
    } else {
        end.max(line_end)
    }
}

/// The octets with other words in place of those from a place to another, whose ends of lines stay.
fn replaced(
    alloc: Global,
    octets: &[u8],
    begin: usize,
    end: usize,
    words: &str,
) -> Result<Vec<u8>, NoMemory> {
    let mut mended = Vec::from_slice(alloc, octets.get(..begin).unwrap_or(&[]))?;
    mended.extend_from_slice(words.as_bytes())?;
    for octet in octets.get(begin..end).unwrap_or(&[]) {
        if *octet == b'\n' {
            mended.push(b'\n')?;
        }
    }
    mended.extend_from_slice(octets.get(end..).unwrap_or(&[]))?;
    Ok(mended)
}

/// The text without the lines of the key or the head in which a fault is. None where nothing behind them can be told.
fn without(
    alloc: Global,
    text: &str,
    span: &Range<usize>,
    is_again: bool,
) -> Result<Option<Vec<u8>>, NoMemory> {
    let octets = text.as_bytes();
    let (begin, value_end) = statement_at(alloc, text, span.start);
    let lines = text.get(begin..).unwrap_or("");
    let Some(meant) = meant_by(lines, is_again) else {
        return Ok(None);
    };
    let value_end = if lines.starts_with("[") {
        None
    } else {
        value_end
    };
    let end = end_of(text, begin, value_end, end_of_line(octets, span));
    Ok(Some(replaced(alloc, octets, begin, end, meant)?))
}

/// What comes of reading a text once.
#[derive(Drop)]
enum Round {
    /// It is TOML.
    Read(Table),
    /// It is not: what is read next.
    Mended(Vec<u8>),
    /// It is not, and nothing more can be told.
    Ended,
}

/// Notes that the first head of an object is one bracket short, and mends it. None where none is so.
fn mended_head(
    alloc: Global,
    text: &str,
    findings: &mut Vec<Finding>,
) -> Result<Option<Vec<u8>>, NoMemory> {
    let Some(place) = single_head(alloc, text)? else {
        return Ok(None);
    };
    findings.push(finding_at(alloc, text, place.start, Wrong::SingleObject))?;
    Ok(Some(with_head(alloc, text, &place)?))
}

/// Adds a finding, unless its line is none behind that of the last one. Returns whether it was added.
fn note_next(findings: &mut Vec<Finding>, finding: Finding) -> Result<bool, NoMemory> {
    let last = match findings.last() {
        Some(last) => last.line,
        None => None,
    };
    if finding.line <= last {
        return Ok(false);
    }
    findings.push(finding)?;
    Ok(true)
}

/// Notes the line in which a text is no TOML, and mends it.
fn mended_line(
    alloc: Global,
    text: &str,
    span: &Range<usize>,
    error: Error,
    findings: &mut Vec<Finding>,
) -> Result<Round, NoMemory> {
    let is_again = error.message() == DUPLICATE;
    let finding = finding_of(alloc, text, span.start, error)?;
    if !note_next(findings, finding)? {
        return Ok(Round::Ended);
    }
    match without(alloc, text, span, is_again)? {
        Some(mended) => Ok(Round::Mended(mended)),
        None => Ok(Round::Ended),
    }
}

/// Notes that there are more lines that are no TOML, from a place on.
fn note_more(
    alloc: Global,
    text: &str,
    place: usize,
    findings: &mut Vec<Finding>,
) -> Result<Round, NoMemory> {
    let line = line_behind(text.as_bytes(), place);
    findings.push(Finding::more(alloc, Some(line)))?;
    Ok(Round::Ended)
}

/// Reads a text, and mends it where it is no TOML, unless that is the last round.
fn read_round(
    alloc: Global,
    octets: &[u8],
    is_last: bool,
    findings: &mut Vec<Finding>,
) -> Result<Round, NoMemory> {
    let Ok(text) = str::from_utf8(octets) else {
        return Ok(Round::Ended);
    };
    if !is_last {
        if let Some(mended) = mended_head(alloc, text, findings)? {
            return Ok(Round::Mended(mended));
        }
    }
    let error = match toml::table_from_str(alloc, text) {
        Ok(table) => return Ok(Round::Read(table)),
        Err(error) => error,
    };
    match error.span() {
        Some(span) if is_last => note_more(alloc, text, span.start, findings),
        Some(span) => mended_line(alloc, text, &span, error, findings),
        None => Err(NoMemory),
    }
}

/// Reads a document as far as it is TOML, and adds what is wrong with the lines that are not; behind the first ones, that there are more. None where too much is
/// not.
pub(crate) fn read_mended(
    alloc: Global,
    text: &str,
    findings: &mut Vec<Finding>,
) -> Result<Option<Mended>, NoMemory> {
    let mut octets = Vec::from_slice(alloc, text.as_bytes())?;
    for round in 0..MOST_UNREAD + 1 {
        let read = read_round(alloc, &octets, round == MOST_UNREAD, findings)?;
        match read {
            Round::Read(table) => return Ok(Some(Mended { table, octets })),
            Round::Mended(mended) => octets = mended,
            Round::Ended => return Ok(None),
        }
    }
    Ok(None)
}
