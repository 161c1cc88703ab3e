//! What is printed of a line that is none of a script.
ghost use Rattle.std.specs.Prelude.{◌≡◌};
ghost use Rattle.bac_simulate.specs.Runs.{status_for};

use crate::clock_words::rate_in;
use crate::link_words::link_in;
use crate::script::{ScriptFault, next_line};
use bac_service_text::bad_word;
use bac_text::{Status, no_memory, read_of};
use bac_value_text::{number_in, number_up_to, parts_at};
use std::alloc::{AllocError, Global};
use std::io::Write;

/// The line with that number, counted from 1; None where there are fewer.
fn line_at(text: &[u8], number: u64) -> Option<&[u8]> {
    let mut rest = text;
    for _ in 1..number {
        let (_, others) = next_line(rest)?;
        rest = others;
    }
    let (line, _) = next_line(rest)?;
    Some(line)
}

/// The words of a line, separated by single spaces.
fn words_in(alloc: Global, line: &[u8]) -> Result<Vec<&[u8]>, AllocError> {
    let mut words = Vec::new(alloc);
    let mut rest = line;
    // each turn takes an octet at least
    for _ in 0..line.len() {
        let Some((word, others)) = parts_at(b' ', rest) else {
            break;
        };
        words.push(word)?;
        rest = others;
    }
    words.push(rest)?;
    Ok(words)
}

/// The text of the fault of a word.
fn word_text(alloc: Global, role: &str, word: &[u8], fault: &str) -> Result<Vec<u8>, AllocError> {
    let mut text = format!(in alloc; "{role} \"")?.into_bytes();
    text.extend_from_slice(word)?;
    text.extend_from_slice(b"\" ")?;
    text.extend_from_slice(fault.as_bytes())?;
    Ok(text)
}

/// What is wrong with a word that is to be a link; None where it is one.
fn link_text(alloc: Global, word: &[u8]) -> Result<Option<Vec<u8>>, AllocError> {
    match link_in(word) {
        Some(_) => Ok(None),
        None => {
            let fault = "is not an IPv4 address and UDP port, such as 192.168.1.20:47808";
            Ok(Some(word_text(alloc, "link", word, fault)?))
        }
    }
}

/// What is wrong with what a line asks: with the link of a stranger, which has a colon, or with a word of the request.
fn asked_text(
    alloc: Global,
    server: &[u8],
    request: &[&[u8]],
) -> Result<Option<Vec<u8>>, AllocError> {
    if parts_at(b':', server).is_some() && link_in(server).is_none() {
        return link_text(alloc, server);
    }
    match bad_word(alloc, request)? {
        Some(bad) => Ok(Some(bad.text(alloc)?)),
        None => Ok(None),
    }
}

/// What is wrong with a clock's start, or with where its line stands.
fn clock_text(alloc: Global, start: &[u8]) -> Result<Option<Vec<u8>>, AllocError> {
    match number_up_to(4_294_967_295, start) {
        Some(_) => {
            let late = Vec::from_slice(alloc, b"`clock` must come before the first event")?;
            Ok(Some(late))
        }
        None => Ok(Some(word_text(
            alloc,
            "start",
            start,
            "is not a number from 0 to 4294967295",
        )?)),
    }
}

/// What is wrong with how fast a clock is to be.
fn pace_text(alloc: Global, parts: &[u8]) -> Result<Option<Vec<u8>>, AllocError> {
    match rate_in(parts) {
        Some(_) => Ok(None),
        None => Ok(Some(word_text(alloc, "pace", parts, "is not a number from -1000 to 1000")?)),
    }
}

/// The events of a script: the first word of the line of each, and its form.
const EVENTS: &[(&str, &str)] = &[
    ("ask", "`ask C S REQUEST` or `ask C LINK REQUEST`"),
    ("deliver", "`deliver K`"),
    ("lose", "`lose K`"),
    ("noise", "`noise N HEX`"),
    ("stranger", "`stranger N LINK HEX`"),
    ("tick", "`tick N`"),
    ("advance", "`advance MS`"),
    ("set", "`set N T:I P HEX`"),
    ("file", "`file N T:I HEX`"),
    ("restart", "`restart N`"),
    ("begin", "`begin N` or `begin again N`"),
    ("pace", "`pace N P`"),
    ("clock", "`clock N MS`"),
];

/// The form of the first line of a script.
const FIRST: &str =
    "expected `nodes N` or `nodes N window W overtake V` first: N 1 to 16, W 1 to 64, V + 2W at most 255";

/// What stands behind a first word that no event has.
const NO_EVENT: &str =
    "is not an event: expected ask, deliver, lose, noise, stranger, tick, advance, set, file, restart, begin, pace or clock";

/// What is wrong with a line that only scripts with notes have.
const NO_NOTES: &str = "a note, an empty line or CRLF requires --notes";

/// Whether a line is empty or a note, or ends in a carriage return.
fn is_noted(line: &[u8]) -> bool {
    line.is_empty() || line.starts_with(b"#") || line.ends_with(b"\r")
}

/// The form of the events with that first word; None where no event has it.
fn form_of(verb: &[u8]) -> Option<&'static str> {
    for (name, form) in EVENTS {
        if name.as_bytes() == verb {
            return Some(*form);
        }
    }
    None
}

/// The form that a line with that first word has to have.
fn form_text(alloc: Global, verb: &[u8]) -> Result<Vec<u8>, AllocError> {
    match form_of(verb) {
        Some(form) => Ok(format!(in alloc; "expected {form}")?.into_bytes()),
        None => word_text(alloc, "the word", verb, NO_EVENT),
    }
}

/// What is wrong with a line: which word is bad, and what was wanted; None where no word is bad.
fn bad_word_text(alloc: Global, words: &[&[u8]]) -> Result<Option<Vec<u8>>, AllocError> {
    match words {
        [verb, node, start] if *verb == b"clock".as_slice() && number_in(*node).is_some() => {
            clock_text(alloc, *start)
        }
        [verb, _, parts] if *verb == b"pace".as_slice() => pace_text(alloc, *parts),
        [verb, _, link, _] if *verb == b"stranger".as_slice() => link_text(alloc, *link),
        [verb, _, server, request @ ..] if *verb == b"ask".as_slice() => {
            asked_text(alloc, *server, request)
        }
        _ => Ok(None),
    }
}

/// What is wrong with a line of which a word is empty, or has a tab in it.
const BLANKS: &str = "expected one blank between words, and none at either end of the line";

/// Whether blanks or tabs of a line are no separators of words.
fn has_wrong_blanks(words: &[&[u8]]) -> bool {
    words
        .iter()
        .any(|word| word.is_empty() || word.contains(&b'\t'))
}

/// What is wrong with a line: its blanks, or that it is not the first one that is wanted, or a word of it, or else its form.
fn line_text(alloc: Global, is_first: bool, line: &[u8]) -> Result<Vec<u8>, AllocError> {
    let words = words_in(alloc, line)?;
    if has_wrong_blanks(&words) {
        return Vec::from_slice(alloc, BLANKS.as_bytes());
    }
    if is_first {
        return Vec::from_slice(alloc, FIRST.as_bytes());
    }
    if let Some(text) = bad_word_text(alloc, &words)? {
        return Ok(text);
    }
    match words.first() {
        Some(verb) => form_text(alloc, *verb),
        None => form_text(alloc, b""),
    }
}

/// Whether no line of a text before that number is more than a note.
fn is_first(notes: bool, text: &[u8], number: u64) -> bool {
    let mut rest = text;
    for _ in 1..number {
        let Some((line, others)) = next_line(rest) else {
            return true;
        };
        if read_of(notes, line).is_some() {
            return false;
        }
        rest = others;
    }
    true
}

/// What is wrong with the line of that number; None where there is no such line.
fn reason_of(
    alloc: Global,
    notes: bool,
    text: &[u8],
    number: u64,
) -> Result<Option<Vec<u8>>, AllocError> {
    let line = line_at(text, number);
    match line {
        Some(line) if !notes && is_noted(line) => {
            return Ok(Some(Vec::from_slice(alloc, NO_NOTES.as_bytes())?));
        }
        _ => {}
    }
    let is_first = is_first(notes, text, number);
    match line.and_then(|line| read_of(notes, line)) {
        Some(line) => Ok(Some(line_text(alloc, is_first, line)?)),
        None if is_first => Ok(Some(Vec::from_slice(alloc, FIRST.as_bytes())?)),
        None => Ok(None),
    }
}

/// Tells what is wrong with the line of that number, behind a text, where memory suffices for that.
fn print_reason<E: Write>(
    alloc: Global,
    notes: bool,
    text: &[u8],
    number: u64,
    before_reason: &str,
    err: &mut E,
) {
    if let Ok(Some(reason)) = reason_of(alloc, notes, text, number) {
        // if that fails too, only the status is left
        let _ = err.write_all(before_reason.as_bytes());
        let _ = err.write_all(reason.as_slice());
    }
}

/// Complains of the line with that number, and tells what is wrong with it, if there is a text to stand before that.
fn print_bad_line<E: Write>(
    alloc: Global,
    notes: bool,
    text: &[u8],
    number: u64,
    before_reason: Option<&str>,
    err: &mut E,
) {
    // if that fails too, only the status is left
    let _ = write!(err, "line {number}: not a script line");
    if let Some(before_reason) = before_reason {
        print_reason(alloc, notes, text, number, before_reason, err);
    }
    let _ = err.write_all(b"\n");
}

/// Complains of octets that are no script, and tells what is wrong with the bad line, behind that text, which follows the complaint; not where there is none.
pub(crate) fn refuse<E: Write>(
    alloc: Global,
    notes: bool,
    text: &[u8],
    fault: ScriptFault,
    before_reason: Option<&str>,
    err: &mut E,
) -> Status
    ensures { result ≡ status_for fault }
{
    match fault {
        ScriptFault::Line(number) => {
            print_bad_line(alloc, notes, text, number, before_reason, err);
            Status::CommandLine
        }
        ScriptFault::NoMemory => no_memory(err),
    }
}
