//! What is printed of words that are no request.
ghost use Rattle.bac_text.specs.Statuses.{IsStop};

use crate::address::{OutOfRange, number_out_of_range, read_end, read_link};
use crate::near_names::{add_meant, name_like};
use crate::source::{LinePlace, Source};
use crate::value_forms::add_value_advice;
use bac_commands::Style;
use bac_service_text::{BadWord, Wanted, bad_word};
use bac_text::{Status, no_memory};
use bac_value_text::{number_in, parts_at};
use std::alloc::{AllocError, Global};
use std::io::Write;
use std::{io, str};

/// Why words are refused of which each alone is good, where the answer is to be printed so.
fn whole_reason(style: Style) -> &'static str {
    match style {
        Style::Octets => "--raw writes the octets of a file, and requires a `get`",
        Style::Numbers | Style::Words => "too many octets for a file",
    }
}

/// What stands between `bad words` and which is bad, where the answer is to be printed so: in words, both are on one line.
fn separator_of(style: Style) -> &'static str {
    match style {
        Style::Words => ": ",
        Style::Numbers | Style::Octets => "\n",
    }
}

/// What stands behind a word that no name is like: an object, and where the names of types stand, or those of properties.
fn names_advice(wanted: Wanted) -> &'static [u8] {
    match wanted {
        Wanted::Object => b", for example analog-value:1 (bac help types lists the types)",
        Wanted::Property => b" (bac help properties lists the names)",
        _ => b"",
    }
}

/// The name that is like a misspelled one, or where the names stand if there is none.
fn add_name_like(
    alloc: Global,
    wanted: Wanted,
    word: &[u8],
    reason: &mut Vec<u8>,
) -> Result<(), AllocError> {
    match name_like(alloc, wanted, word)? {
        Some(name) => add_meant(name, reason),
        None => reason.extend_from_slice(names_advice(wanted)),
    }
}

/// Whether a word is the address of a node.
fn is_address(word: &[u8]) -> bool {
    match str::from_utf8(word) {
        Ok(text) => read_link(text).is_some(),
        Err(_) => false,
    }
}

/// The greatest instance of an object (clause 12.1).
const MOST_INSTANCE: u64 = 4_194_303;

/// Whether an object has an instance that is a greater number than any.
fn has_great_instance(word: &[u8]) -> bool {
    match parts_at(b':', word) {
        Some((_, instance)) => number_in(instance).is_some_and(|number| number > MOST_INSTANCE),
        None => false,
    }
}

/// What to write in place of a word that is no object.
fn add_object_advice(alloc: Global, word: &[u8], reason: &mut Vec<u8>) -> Result<(), AllocError> {
    if is_address(word) {
        reason.extend_from_slice(
            b"; give an address with --to, or in a list as @ADDRESS before the request",
        )
    } else if has_great_instance(word) {
        reason.extend_from_slice(b"; an instance is at most 4194303")
    } else {
        add_name_like(alloc, Wanted::Object, word, reason)
    }
}

/// What to write in place of a word that was wanted to be something: of a value the form of its kind, of an object or a property the name that is like it; of
/// `@FILE` where it may stand.
fn add_advice(
    alloc: Global,
    wanted: Wanted,
    word: &[u8],
    reason: &mut Vec<u8>,
) -> Result<(), AllocError> {
    match wanted {
        Wanted::Value => add_value_advice(alloc, word, reason),
        Wanted::Object => add_object_advice(alloc, word, reason),
        Wanted::Data => reason.extend_from_slice(
            b": expected complete values in hexadecimal, or values with their kinds, such as real:72.5",
        ),
        Wanted::Octets | Wanted::Position if word.starts_with(b"@") => {
            reason.extend_from_slice(b": @FILE must come last, and is not allowed in a list")
        }
        _ => add_name_like(alloc, wanted, word, reason),
    }
}

/// How many octets of a word are printed.
const MOST_PRINTED: usize = 100;

/// A word, or the beginning of a long one, and how many octets it has.
fn printed(alloc: Global, word: &[u8]) -> Result<Vec<u8>, AllocError> {
    let octets = word.len();
    if octets <= MOST_PRINTED {
        return Vec::from_slice(alloc, word);
    }
    let mut printed = Vec::from_slice(alloc, word.get(..MOST_PRINTED).unwrap_or(word))?;
    let rest = format!(in alloc; ".. ({octets} octets)")?;
    printed.extend_from_slice(rest.as_bytes())?;
    Ok(printed)
}

/// Which word is bad, what was wanted, and what to write in its place. An Err says that memory was refused.
pub fn bad_word_text(alloc: Global, bad: BadWord<'_>) -> Result<Vec<u8>, AllocError> {
    let Some(word) = bad.word else {
        return bad.text(alloc);
    };
    let printed = printed(alloc, word)?;
    let shown = BadWord {
        wanted: bad.wanted,
        word: Some(&printed),
    };
    let mut reason = shown.text(alloc)?;
    add_advice(alloc, bad.wanted, word, &mut reason)?;
    Ok(reason)
}

/// Why `get T:I` is refused, which asks for a whole file.
const WHOLE_FILE: &[u8] = b": a list or rounds cannot read a whole file";

/// Whether words are `get T:I` with no more behind it.
fn are_of_whole_file(words: &[&[u8]]) -> bool {
    matches!(words, [verb, _] if *verb == b"get".as_slice())
}

/// `bad words`, and which is bad and what was wanted.
fn bad_words_text(alloc: Global, style: Style, words: &[&[u8]]) -> Result<Vec<u8>, AllocError> {
    let mut text = Vec::from_slice(alloc, b"bad words")?;
    match bad_word(alloc, words)? {
        Some(bad) => {
            let reason = bad_word_text(alloc, bad)?;
            text.extend_from_slice(separator_of(style).as_bytes())?;
            text.extend_from_slice(reason.as_slice())?;
            if bad.word.is_none() && are_of_whole_file(words) {
                text.extend_from_slice(WHOLE_FILE)?;
            }
        }
        None => {
            text.push(b'\n')?;
            text.extend_from_slice(whole_reason(style).as_bytes())?;
        }
    }
    text.push(b'\n')?;
    Ok(text)
}

/// Complains of words that are no request, or none that can be printed so: `bad words`, and which is bad and what was wanted, behind that in words, otherwise
/// on a line of its own. An Err says that memory was refused.
pub fn print_bad_words<E: Write>(
    alloc: Global,
    style: Style,
    words: &[&str],
    err: &mut E,
) -> Result<(), AllocError> {
    let mut octets = Vec::new(alloc);
    for word in words {
        octets.push(word.as_bytes())?;
    }
    let text = bad_words_text(alloc, style, &octets)?;
    // if that fails too, only the status is left
    let _ = err.write_all(&text);
    Ok(())
}

/// Complains of the words of the line with that number, which are no request: which is bad and what was wanted.
pub(crate) fn print_bad_line<E: Write>(
    source: Source<'_>,
    number: u64,
    words: &[&[u8]],
    err: &mut E,
) -> Status
    ensures { IsStop result }
{
    let Ok(text) = bad_words_text(source.alloc, Style::Words, words) else {
        return no_memory(err);
    };
    let place = source.line(number);
    // if that fails too, only the status is left
    let _ = write!(err, "{place}");
    let _ = err.write_all(&text);
    Status::CommandLine
}

/// Complains of the line with that number, in which a text in quotes does not end as it should.
pub(crate) fn print_open_quote<E: Write>(source: Source<'_>, number: u64, err: &mut E) -> Status
    ensures { IsStop result }
{
    let place = source.line(number);
    // if that fails too, only the status is left
    let _ = writeln!(
        err,
        "{place}bad words: a text in quotes must end with a quote, then a blank or the end of the line"
    );
    Status::CommandLine
}

/// Complains of the line with that number, whose first word ends with a colon as a name does, and is none.
pub(crate) fn print_bad_name<E: Write>(
    source: Source<'_>,
    number: u64,
    word: &[u8],
    err: &mut E,
) -> Status
    ensures { IsStop result }
{
    // if that fails too, only the status is left
    let _ = print_no_name(source.line(number), word, err);
    Status::CommandLine
}

fn print_no_name<E: Write>(place: LinePlace<'_>, word: &[u8], err: &mut E) -> io::Result<()> {
    write!(err, "{place}bad name: \"")?;
    err.write_all(word)?;
    writeln!(
        err,
        "\" is invalid: expected letters, digits, `_`, `-` and `.` before the colon"
    )
}

/// Complains of the line with that number, which is asked of no peer: its first word is none, or it names none.
pub(crate) fn print_no_peer<E: Write>(
    source: Source<'_>,
    number: u64,
    words: &[&[u8]],
    err: &mut E,
) -> Status
    ensures { IsStop result }
{
    let place = source.line(number);
    // if that fails too, only the status is left
    let _ = match words.first() {
        Some(word) if word.first() == Some(&b'@') => print_bad_address(place, *word, err),
        _ => writeln!(
            err,
            "{place}no address: expected @A.B.C.D[:P][/NET:MAC] before the request, or --to"
        ),
    };
    Status::CommandLine
}

/// What is wanted in place of a word that names no peer.
fn wanted_of_peer(word: &[u8]) -> &'static str {
    let Ok(text) = str::from_utf8(word) else {
        return PEER_FORM;
    };
    let text = text.strip_prefix('@').unwrap_or(text);
    let end = text.split('/').next().unwrap_or(text);
    if read_end(end).is_some() && read_link(end).is_none() {
        "the address of a node"
    } else {
        PEER_FORM
    }
}

/// The form of the word that names a peer.
const PEER_FORM: &str = "@A.B.C.D[:P][/NET:MAC]";

/// The number that is out of its range in a word that names no peer, if one is.
fn number_of_peer(word: &[u8]) -> Option<OutOfRange<'_>> {
    let text = str::from_utf8(word).ok()?;
    number_out_of_range(text.strip_prefix('@').unwrap_or(text))
}

fn print_bad_address<E: Write>(place: LinePlace<'_>, word: &[u8], err: &mut E) -> io::Result<()> {
    write!(err, "{place}bad address: \"")?;
    err.write_all(word)?;
    if let Some(number) = number_of_peer(word) {
        return writeln!(err, "\": {number}");
    }
    let wanted = wanted_of_peer(word);
    writeln!(err, "\" is not {wanted}")
}
