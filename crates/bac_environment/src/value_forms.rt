//! The form that a value of each kind has in a request.
use crate::near_names::{add_meant, name_like};
use bac_service_text::Wanted;
use std::alloc::{AllocError, Global};
use std::str;

/// What stands before the first colon, or the whole word.
fn kind_of(word: &[u8]) -> &[u8] {
    match word.iter().position(|octet| *octet == b':') {
        Some(end) => &word[..end],
        None => word,
    }
}

/// The form of the values of a kind; None where it is no kind.
fn form_of(kind: &[u8]) -> Option<&'static str> {
    Some(match kind {
        b"null" => "expected null alone",
        b"boolean" => "expected boolean:true or boolean:false",
        b"unsigned" => "expected decimal digits, such as unsigned:7",
        b"signed" => "expected decimal digits, such as signed:-7",
        b"enumerated" => "expected decimal digits up to 4294967295, such as enumerated:1",
        b"real" => "expected a number, such as real:72.5",
        b"double" => "expected a number, such as double:72.5",
        b"real-octets" => "expected 4 octets in hexadecimal, such as real-octets:7FC00000",
        b"double-octets" =>
            "expected 8 octets in hexadecimal, such as double-octets:7FF8000000000000",
        b"octets" => "expected octets in hexadecimal, such as octets:0AFF",
        b"text" => "expected UTF-8, with %25 for a percent sign, such as text:Room%201",
        b"characters" => "expected a set and octets in hexadecimal, such as characters:4:0041",
        b"bits" => "expected digits 0 and 1, such as bits:0100",
        b"date" =>
            "expected year, month, day and day of the week, each in digits or *, such as date:1991-1-24-4",
        b"time" =>
            "expected hour, minute, second and hundredths, each in digits or *, such as time:17:35:45.17",
        b"object" => "expected a type and an instance, such as object:analog-input:5",
        _ => return None,
    })
}

/// The kind that goes by another name elsewhere.
fn usual_kind(kind: &str) -> Option<&'static str> {
    match kind {
        "bool" => Some("boolean"),
        "uint" => Some("unsigned"),
        "int" | "integer" => Some("signed"),
        "enum" => Some("enumerated"),
        "float" => Some("real"),
        "string" | "character-string" => Some("text"),
        "octet-string" => Some("octets"),
        "bit-string" => Some("bits"),
        "object-identifier" => Some("object"),
        _ => None,
    }
}

/// The kind that is meant by a word with none, where there is one; capitals count as small letters.
fn meant_kind(alloc: Global, word: &[u8]) -> Result<Option<&'static str>, AllocError> {
    let Ok(kind) = str::from_utf8(kind_of(word)) else {
        return Ok(None);
    };
    let kind = kind.to_ascii_lowercase(alloc)?;
    match usual_kind(&kind) {
        Some(name) => Ok(Some(name)),
        None => name_like(alloc, Wanted::Value, word),
    }
}

/// What is wanted in place of a word that names no kind.
const KINDS: &str =
    "expected null, boolean, unsigned, signed, enumerated, real, double, text, characters, octets, bits, date, time or object before the colon";

/// What is wanted in place of a word without a colon.
const ANY_FORM: &str = "expected a kind, a colon and a value, such as real:72.5";

/// Adds what is wanted, behind a colon.
fn add_wanted(wanted: &str, reason: &mut Vec<u8>) -> Result<(), AllocError> {
    reason.extend_from_slice(b": ")?;
    reason.extend_from_slice(wanted.as_bytes())
}

/// Adds which kind is meant by a word that names none, or which there are.
fn add_kind(alloc: Global, word: &[u8], reason: &mut Vec<u8>) -> Result<(), AllocError> {
    match meant_kind(alloc, word)? {
        Some(name) => add_meant(name, reason),
        None => add_wanted(KINDS, reason),
    }
}

/// Adds what to write in place of a word that is no value: one of the kind that it names, or of the kind that is meant.
pub(crate) fn add_value_advice(
    alloc: Global,
    word: &[u8],
    reason: &mut Vec<u8>,
) -> Result<(), AllocError> {
    let kind = kind_of(word);
    match form_of(kind) {
        Some(form) => add_wanted(form, reason),
        None if kind.len() == word.len() => add_wanted(ANY_FORM, reason),
        None => add_kind(alloc, word, reason),
    }
}
