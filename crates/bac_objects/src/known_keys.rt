//! The keys that have a meaning in a document, and which of them is most like an unknown one.
use crate::form::FORMS;
use std::alloc::{AllocError, Global};
use toml::Table;

/// The keys of a document.
pub(crate) const DOCUMENT_KEYS: &[&str] = &["object", "described"];

/// The keys of an object.
pub(crate) const OBJECT_KEYS: &[&str] = &[
    "type",
    "instance",
    "name",
    "file",
    "description",
    "present-value",
];

/// The same, and properties that many objects have, in a document that describes its objects.
pub(crate) const DESCRIBED_KEYS: &[&str] = &[
    "type",
    "instance",
    "name",
    "file",
    "description",
    "present-value",
    "units",
    "status-flags",
    "event-state",
    "out-of-service",
    "reliability",
    "number-of-states",
    "state-text",
    "relinquish-default",
    "priority-array",
    "vendor-name",
    "vendor-identifier",
    "model-name",
    "location",
    "system-status",
];

/// The keys of the table of a value, without the words for its kind.
const VALUE_KEYS: &[&str] = &["writable", "min", "max", "one-of"];

/// The keys of the table of a file.
const FILE_KEYS: &[&str] = &["text", "hex", "writable"];

/// How many letters may be missing, wrong or swapped in a key that is like another one.
const MOST_EDITS: usize = 2;

/// Of so many octets one letter may.
const OCTETS_PER_EDIT: usize = 3;

/// How many letters may be missing, wrong or swapped in this key: one in a short key.
fn most_edits(key: &str) -> usize {
    (key.len() / OCTETS_PER_EDIT).clamp(1, MOST_EDITS)
}

/// How like a known key is, where it is like enough: how many edits lead there.
fn edits_to(alloc: Global, key: &str, known: &'static str) -> Result<Option<usize>, AllocError> {
    // a letter has up to four octets
    if key.len() / 4 > known.len().saturating_add(MOST_EDITS) {
        return Ok(None);
    }
    let edits = strsim::osa_distance(alloc, key, known)?;
    if edits <= most_edits(key) && edits < known.len() {
        Ok(Some(edits))
    } else {
        Ok(None)
    }
}

/// The known key that is most like a key, where one is like it.
pub(crate) fn nearest(
    alloc: Global,
    key: &str,
    all: &[&'static str],
) -> Result<Option<&'static str>, AllocError> {
    let mut best: Option<&'static str> = None;
    let mut fewest = MOST_EDITS.saturating_add(1);
    for known in all {
        if let Some(edits) = edits_to(alloc, key, *known)? {
            if edits < fewest {
                fewest = edits;
                best = Some(*known);
            }
        }
    }
    Ok(best)
}

/// The word for a kind of values that goes by another name elsewhere.
fn usual_form(key: &str) -> Option<&'static str> {
    match key {
        "bool" => Some("boolean"),
        "uint" => Some("unsigned"),
        "int" | "integer" => Some("signed"),
        "enum" => Some("enumerated"),
        "float" => Some("real"),
        "string" | "character-string" => Some("text"),
        "octet-string" => Some("octets"),
        "bit-string" => Some("bits"),
        "object-identifier" => Some("object"),
        _ => None,
    }
}

/// The known key of the table of a value that is most like a key, or that goes by this name elsewhere: a word for a kind, or another key.
pub(crate) fn nearest_of_value(
    alloc: Global,
    key: &str,
) -> Result<Option<&'static str>, AllocError> {
    if let Some(word) = usual_form(key) {
        return Ok(Some(word));
    }
    if let Some(near) = nearest(alloc, key, VALUE_KEYS)? {
        return Ok(Some(near));
    }
    let mut words = Vec::new(alloc);
    for row in FORMS {
        words.push(row.0)?;
    }
    nearest(alloc, key, &words)
}

/// The same of the table of a file.
pub(crate) fn nearest_of_file(
    alloc: Global,
    key: &str,
) -> Result<Option<&'static str>, AllocError> {
    match usual_form(key) {
        Some("text") => Ok(Some("text")),
        _ => nearest(alloc, key, FILE_KEYS),
    }
}

/// What to write in place of a table that has no value: that of a file, or of a property.
pub(crate) fn value_example(key: &str) -> &'static str {
    if key == "file" {
        "{ text = \"OK\" }"
    } else {
        "{ real = 21.5 }"
    }
}

/// Whether a key is the word for a kind of values.
fn is_form(key: &str) -> bool {
    for row in FORMS {
        if row.0 == key {
            return true;
        }
    }
    false
}

/// Whether a key has a meaning in the table of a value.
fn is_of_value(key: &str, has_limits: bool) -> bool {
    match key {
        "writable" => true,
        "min" | "max" | "one-of" => has_limits,
        _ => is_form(key),
    }
}

/// The first key of the table of a value that has no meaning there.
pub(crate) fn unknown_in(table: &Table, has_limits: bool) -> Option<&str> {
    for (key, _) in table.iter() {
        if !is_of_value(key.as_str(), has_limits) {
            return Some(key.as_str());
        }
    }
    None
}
