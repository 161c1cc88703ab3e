//! The name of an enumeration that is most like a word.
use crate::enumeration::{Enumeration, NamedNumber};
use std::alloc::{AllocError, Global};
use std::str;

/// How many letters may be missing, wrong or swapped in a word that is like a name.
const MOST_EDITS: usize = 2;

/// A word with more octets is like no name.
const MOST_OCTETS: usize = 64;

/// A word with fewer octets is no part of a name.
const LEAST_PART: usize = 3;

/// A name, and how many edits lead there.
#[derive(Clone, Copy)]
struct Near {
    name: &'static str,
    edits: usize,
}

/// The one of two names that is more like a word.
fn nearer(
    alloc: Global,
    word: &str,
    near: Option<Near>,
    name: &'static str,
) -> Result<Option<Near>, AllocError> {
    let fewest = near.map_or(MOST_EDITS.saturating_add(1), |near| near.edits);
    let edits = strsim::osa_distance(alloc, word, name)?;
    if edits < fewest && edits < name.len() {
        Ok(Some(Near { name, edits }))
    } else {
        Ok(near)
    }
}

/// The name that the fewest edits make of a word, where few do.
fn misspelled(
    alloc: Global,
    rows: &[NamedNumber],
    word: &str,
) -> Result<Option<&'static str>, AllocError> {
    let mut near = None;
    for row in rows {
        near = nearer(alloc, word, near, row.name)?;
    }
    Ok(near.map(|near| near.name))
}

/// Whether a word is a part of a name, as `kelvin` is of `degrees-kelvin`.
fn is_part(word: &str, name: &str) -> bool {
    name.split('-').any(|part| part == word)
}

/// The shortest name that has a word as a part.
fn shortened(rows: &[NamedNumber], word: &str) -> Option<&'static str> {
    let mut shortest: Option<&'static str> = None;
    for row in rows {
        let is_shorter = shortest.map_or(true, |name| row.name.len() < name.len());
        if is_shorter && is_part(word, row.name) {
            shortest = Some(row.name);
        }
    }
    shortest
}

/// The name of the enumeration that is most like a word, where one is like it: misspelled by two letters at most, or else one of which the word is a part.
pub(crate) fn nearest(
    alloc: Global,
    names: Enumeration,
    word: &[u8],
) -> Result<Option<&'static str>, AllocError> {
    if word.len() > MOST_OCTETS {
        return Ok(None);
    }
    let Ok(word) = str::from_utf8(word) else {
        return Ok(None);
    };
    let rows = names.rows(alloc)?;
    match misspelled(alloc, &rows, word)? {
        None if word.len() >= LEAST_PART => Ok(shortened(&rows, word)),
        near => Ok(near),
    }
}
