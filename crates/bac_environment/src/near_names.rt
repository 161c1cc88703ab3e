//! The name of an object type, a property or a kind of values that is most like a misspelled one.
use bac_service_text::Wanted;
use bac_value_text::{object_type_name, property_name};
use std::alloc::{AllocError, Global};
use std::str;

/// How many letters may be missing, wrong or swapped in a word that is like a name.
const MOST_EDITS: usize = 2;

/// The standard names no type and no property with a greater number.
const MOST_NUMBER: u32 = 1_023;

/// A word with more octets is like no name.
const MOST_OCTETS: usize = 64;

/// A name, and how many edits lead there.
#[derive(Clone, Copy)]
struct Near {
    name: &'static str,
    edits: usize,
}

/// The name of a kind of values, by its place among all.
fn kind_name(place: u32) -> Option<&'static str> {
    match place {
        0 => Some("null"),
        1 => Some("boolean"),
        2 => Some("unsigned"),
        3 => Some("signed"),
        4 => Some("enumerated"),
        5 => Some("real"),
        6 => Some("double"),
        7 => Some("text"),
        8 => Some("characters"),
        9 => Some("octets"),
        10 => Some("bits"),
        11 => Some("date"),
        12 => Some("time"),
        13 => Some("object"),
        14 => Some("real-octets"),
        15 => Some("double-octets"),
        _ => None,
    }
}

/// The usual abbreviations of object types, and their names.
const ABBREVIATIONS: &str = "\
ai analog-input
ao analog-output
av analog-value
bi binary-input
bo binary-output
bv binary-value
dev device
mi multi-state-input
mo multi-state-output
msi multi-state-input
mso multi-state-output
msv multi-state-value
mv multi-state-value";

/// The object type that an abbreviation stands for.
fn type_abbreviated(word: &str) -> Option<&'static str> {
    for row in ABBREVIATIONS.lines() {
        if let Some((short, name)) = row.split_once(' ') {
            if short == word {
                return Some(name);
            }
        }
    }
    None
}

/// The name of that number, where an object, a property or a value was wanted.
fn name_of(wanted: Wanted, number: u32) -> Option<&'static str> {
    match wanted {
        Wanted::Object => object_type_name(number),
        Wanted::Property => property_name(number),
        Wanted::Value => kind_name(number),
        _ => None,
    }
}

/// The name in a word: what stands before the instance of an object, or before the index of a property.
fn name_in(word: &[u8]) -> Option<&str> {
    let end = match word.iter().position(|octet| matches!(*octet, b':' | b'[')) {
        Some(end) => end,
        None => word.len(),
    };
    if end > MOST_OCTETS {
        return None;
    }
    str::from_utf8(&word[..end]).ok()
}

/// The one of two names that is more like a text.
fn nearer(
    alloc: Global,
    text: &str,
    near: Option<Near>,
    name: &'static str,
) -> Result<Option<Near>, AllocError> {
    let fewest = match near {
        Some(near) => near.edits,
        None => MOST_EDITS.saturating_add(1),
    };
    let edits = strsim::osa_distance(alloc, text, name)?;
    if edits < fewest {
        Ok(Some(Near { name, edits }))
    } else {
        Ok(near)
    }
}

/// The name that is most like that of a word, where that is misspelled and one is like it, or that of the type that it abbreviates; capitals count as small letters. An Err is out of memory.
pub(crate) fn name_like(
    alloc: Global,
    wanted: Wanted,
    word: &[u8],
) -> Result<Option<&'static str>, AllocError> {
    let Some(text) = name_in(word) else {
        return Ok(None);
    };
    let small = text.to_ascii_lowercase(alloc)?;
    if let (Wanted::Object, Some(name)) = (wanted, type_abbreviated(&small)) {
        return Ok(Some(name));
    }
    let mut near = None;
    for number in 0..=MOST_NUMBER {
        if let Some(name) = name_of(wanted, number) {
            near = nearer(alloc, &small, near, name)?;
        }
    }
    match near {
        Some(near) if near.name != text => Ok(Some(near.name)),
        _ => Ok(None),
    }
}

/// Adds the name that is meant.
pub(crate) fn add_meant(name: &str, reason: &mut Vec<u8>) -> Result<(), AllocError> {
    reason.extend_from_slice(b"; did you mean ")?;
    reason.extend_from_slice(name.as_bytes())?;
    reason.extend_from_slice(b"?")
}
