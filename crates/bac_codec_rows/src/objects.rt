//! Objects of words.
//!
//! `TYPE:INSTANCE/PART/..` is an object. A part is `NUMBER=HEX` for a property that can be written, `name=TEXT`, `file=HEX` for a file that can be
//! written, and `log=HEX` for one that cannot. An object without a name is called `bare`.
use bac_rows::row::{Row, decimal};
use bac_store::{Allowed, File, Object, Property};
use bac_value::{ObjectIdentifier, read_data};
use std::alloc::Global;

/// The identifier `TYPE:INSTANCE`; None where no object has it.
pub(crate) fn identifier(word: &str) -> Option<ObjectIdentifier> {
    let (kind, instance) = word.split_once(':').unwrap_or((word, ""));
    ObjectIdentifier::new(
        (decimal(kind) % 65_536) as u16,
        (decimal(instance) % 4_294_967_296) as u32,
    )
}

fn text_of(alloc: Global, text: &str) -> String {
    let mut out = String::new(alloc);
    let _ = out.push_str(text);
    out
}

/// An object with a name and nothing else.
fn bare(alloc: Global, id: ObjectIdentifier) -> Object {
    Object {
        id,
        name: text_of(alloc, "bare"),
        properties: Vec::new(alloc),
        file: None,
    }
}

fn property(alloc: Global, number: u32, octets: &[u8]) -> Option<Property> {
    match read_data(octets) {
        Ok((data, _)) => match data.to_owned(alloc) {
            Ok(values) => Some(Property {
                number,
                values,
                writable: true,
                allowed: Allowed::Any,
            }),
            Err(_) => None,
        },
        Err(_) => None,
    }
}

fn put_property(number: u32, digits: &str, object: &mut Object, row: &mut Row) {
    let octets = row.octets(digits, 0);
    match property(row.alloc, number, &octets) {
        Some(property) => row.needs(object.properties.push(property).is_ok()),
        None => row.fail(),
    }
}

fn file(digits: &str, writable: bool, row: &Row) -> Option<File> {
    let octets = row.octets(digits, 0);
    Some(File { octets, writable })
}

fn put_part(part: &str, object: &mut Object, row: &mut Row) {
    let (key, value) = part.split_once('=').unwrap_or((part, ""));
    match key.as_bytes() {
        b"name" => object.name = text_of(row.alloc, value),
        b"file" => object.file = file(value, true, row),
        b"log" => object.file = file(value, false, row),
        _ => put_property((decimal(key) % 4_294_967_296) as u32, value, object, row),
    }
}

/// The object of an identifier with these parts.
fn object_of(id: ObjectIdentifier, parts: &str, row: &mut Row) -> Object {
    let mut object = bare(row.alloc, id);
    for part in parts.split('/') {
        if !part.is_empty() {
            put_part(part, &mut object, row);
        }
    }
    object
}

/// Adds the object of a word.
fn put_object(word: &str, objects: &mut Vec<Object>, row: &mut Row) {
    let (name, parts) = word.split_once('/').unwrap_or((word, ""));
    match identifier(name) {
        Some(id) => {
            let _ = objects.push(object_of(id, parts, row));
        }
        None => row.fail(),
    }
}

/// The objects of the words of a line.
pub(crate) fn objects_of(words: &str, row: &mut Row) -> Vec<Object> {
    let mut objects = Vec::new(row.alloc);
    for word in words.split(' ') {
        put_object(word, &mut objects, row);
    }
    objects
}

/// So many objects in descending order.
pub(crate) fn descending(alloc: Global, count: u32) -> Vec<Object> {
    let mut objects = Vec::new(alloc);
    for place in 0..count {
        if let Some(id) = ObjectIdentifier::new(0, count.saturating_sub(1).saturating_sub(place)) {
            let _ = objects.push(bare(alloc, id));
        }
    }
    objects
}
