//! The names of object types, and which of them is most like one that is none.
use crate::held::member;
use crate::known_keys::nearest;
use crate::object::served;
use crate::problem::{Problem, Wanted};
use bac_value_text::object_type_name;
use std::alloc::{AllocError, Global};
use toml::Value;

/// The first type of a vendor's own: no greater number has a name.
const FIRST_VENDOR_TYPE: u32 = 128;

/// The text in place of an object type: the value itself, or the type in the table of an identifier.
fn type_text(value: Option<&Value>) -> Option<&str> {
    match value? {
        Value::String(text) => Some(text.as_str()),
        Value::Table(table) => {
            let id = member(table, "object")?.as_table()?;
            member(id, "type")?.as_str()
        }
        _ => None,
    }
}

/// Whether an object of that type may stand where one was wanted.
fn is_wanted(wanted: Wanted, number: u32) -> bool {
    match wanted {
        Wanted::ServedType => served(u64::from(number)).is_ok(),
        _ => true,
    }
}

/// The names of the object types that were wanted.
fn wanted_names(alloc: Global, wanted: Wanted) -> Result<Vec<&'static str>, AllocError> {
    let mut names = Vec::new(alloc);
    for number in 0..FIRST_VENDOR_TYPE {
        match object_type_name(number) {
            Some(name) if is_wanted(wanted, number) => names.push(name)?,
            _ => {}
        }
    }
    Ok(names)
}

/// The name of an object type that is most like the text in place of one, where one is like it: of a type that is allowed there.
pub(crate) fn nearest_type(
    alloc: Global,
    value: Option<&Value>,
    problem: Problem,
) -> Result<Option<&'static str>, AllocError> {
    let Some(text) = type_text(value) else {
        return Ok(None);
    };
    let wanted = problem.wanted;
    if !matches!(wanted, Wanted::ServedType | Wanted::ObjectType) {
        return Ok(None);
    }
    match nearest(alloc, text, &wanted_names(alloc, wanted)?)? {
        Some(name) if name == text => Ok(None),
        near => Ok(near),
    }
}
