//! The faults of a document, each with its line.
use crate::fault::{Place, write_id};
use crate::help::Help;
use crate::problem::Wanted;
use bac_store::DescriptionFlaw;
use bac_value::ObjectIdentifier;
use std::alloc::Global;
use std::fmt;
use toml::de::Error;

/// What is wrong at a place of a document.
#[derive(Debug, Drop)]
pub enum Wrong {
    /// A key that has no meaning there, and the known key that is most like it, where one is: the key itself where it has one in documents whose objects are
    /// described. Where none is, perhaps an example of what may stand there.
    UnknownKey {
        key: String,
        near: Option<&'static str>,
        example: Option<&'static str>,
    },
    /// A value that is not allowed: what is wanted, and what is there, in words or as TOML writes it; and what helps, where something does.
    Value {
        wanted: Wanted,
        found: String,
        help: Option<Help>,
    },
    /// A text that is none of the names of the standard that the property has, as TOML writes it.
    UnknownName {
        name: String,
        help: Help,
    },
    /// A value that its limits do not allow, or limits that can be none of such a value: the limits, and the value as TOML writes it.
    Limits {
        limits: String,
        found: String,
    },
    /// Limits from a least value to a greatest one that is below it, each as TOML writes it.
    Turned {
        least: String,
        greatest: String,
    },
    /// A value that is allowed, or an object of such values, that no store takes beside the objects before it.
    Refused(DescriptionFlaw),
    /// The name of an earlier object: its number in the document, from 1 on, and its identifier, if its type and its instance are valid.
    SameName {
        object: usize,
        id: Option<ObjectIdentifier>,
    },
    /// `[object]` in place of `[[object]]`, before the first head of an object.
    SingleObject,
    /// What is no TOML: why, and what stands there up to the end of its line.
    NoToml {
        error: Error,
        there: String,
    },
    /// More than is told: the first of it stands there.
    More,
}

/// A fault of a document, and where it is.
#[derive(Debug, Drop)]
pub struct Finding {
    /// The number of the line, from 1 on: of the key, or of the head of its object where the key is missing. None where the document has no such line.
    pub line: Option<usize>,
    pub place: Place,
    pub wrong: Wrong,
}

impl Finding {
    /// That more is wrong from a line on than is told.
    pub(crate) fn more(alloc: Global, line: Option<usize>) -> Finding {
        Finding {
            line,
            place: Place {
                object: 0,
                id: None,
                key: String::new(alloc),
            },
            wrong: Wrong::More,
        }
    }
}

impl fmt::Display for Wrong {
    fn fmt<W: fmt::Write>(&self, f: &mut fmt::Formatter<W>) -> fmt::Result {
        match self {
            Wrong::UnknownKey { key, near, example } => {
                write_unknown_key(f, key, *near, *example)
            }
            Wrong::Value {
                wanted,
                found,
                help,
            } => write_value(f, *wanted, found, help.as_ref()),
            Wrong::UnknownName { name, help } => write!(f, "unknown name {name}{help}"),
            Wrong::Limits { limits, found } => {
                let flaw = DescriptionFlaw::Limits;
                write!(f, "{flaw}: expected {limits}, found {found}")
            }
            Wrong::Turned { least, greatest } => {
                write!(f, "min = {least} is greater than max = {greatest}")
            }
            Wrong::Refused(flaw) => write!(f, "{flaw}"),
            Wrong::SameName { object, id } => write_same_name(f, *object, *id),
            Wrong::SingleObject => f.write_str("expected [[object]], found [object]"),
            Wrong::NoToml { error, there } => {
                let message = error.message();
                write!(f, "{message}: {there}")
            }
            Wrong::More => f.write_str("also invalid; there may be more"),
        }
    }
}

/// Prints which earlier object has a name.
fn write_same_name<W: fmt::Write>(
    f: &mut fmt::Formatter<W>,
    object: usize,
    id: Option<ObjectIdentifier>,
) -> fmt::Result {
    write!(f, "same name as object {object}")?;
    match id {
        Some(id) => write_id(f, id),
        None => Ok(()),
    }
}

/// Prints a key that has no meaning there, and the one that is like it, or an example of what has a meaning, where there is one.
fn write_unknown_key<W: fmt::Write>(
    f: &mut fmt::Formatter<W>,
    key: &str,
    near: Option<&str>,
    example: Option<&str>,
) -> fmt::Result {
    if key == "described" {
        return f.write_str("described = true must come before the first table");
    }
    match (near, example) {
        (Some(near), _) if near == key => {
            write!(f, "key \"{key}\" requires described = true at the top")
        }
        (Some(near), _) => write!(f, "unknown key \"{key}\"; did you mean {near}?"),
        (None, Some(example)) => write!(f, "unknown key \"{key}\"; write {example}"),
        (None, None) => write!(f, "unknown key \"{key}\""),
    }
}

/// Prints what is wanted and what is there, and what helps, where something does.
fn write_value<W: fmt::Write>(
    f: &mut fmt::Formatter<W>,
    wanted: Wanted,
    found: &str,
    help: Option<&Help>,
) -> fmt::Result {
    let wanted = match wanted {
        Wanted::Float => "number",
        _ => wanted.words(),
    };
    write!(f, "expected {wanted}, found {found}")?;
    match help {
        Some(help) => write!(f, "{help}"),
        None => Ok(()),
    }
}

impl fmt::Display for Finding {
    fn fmt<W: fmt::Write>(&self, f: &mut fmt::Formatter<W>) -> fmt::Result {
        if let Some(line) = self.line {
            write!(f, "line {line}: ")?;
        }
        let place = &self.place;
        let wrong = &self.wrong;
        write!(f, "{place}{wrong}")
    }
}
