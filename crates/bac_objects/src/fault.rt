//! Why no store was read.
ghost use Rattle.std.specs.Prelude.{◌≡◌};
ghost use Rattle.bac_objects.specs.declared.fault.ValueFault.TheVariants as value_fault;
ghost use Rattle.bac_objects.specs.declared.fault.DocumentFault.TheVariants as document_fault;
ghost use Rattle.bac_objects.specs.declared.fault.ObjectFault.TheVariants as object_fault;

use crate::problem::Problem;
use bac_store::DescriptionFault;
use bac_value::{NoMemory, ObjectIdentifier};
use bac_value_text::{object_type_name, property_name};
use std::alloc::{AllocError, AllocFailed};
use std::fmt;
use thiserror::Error;

/// The place of a fault.
#[derive(Debug, Drop)]
pub struct Place {
    /// The number of the object in the document, from 1 on; 0 if the fault is in none of them.
    pub object: usize,
    /// The identifier of that object, if its type and its instance are valid.
    pub id: Option<ObjectIdentifier>,
    /// The key; empty if the object is not a table.
    pub key: String,
}

/// Why a store does not take the objects that a document describes.
#[derive(Clone, Copy, Debug, PartialEq, Eq)]
pub struct Refusal {
    /// The fault: the place of the object in the document counts from 0.
    pub fault: DescriptionFault,
}

/// Why a document is not a store.
#[derive(Debug, Drop, Error)]
pub enum DocumentFault {
    /// The document is not TOML in UTF-8; `line` is the number of the line with the first error, from 1 on.
    #[error("line {line}: {}", .error.message())]
    NoToml { line: usize, error: toml::de::Error },
    /// A key has a value that is not allowed.
    #[error("{place}{problem}")]
    Wrong { place: Place, problem: Problem },
    /// The objects that the document describes are no store.
    #[error("{0}")]
    Refused(Refusal),
    /// An allocation failed.
    #[error("no memory")]
    NoMemory,
}

impl fmt::Display for Refusal {
    fn fmt<W: fmt::Write>(&self, f: &mut fmt::Formatter<W>) -> fmt::Result {
        let DescriptionFault {
            object,
            property,
            why,
        } = self.fault;
        if let Some(object) = object {
            let number = object.saturating_add(1);
            write!(f, "object {number}: ")?;
        }
        if let Some(property) = property {
            write_property(f, property)?;
        }
        write!(f, "{why}")
    }
}

/// Prints a property as a key: its name, or its number.
fn write_property<W: fmt::Write>(f: &mut fmt::Formatter<W>, property: u32) -> fmt::Result {
    match property_name(property) {
        Some(name) => write!(f, "{name}: "),
        None => write!(f, "{property}: "),
    }
}

impl fmt::Display for Place {
    fn fmt<W: fmt::Write>(&self, f: &mut fmt::Formatter<W>) -> fmt::Result {
        let Place { object, id, key } = self;
        if *object > 0 {
            write!(f, "object {object}")?;
            if let Some(id) = id {
                write_id(f, *id)?;
            }
            f.write_str(": ")?;
        }
        if key.is_empty() {
            return Ok(());
        }
        write!(f, "{key}: ")
    }
}

/// Prints an identifier in parentheses: the name of its type, or its number, and its instance.
pub(crate) fn write_id<W: fmt::Write>(
    f: &mut fmt::Formatter<W>,
    id: ObjectIdentifier,
) -> fmt::Result {
    let ObjectIdentifier { kind, instance } = id;
    match object_type_name(u32::from(kind)) {
        Some(name) => write!(f, " ({name} {instance})"),
        None => write!(f, " ({kind} {instance})"),
    }
}

impl From<AllocError> for DocumentFault {
    ghost from_gives = { λ _ e. e ≡ document_fault.NoMemory };

    fn from(_error: AllocError) -> DocumentFault {
        DocumentFault::NoMemory
    }
}

impl From<NoMemory> for DocumentFault {
    ghost from_gives = { λ _ e. e ≡ document_fault.NoMemory };

    fn from(_error: NoMemory) -> DocumentFault {
        DocumentFault::NoMemory
    }
}

/// Why no value was read.
#[derive(Clone, Copy)]
pub(crate) enum ValueFault {
    Wrong(Problem),
    NoMemory,
}

/// What is wrong in the table of an object.
#[derive(Clone, Copy)]
pub(crate) struct Flaw<'a> {
    /// The object's identifier, if its type and its instance are valid.
    pub(crate) id: Option<ObjectIdentifier>,
    /// The key; empty if the fault is the table itself.
    pub(crate) key: &'a str,
    pub(crate) problem: Problem,
}

/// Why no object was read.
#[derive(Clone, Copy)]
pub(crate) enum ObjectFault<'a> {
    Flaw(Flaw<'a>),
    NoMemory,
}

impl From<AllocError> for ObjectFault<'_> {
    ghost from_gives = { λ _ e. e ≡ object_fault.NoMemory };

    fn from(_error: AllocError) -> Self {
        ObjectFault::NoMemory
    }
}

impl<T: Drop> From<AllocFailed<T>> for ObjectFault<'_> {
    ghost from_gives = { λ _ e. e ≡ object_fault.NoMemory };

    fn from(_error: AllocFailed<T>) -> Self {
        ObjectFault::NoMemory
    }
}

impl From<Problem> for ValueFault {
    ghost from_gives = { λ p e. e ≡ value_fault.Wrong p };

    fn from(problem: Problem) -> ValueFault {
        ValueFault::Wrong(problem)
    }
}

impl From<NoMemory> for ValueFault {
    ghost from_gives = { λ _ e. e ≡ value_fault.NoMemory };

    fn from(_error: NoMemory) -> ValueFault {
        ValueFault::NoMemory
    }
}

impl From<AllocError> for ValueFault {
    ghost from_gives = { λ _ e. e ≡ value_fault.NoMemory };

    fn from(_error: AllocError) -> ValueFault {
        ValueFault::NoMemory
    }
}

impl<T: Drop> From<AllocFailed<T>> for ValueFault {
    ghost from_gives = { λ _ e. e ≡ value_fault.NoMemory };

    fn from(_error: AllocFailed<T>) -> ValueFault {
        ValueFault::NoMemory
    }
}
