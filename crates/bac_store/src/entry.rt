//! Objects as a store keeps them.
use crate::allowed::Allowed;
use crate::object::File;
use bac_value::{DataBuf, ObjectIdentifier};

/// A listed property, with the application tag that its values must have, if any, and with its limits.
#[derive(Debug, Drop)]
pub(crate) struct StoredProperty {
    pub number: u32,
    pub values: DataBuf,
    pub writable: bool,
    pub kind: Option<u8>,
    pub allowed: Allowed,
}

/// An object whose properties are in ascending order.
#[derive(Debug, Drop)]
pub(crate) struct StoredObject {
    pub id: ObjectIdentifier,
    pub name: String,
    pub slots: Vec<StoredProperty>,
    pub file: Option<File>,
}
