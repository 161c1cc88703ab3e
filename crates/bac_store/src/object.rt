//! The objects from which a store is created (clause 12).
use crate::allowed::Allowed;
use bac_value::{DataBuf, ObjectIdentifier};

/// A listed property of an object, that is, any property that is not computed (see [`Object`]).
#[derive(Debug, Drop)]
pub struct Property {
    /// The property number (clause 21, BACnetPropertyIdentifier): description (28), present-value (85), or a proprietary one (512 to
    /// 4,194,303, clause 23.1). The computed properties (41, 42, 75, 77 and 79) and all others can't be listed.
    pub number: u32,
    /// The values, encoded as data (clause 20.2), at most [`VALUE_LIMIT`](crate::VALUE_LIMIT) octets. A description is one
    /// CharacterString. A present-value is one Real for an analog-input or analog-value, Enumerated 0 or 1 for a binary-value,
    /// and any data for other types. A proprietary property has any data, or none.
    ///
    /// If they are one application value, its tag is the kind that all values written later must have.
    pub values: DataBuf,
    /// Whether WriteProperty may set the values (clause 15.9).
    pub writable: bool,
    /// Which values WriteProperty may set. Limits need values that are one application value, of a kind that fits the limits, and that the
    /// limits allow.
    pub allowed: Allowed,
}

/// The contents of a file (clause 12.13), which are read and written as a stream of octets.
#[derive(Debug, Drop)]
pub struct File {
    /// The octets, at most [`FILE_LIMIT`](crate::FILE_LIMIT) of them.
    pub octets: Vec<u8>,
    /// Whether AtomicWriteFile may write to it (clause 14.2), and WriteProperty set its size, if the object lists read-only (99).
    /// AtomicReadFile ignores this flag.
    pub writable: bool,
}

/// An object (clause 12).
///
/// In addition to its listed properties it has computed ones. They are object-identifier (75), object-name (77) and object-type (79), and for a file
/// file-access-method (41) and file-size (42, in octets). Only the file-size can be written, where the file can and the object lists read-only (99):
/// a smaller size cuts the file, and a greater one appends zeros (clause 12.13).
#[derive(Debug, Drop)]
pub struct Object {
    /// The object identifier (clause 20.2.14). The type is analog-input (0), analog-value (2), binary-value (5), device (8), file (10)
    /// or a proprietary one (128 to 1,023, clause 23.1). The instance is 0 to 4,194,302, as 4,194,303 is the wildcard.
    pub id: ObjectIdentifier,
    /// The name, a text in character set 0 (UTF-8) of at most 4,091 octets, so that its encoding with tag, length and character set
    /// takes at most [`VALUE_LIMIT`](crate::VALUE_LIMIT) octets.
    pub name: String,
    /// The listed properties in any order, where each number appears at most once.
    pub properties: Vec<Property>,
    /// The contents of a file; None for all other objects.
    pub file: Option<File>,
}
