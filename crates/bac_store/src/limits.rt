//! The store's own limits, and the numbers of object types and properties that it knows (clause 21).

/// The greatest length in octets of a property's values, and of an encoded name (own limit).
pub const VALUE_LIMIT: usize = 4096;

/// The greatest length of a file in octets (own limit).
pub const FILE_LIMIT: usize = 60_000;

/// The most objects that a store describes (own limit): the identifiers of that many are an object-list of 4,095 octets.
pub const OBJECTS_LIMIT: usize = 819;

/// How many instance numbers there are, including the wildcard: 22 bits (clause 20.2.14).
pub(crate) const INSTANCES: u32 = 0x40_0000;

/// The instance number that is a wildcard for any instance; no object has it.
pub(crate) const ANY_INSTANCE: u32 = 4_194_303;

// the first and the last proprietary object type (clause 23.1)

pub(crate) const FIRST_VENDOR_TYPE: u16 = 128;

pub(crate) const LAST_VENDOR_TYPE: u16 = 1023;

// the first and the last proprietary property (clause 23.1)

pub(crate) const FIRST_VENDOR_PROPERTY: u32 = 512;

pub(crate) const LAST_VENDOR_PROPERTY: u32 = 4_194_303;

// object types (BACnetObjectType)

pub(crate) const ANALOG_INPUT: u16 = 0;

pub(crate) const ANALOG_OUTPUT: u16 = 1;

pub(crate) const ANALOG_VALUE: u16 = 2;

pub(crate) const BINARY_INPUT: u16 = 3;

pub(crate) const BINARY_OUTPUT: u16 = 4;

pub(crate) const BINARY_VALUE: u16 = 5;

pub(crate) const DEVICE: u16 = 8;

pub(crate) const FILE: u16 = 10;

pub(crate) const MULTI_STATE_INPUT: u16 = 13;

pub(crate) const MULTI_STATE_OUTPUT: u16 = 14;

pub(crate) const MULTI_STATE_VALUE: u16 = 19;

// properties (BACnetPropertyIdentifier)

pub(crate) const ACTION_TEXT: u32 = 3;

pub(crate) const DESCRIPTION: u32 = 28;

pub(crate) const FILE_ACCESS_METHOD: u32 = 41;

/// The property whose value is the number of octets of a file (clause 12.13). A granted WriteProperty of it changes the file, and no listed
/// property.
pub const FILE_SIZE: u32 = 42;

pub(crate) const OBJECT_IDENTIFIER: u32 = 75;

pub(crate) const OBJECT_LIST: u32 = 76;

pub(crate) const OBJECT_NAME: u32 = 77;

pub(crate) const OBJECT_TYPE: u32 = 79;

pub(crate) const PRESENT_VALUE: u32 = 85;

pub(crate) const READ_ONLY: u32 = 99;

pub(crate) const STATE_TEXT: u32 = 110;

pub(crate) const CONFIGURATION_FILES: u32 = 154;

pub(crate) const PROPERTY_LIST: u32 = 371;

/// The least size of a file, 0 octets, as an encoded Unsigned.
pub(crate) const LEAST_SIZE: &[u8] = &[0x21, 0];

/// The greatest size of a file, [`FILE_LIMIT`] octets, as an encoded Unsigned.
pub(crate) const GREATEST_SIZE: &[u8] = &[0x22, 0xEA, 0x60];

/// Stream access, the access method of every file (BACnetFileAccessMethod).
pub(crate) const STREAM_ACCESS: u32 = 1;

/// The first octet of an Enumerated with one octet of contents: its tag.
pub(crate) const STATE_TAG: u8 = 0x91;

/// The first octet of an Unsigned with one octet of contents: its tag.
pub(crate) const UNSIGNED_TAG: u8 = 0x21;
