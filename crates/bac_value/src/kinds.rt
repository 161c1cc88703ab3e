//! The kinds of application values, each with its application tag number (clause 20.2.1.4).

/// Null: empty contents (clause 20.2.2).
pub const NULL: u8 = 0;
/// Boolean: the value is part of the tag, and the contents are empty (clause 20.2.3).
pub const BOOLEAN: u8 = 1;
/// Unsigned: 1 to 8 octets (clause 20.2.4).
pub const UNSIGNED: u8 = 2;
/// Signed: two's complement in 1 to 8 octets (clause 20.2.5).
pub const SIGNED: u8 = 3;
/// Real: 4 octets (clause 20.2.6).
pub const REAL: u8 = 4;
/// Double: 8 octets (clause 20.2.7).
pub const DOUBLE: u8 = 5;
/// OctetString: any octets (clause 20.2.8).
pub const OCTET_STRING: u8 = 6;
/// CharacterString: an octet for the character set, then the text (clause 20.2.9).
pub const CHARACTER_STRING: u8 = 7;
/// BitString: an octet for the number of unused bits, then the bits (clause 20.2.10).
pub const BIT_STRING: u8 = 8;
/// Enumerated: an unsigned number in 1 to 4 octets (clause 20.2.11).
pub const ENUMERATED: u8 = 9;
/// Date: 4 octets (clause 20.2.12).
pub const DATE: u8 = 10;
/// Time: 4 octets (clause 20.2.13).
pub const TIME: u8 = 11;
/// ObjectIdentifier: an object's type and instance in 4 octets (clause 20.2.14).
pub const OBJECT_IDENTIFIER: u8 = 12;
