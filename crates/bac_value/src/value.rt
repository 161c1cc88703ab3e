//! The thirteen kinds of application values (clause 20.2).
ghost use Rattle.std.specs.Prelude.{◌≡◌, ◌<◌, ◌+◌, ◌^◌, ◌↔◌, ◌∷◌, IsSome, IfSome, IsTrue, true, length};
ghost use Rattle.bac_value.specs.Limits.{bits_fit};

use crate::contents::are_bits_fit;

/// An octet string of at most `2^32 - 1` octets (clause 20.2.8).
#[derive(Debug, Drop)]
pub struct OctetString {
    /// The octets of the string.
    pub octets: Vec<u8>,
    pub ghost fits: { length octets.items < 2 ^ 32 },
}

/// A character string: the octet of a character set (0 is UTF-8) and at most `2^32 - 2` octets of text (clause 20.2.9).
/// The text is not checked against the character set.
#[derive(Debug, Drop)]
pub struct CharacterString {
    /// The number of the character set.
    pub set: u8,
    /// The octets of the text.
    pub text: Vec<u8>,
    pub ghost fits: { length text.items + 1 < 2 ^ 32 },
}

/// A bit string: at most `2^32 - 2` octets, where the first bit is bit 7 of the first octet (clause 20.2.10).
///
/// The unused bits are the lowest of the last octet: 0 to 7 of them, all 0, and none if there are no octets.
#[derive(Debug, Drop)]
pub struct BitString {
    /// How many bits of the last octet do not belong to the string, 0 to 7.
    pub unused: u8,
    /// The bits, eight in each octet.
    pub octets: Vec<u8>,
    pub ghost fits: { length octets.items + 1 < 2 ^ 32 },
    pub ghost unused_fits: { IsTrue (bits_fit unused octets.items) },
}

/// An object identifier: the object's type, 0 to 1,023, and its instance, 0 to 4,194,303 (clause 20.2.14).
#[derive(Clone, Copy, Debug, PartialEq, Eq)]
pub struct ObjectIdentifier {
    /// The object's type, 0 to 1,023 (BACnetObjectType).
    pub kind: u16,
    /// The object's number among those of its type, 0 to 4,194,303.
    pub instance: u32,
    pub ghost kind_fits: { kind < 1024 },
    pub ghost instance_fits: { instance < 2 ^ 22 },
}

/// A value of one of the thirteen application kinds (clause 20.2.1.4). Real, Double, Date and Time hold their raw octets.
#[derive(Debug, Drop)]
pub enum Value {
    Null,
    Boolean(bool),
    Unsigned(u64),
    Signed(i64),
    Real([u8; 4]),
    Double([u8; 8]),
    OctetString(OctetString),
    CharacterString(CharacterString),
    BitString(BitString),
    Enumerated(u32),
    Date([u8; 4]),
    Time([u8; 4]),
    ObjectIdentifier(ObjectIdentifier),
}

impl OctetString {
    /// An octet string; None exactly if there are too many octets.
    pub fn new(octets: Vec<u8>) -> Option<OctetString>
        ensures some { IsSome result ↔ (length octets.items < 2 ^ 32) }
        ensures same { IfSome result (λ s. s.octets ≡ octets) }
    {
        if octets.len() < 0x1_0000_0000 {
            Some(OctetString { octets })
        } else {
            None
        }
    }
}

impl CharacterString {
    /// A character string; None exactly if the text is too long.
    pub fn new(set: u8, text: Vec<u8>) -> Option<CharacterString>
        ensures some { IsSome result ↔ (length text.items + 1 < 2 ^ 32) }
        ensures same { IfSome result (λ s. (s.set ≡ set) × (s.text ≡ text)) }
    {
        if text.len() < 0xffff_ffff {
            Some(CharacterString { set, text })
        } else {
            None
        }
    }
}

impl BitString {
    /// A bit string; None exactly if there are too many octets, or the unused bits break the rules of this type.
    pub fn new(unused: u8, octets: Vec<u8>) -> Option<BitString>
        ensures some { IsSome result ↔ ((length octets.items + 1 < 2 ^ 32) × IsTrue (bits_fit unused octets.items)) }
        ensures same { IfSome result (λ s. (s.unused ≡ unused) × (s.octets ≡ octets)) }
    {
        if octets.len() < 0xffff_ffff && are_bits_fit(unused, octets.as_slice()) {
            Some(BitString { unused, octets })
        } else {
            None
        }
    }
}

impl ObjectIdentifier {
    /// An object identifier; None exactly if a number is out of range.
    pub fn new(kind: u16, instance: u32) -> Option<ObjectIdentifier>
        ensures some { IsSome result ↔ ((kind < 1024) × (instance < 2 ^ 22)) }
        ensures same { IfSome result (λ i. (i.kind ≡ kind) × (i.instance ≡ instance)) }
    {
        if kind < 1024 && instance < 0x40_0000 {
            Some(ObjectIdentifier { kind, instance })
        } else {
            None
        }
    }
}
