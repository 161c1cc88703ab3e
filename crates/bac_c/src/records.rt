//! What crosses between a C program and the library, beside numbers and octets.

/// What a node is made of, as bac_node's `Config`.
#[repr(C)]
#[derive(Clone, Copy, Debug, PartialEq, Eq)]
pub struct Settings {
    /// How many octets the settings have: [`SETTINGS_SIZE`](crate::settings::SETTINGS_SIZE).
    pub size: usize,
    /// The node's own link: four octets of IPv4 address, and two of UDP port, the high one first.
    pub link: [u8; 6],
    /// The code of the longest APDU that it takes: 0 to 5 (50, 128, 206, 480, 1,024 and 1,476 octets).
    pub max_apdu: u8,
    /// Whether it takes replies in segments.
    pub takes_segments: bool,
    /// The code of how many segments it takes: 0 to 7 (unspecified, 2, 4, 8, 16, 32, 64, more).
    pub max_segments: u8,
    /// The greatest window that it proposes or grants: 1 to 64 segments.
    pub window: u8,
    /// How many asks can be open at once: 1 to 65,536.
    pub client_slots: usize,
    /// How many entries the reply table has: 1 to 65,536.
    pub reply_slots: usize,
    /// Whether clients may use an invoke ID again as soon as its transaction is over (clause 5.4).
    pub reuse_invoke_ids: bool,
    /// Zeros: room for members of later versions.
    pub later: [u8; 3],
    /// How many octets of service data it keeps for those that ask it: 65,540 and more, or 0 for 64 MiB.
    pub memory: u32,
}

/// How an ask ended.
#[repr(C)]
#[derive(Clone, Copy, Debug, PartialEq, Eq)]
pub struct End {
    /// The ticket's number.
    pub ticket: u64,
    /// How: 0 values of a property, 1 done, 2 an Error, 3 a Reject, 4 an Abort. Also 5 timed out, 6 expired, 7 octets of a file, 8 where a file was
    /// written.
    pub how: u32,
    /// The class of an Error, otherwise 0.
    pub class: u32,
    /// The code of an Error, the reason of a Reject or an Abort, 1 where octets of a file reach its end, otherwise 0.
    pub code: u32,
    /// The position of the first octet in the file, otherwise 0.
    pub position: i64,
}

/// Whom a node asks, and what that takes.
#[repr(C)]
#[derive(Clone, Copy, Debug, PartialEq, Eq)]
pub struct Target {
    /// The peer's link: four octets of IPv4 address, and two of UDP port, the high one first.
    pub link: [u8; 6],
    /// The code of the longest APDU that it takes, as of `Settings`.
    pub max_apdu: u8,
    /// Whether it takes requests in segments.
    pub takes_segments: bool,
    /// The code of how many segments it takes, as of `Settings`.
    pub max_segments: u8,
}

/// A property of an object.
#[repr(C)]
#[derive(Clone, Copy, Debug, PartialEq, Eq)]
pub struct Reference {
    /// The object's type, 0 to 1,023.
    pub object_type: u16,
    /// The object's instance, 0 to 4,194,303.
    pub instance: u32,
    /// The property's number.
    pub property: u32,
    /// The index of an element; 4,294,967,295: the property as a whole.
    pub index: u32,
}

/// A request that was performed.
#[repr(C)]
#[derive(Clone, Copy, Debug, PartialEq, Eq)]
pub struct Performed {
    /// The link of the peer that asked.
    pub link: [u8; 6],
    /// The service choice: 6 AtomicReadFile, 7 AtomicWriteFile, 12 ReadProperty, 15 WriteProperty; 0 where none was performed.
    pub service: u8,
    /// Whether it was answered with something else than an Error.
    pub done: bool,
    /// The object's type.
    pub object_type: u16,
    /// The priority of a write of a property, 1 to 16; 0 where it has none, and of all other requests.
    pub priority: u8,
    /// The object's instance.
    pub instance: u32,
    /// The property's number; 0 of a file.
    pub property: u32,
    /// The index of an element; 4,294,967,295: the property as a whole; 0 of a file.
    pub index: u32,
    /// The position that was asked for in a file, -1 its end; 0 of a property.
    pub position: i64,
}

/// Why a start refuses the objects that are listed.
#[repr(C)]
#[derive(Clone, Copy, Debug, PartialEq, Eq)]
pub struct Refused {
    /// The place of the first object that is refused, in the order in which they are listed, from 0; 2^64 - 1 where no single one is.
    pub object: u64,
    /// The number of the refused property; 2^32 - 1 where the object is refused for another reason.
    pub property: u32,
    /// What is wrong: 1 to 12 in the order of bac_store's `DescriptionFlaw`, 1 to 13 as [`Flaw`](crate::flaw::Flaw) says; 0 where nothing is.
    pub flaw: u32,
}
