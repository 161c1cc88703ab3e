//! What a C program sets at its own node.

/// What a C program sets at its own node.
#[derive(Clone, Copy)]
pub enum Setting<'a> {
    /// The values of a listed property, as octets of data.
    Value {
        object_type: u16,
        instance: u32,
        property: u32,
        octets: &'a [u8],
    },
    /// All octets of a file.
    File {
        instance: u32,
        octets: &'a [u8],
    },
}
