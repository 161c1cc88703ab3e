//! The octets of a line.
use bac_rows::row::Row;
use bac_rows::script::plain;

/// The octets of hexadecimal digits, of which `{41*00}` are so many of the same.
pub(crate) fn octets_of(digits: &str, row: &Row) -> Vec<u8> {
    match plain(row.alloc, digits) {
        Ok(digits) => row.octets(&digits, 0),
        Err(_) => Vec::new(row.alloc),
    }
}
