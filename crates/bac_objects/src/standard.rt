//! The properties that the standard requires of an object (clause 12), where its document gives it none.
ghost use Rattle.std.specs.Prelude.{◌≡◌, map};
ghost use Rattle.std.specs.Option.{option_map};
ghost use Rattle.bac_store.specs.Views.{file_view, property_view};
ghost use Rattle.bac_objects.specs.Answers.{Reads};
ghost use Rattle.bac_objects.specs.Standard.{is_written as is_written_of, plain, rows_of as rows_in, standard_property as standard_property_of, with_row as with_row_of, with_rows as with_rows_of};

use crate::fault::ValueFault;
use crate::property::{data_in, has_number};
use bac_store::{Allowed, File, Property};
use std::alloc::Global;

/// The number of a property, and its encoded values.
pub(crate) type Row = (u32, &'static [u8]);

/// A measured, commanded or stored number: no alarm, in service, without units.
const ANALOG: &[Row] = &[
    (36, &[0x91, 0]),
    (81, &[0x10]),
    (111, &[0x82, 4, 0]),
    (117, &[0x91, 95]),
];

/// An input or output with two states: no alarm, in service, normal polarity.
const BINARY: &[Row] = &[
    (36, &[0x91, 0]),
    (81, &[0x10]),
    (84, &[0x91, 0]),
    (111, &[0x82, 4, 0]),
];

/// Another point: no alarm, in service.
const POINT: &[Row] = &[(36, &[0x91, 0]), (81, &[0x10]), (111, &[0x82, 4, 0])];

/// A device: what `bac serve` is.
const DEVICE: &[Row] = &[
    // APDU segment timeout and APDU timeout in milliseconds
    (10, &[0x22, 0x07, 0xD0]),
    (11, &[0x22, 0x0B, 0xB8]),
    // application-software-version and firmware-revision, as texts
    (12, &[0x75, 6, 0, b'1', b'.', b'0', b'.', b'0']),
    // no device-address-binding
    (30, &[]),
    (44, &[0x75, 6, 0, b'1', b'.', b'0', b'.', b'0']),
    (62, &[0x22, 0x05, 0xC4]),
    (70, &[0x74, 0, b'b', b'a', b'c']),
    (73, &[0x21, 3]),
    // all 51 object types of protocol revision 12
    (96, &[0x85, 8, 5, 0xFF, 0xFF, 0xFF, 0xFF, 0xFF, 0xFF, 0xE0]),
    // of its 40 services the four that are served: 6, 7, 12 and 15
    (97, &[0x85, 6, 0, 0x03, 0x09, 0, 0, 0]),
    (98, &[0x21, 1]),
    // segmented requests and responses
    (107, &[0x91, 0]),
    // operational
    (112, &[0x91, 0]),
    (120, &[0x21, 0]),
    (
        121,
        &[0x75, 9, 0, b'N', b'u', b'u', b't', b'r', b'e', b'v', b'i'],
    ),
    (139, &[0x21, 12]),
    (155, &[0x21, 1]),
    // so many of the largest segments have fewer than 65,536 octets of data
    (167, &[0x21, 44]),
];

/// A file that clients may write: of no named type, not archived, changed at no known time.
const WRITTEN_FILE: &[Row] = &[
    (13, &[0x10]),
    (43, &[0x71, 0]),
    (71, &[0xA4, 255, 255, 255, 255, 0xB4, 255, 255, 255, 255]),
    (99, &[0x10]),
];

/// The same, of a file that they may only read.
const READ_FILE: &[Row] = &[
    (13, &[0x10]),
    (43, &[0x71, 0]),
    (71, &[0xA4, 255, 255, 255, 255, 0xB4, 255, 255, 255, 255]),
    (99, &[0x11]),
];

/// Whether an object is a file that clients may write.
pub(crate) fn is_written(file: &Option<File>) -> bool
    ensures { result ≡ is_written_of (option_map file_view file.now) }
{
    match file {
        Some(file) => file.writable,
        None => false,
    }
}

/// What the standard requires of an object of this type; of a file that may or may not be written.
#[tactic(auto, unfolding(crate::specs::Standard::ANALOG, crate::specs::Standard::BINARY, crate::specs::Standard::POINT, crate::specs::Standard::DEVICE, crate::specs::Standard::WRITTEN_FILE, crate::specs::Standard::READ_FILE))]
pub(crate) fn rows_of(kind: u16, written: bool) -> &'static [Row]
    ensures { plain result.now ≡ rows_in kind written }
{
    match kind {
        0..=2 => ANALOG,
        3 | 4 => BINARY,
        5 | 13 | 14 | 19 => POINT,
        8 => DEVICE,
        10 if written => WRITTEN_FILE,
        10 => READ_FILE,
        _ => &[],
    }
}

fn standard_property(alloc: Global, number: u32, values: &[u8]) -> Result<Property, ValueFault>
    ensures { Reads property_view result (standard_property_of (number, values.now)) }
{
    let octets = Vec::from_slice(alloc, values)?;
    let values = data_in(octets)?;
    Ok(Property {
        number,
        values,
        writable: false,
        allowed: Allowed::Any,
    })
}

/// The properties, with one more if they lack it.
fn with_row(alloc: Global, done: Vec<Property>, row: Row) -> Result<Vec<Property>, ValueFault>
    ensures { Reads (λ v. map property_view v.items) result (with_row_of (map property_view done.items) (row.entry.0, row.entry.1.now)) }
{
    let (number, values) = row;
    if has_number(number, &done) {
        return Ok(done);
    }
    let property = standard_property(alloc, number, values)?;
    let mut properties = done;
    properties.push(property)?;
    Ok(properties)
}

/// The properties, with those of some rows that they lack.
pub(crate) fn with_rows(
    alloc: Global,
    properties: Vec<Property>,
    rows: &[Row],
) -> Result<Vec<Property>, ValueFault>
    ensures { Reads (λ v. map property_view v.items) result (with_rows_of (map property_view properties.items) (plain rows.now)) }
{
    let mut done = properties;
    for row in rows {
        done = with_row(alloc, done, *row)?;
    }
    Ok(done)
}
