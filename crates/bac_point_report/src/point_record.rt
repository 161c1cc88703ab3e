//! The points of a device as records: JSON objects and CSV rows.

use crate::columns::NAMES;
use crate::outcome::values_of;
use crate::points::{Cell, cell_of};
use bac_ask_report::{CellText, Outcome};
use bac_json::{Members, data_json, object_json};
use bac_json_report::json_line;
use bac_service::{AnyRequest, PropertyReference};
use bac_value::{Data, NoMemory, ObjectIdentifier, Value, value_of};
use bac_value_text::object_text;
use csv::{ByteRecord, Writer};
use serde_json::Value as Json;
use std::alloc::{AllocError, Global};
use std::str;

/// The row with the names of the columns.
pub const CSV_HEADER: &[u8] = b"object,name,value,units,description,status\n";

// ---- cells

/// The text that a value is, as it came. None if it is no text of UTF-8.
fn text_in(alloc: Global, value: &Value) -> Result<Option<Vec<u8>>, AllocError> {
    let Value::CharacterString(string) = value else {
        return Ok(None);
    };
    if string.set != 0 || str::from_utf8(&string.text).is_err() {
        return Ok(None);
    }
    Ok(Some(Vec::from_slice(alloc, &string.text)?))
}

/// The text that is the only value, as it came. None if there is none.
fn sole_text(alloc: Global, values: Data<'_>) -> Result<Option<Vec<u8>>, NoMemory> {
    let Some((element, others)) = values.elements().split_first() else {
        return Ok(None);
    };
    if !others.octets.is_empty() {
        return Ok(None);
    }
    match value_of(alloc, element)? {
        Some(value) => Ok(text_in(alloc, &value)?),
        None => Ok(None),
    }
}

/// The cell of a property whose ask ended so, for a record: that of [`cell_of`], but in a text nothing is escaped. An Err is out of memory.
pub fn record_cell(
    alloc: Global,
    reference: PropertyReference,
    outcome: Outcome<'_>,
) -> Result<Cell, NoMemory> {
    if let Some(values) = values_of(AnyRequest::ReadProperty(reference), outcome) {
        if let Some(text) = sole_text(alloc, values)? {
            return Ok(Cell {
                text,
                is_faulty: false,
            });
        }
    }
    cell_of(alloc, reference, outcome)
}

// ---- JSON

/// The object with a text as one more member; Null where the octets are no UTF-8.
fn with_text(object: Members, name: &str, text: &[u8]) -> Members {
    match str::from_utf8(text) {
        Ok(text) => object.text(name, text),
        Err(_) => object.json(name, Json::Null),
    }
}

/// The object with the text of a cell as one more member; Null where it is empty, and where its value did not come.
fn with_cell(object: Members, name: &str, cell: Option<&Cell>) -> Members {
    match cell {
        Some(cell) if !cell.is_faulty && !cell.text.is_empty() => {
            with_text(object, name, &cell.text)
        }
        _ => object.json(name, Json::Null),
    }
}

/// Why values did not come, by the names of their columns.
fn faults_json(alloc: Global, cells: &[Cell]) -> Result<Json, AllocError> {
    let mut faults = Members::new(alloc);
    for place in 0..5 {
        if let Some(cell) = cells.get(place) {
            if cell.is_faulty {
                faults = with_text(faults, NAMES[place], &cell.text);
            }
        }
    }
    faults.end()
}

/// Values, each with its kind; Null where there are none.
fn values_json(alloc: Global, values: Option<Data<'_>>) -> Result<Json, NoMemory> {
    match values {
        Some(values) => Ok(Json::Array(data_json(alloc, values)?)),
        None => Ok(Json::Null),
    }
}

/// The line of an object as a JSON object, whose members docs/FORMATS.md ("JSON") lists; `values` are those of its present-value, if they came. An Err is out of
/// memory.
pub fn point_object(
    alloc: Global,
    object: ObjectIdentifier,
    cells: &[Cell],
    values: Option<Data<'_>>,
) -> Result<Vec<u8>, NoMemory> {
    let values = values_json(alloc, values)?;
    let faults = faults_json(alloc, cells)?;
    let named = object_json(alloc, object)?;
    let members = with_cell(Members::new(alloc), "description", cells.get(3));
    let members = with_cell(members.json("faults", faults), "name", cells.get(0));
    let members = with_cell(members.json("object", named), "status", cells.get(4));
    let members = with_cell(members, "units", cells.get(2));
    let members = with_cell(members, "value", cells.get(1)).json("values", values);
    let point = members.end()?;
    Ok(json_line(alloc, &point)?)
}

// ---- CSV

/// Whether a spreadsheet computes a text that begins so.
fn begins_formula(text: &[u8]) -> bool {
    match text {
        [] => false,
        [first, ..] => matches!(*first, b'=' | b'+' | b'-' | b'@' | b'\t' | b'\r'),
    }
}

/// Whether a text is a number, which a spreadsheet takes as it is.
fn is_number(text: &[u8]) -> bool {
    fast_float::parse::<f64, _>(text).is_ok()
}

/// Adds a cell, in which an apostrophe stands before a text that a spreadsheet would compute, unless texts stand as they came.
fn push_cell(
    alloc: Global,
    texts: CellText,
    text: &[u8],
    row: &mut ByteRecord,
) -> Result<(), AllocError> {
    if texts == CellText::Raw || !begins_formula(text) || is_number(text) {
        return row.push_field(text);
    }
    let mut field = Vec::from_slice(alloc, b"'")?;
    field.extend_from_slice(text)?;
    row.push_field(&field)
}

/// The fields of a row with commas between them and the end of a line.
fn row_text(alloc: Global, row: &ByteRecord) -> Result<Vec<u8>, AllocError> {
    let mut writer = Writer::from_writer(Vec::new(alloc));
    if writer.write_byte_record(row).is_err() {
        return Err(AllocError);
    }
    match writer.into_inner() {
        Ok(text) => Ok(text),
        Err(_) => Err(AllocError),
    }
}

/// The line of an object as a CSV row; `texts` says what becomes of a text that a spreadsheet would compute. An Err is out of memory.
pub fn point_row(
    alloc: Global,
    texts: CellText,
    object: ObjectIdentifier,
    cells: &[Cell],
) -> Result<Vec<u8>, AllocError> {
    let mut row = ByteRecord::new(alloc);
    row.push_field(&object_text(alloc, object)?)?;
    for cell in cells {
        push_cell(alloc, texts, &cell.text, &mut row)?;
    }
    row_text(alloc, &row)
}
