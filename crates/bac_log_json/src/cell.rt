//! What is kept of a property, or of a file.
ghost use Rattle.std.specs.Prelude.{◌≡◌, IfOk, OnOk};
ghost use Rattle.bac_json.specs.Forms.{object_form};
ghost use Rattle.bac_json_report.specs.Lines.{IsLineOf};
ghost use Rattle.bac_log_json.specs.Cells.{AreKeptValues, File, IsCellForm, Values, cell_form, part_view};
ghost use Rattle.bac_text.specs.Texts.{AppendsText};
ghost use Rattle.bac_value.specs.Views.{object_identifier_view};
ghost use Rattle.serde_json.specs.View.{view};

use bac_json::{Members, data_json, object_json, octets_json, property_json};
use bac_json_report::print_json;
use bac_value::{NoMemory, ObjectIdentifier, read_data};
use serde_json::Value as Json;
use std::alloc::{AllocError, Global};
use std::io;
use std::io::{ErrorKind, Write};

/// What the file of a server keeps of one property, or of one file.
#[derive(Clone, Copy, Debug)]
pub enum KeptPart<'a> {
    /// The values of a property, as they are encoded.
    Values {
        object: ObjectIdentifier,
        property: u32,
        octets: &'a [u8],
    },
    /// A file, and how many octets it has.
    File {
        object: ObjectIdentifier,
        length: u64,
    },
}

/// What is kept of an object; Null for what is not.
#[derive(Drop)]
struct CellMembers {
    length: Json,
    octets: Json,
    property: Json,
    values: Json,
}

/// What is kept of an object, its members in alphabetical order.
fn cell_object(
    alloc: Global,
    object: ObjectIdentifier,
    cell: CellMembers,
) -> Result<Json, AllocError>
    ensures { IfOk result (λ v. view v ≡ cell_form (object_identifier_view object) (view cell.length) (view cell.octets) (view cell.property) (view cell.values)) }
{
    let object = object_json(alloc, object)?;
    Members::new(alloc)
        .json("length", cell.length)
        .json("object", object)
        .json("octets", cell.octets)
        .json("property", cell.property)
        .json("values", cell.values)
        .end()
}

/// Values as an array, or Null and their octets where they are none.
#[derive(Drop)]
struct KeptValues {
    octets: Json,
    values: Json,
}

/// Values as an array; octets that are no data as they are, in hexadecimal.
fn kept_values(alloc: Global, octets: &[u8]) -> Result<KeptValues, NoMemory>
    ensures { IfOk result (λ k. AreKeptValues octets.now (view k.octets) (view k.values)) }
{
    match read_data(octets) {
        Ok((values, _)) => Ok(KeptValues {
            octets: Json::Null,
            values: Json::Array(data_json(alloc, values)?),
        }),
        Err(_) => Ok(KeptValues {
            octets: octets_json(alloc, octets)?,
            values: Json::Null,
        }),
    }
}

fn values_object(
    alloc: Global,
    object: ObjectIdentifier,
    property: u32,
    octets: &[u8],
) -> Result<Json, NoMemory>
    ensures { IfOk result (λ v. IsCellForm (Values (object_identifier_view object) property octets.now) (view v)) }
{
    let kept = kept_values(alloc, octets)?;
    let property = property_json(alloc, property)?;
    let cell = CellMembers {
        length: Json::Null,
        octets: kept.octets,
        property,
        values: kept.values,
    };
    Ok(cell_object(alloc, object, cell)?)
}

fn file_object(alloc: Global, object: ObjectIdentifier, length: u64) -> Result<Json, AllocError>
    ensures { IfOk result (λ v. IsCellForm (File (object_identifier_view object) length) (view v)) }
{
    let cell = CellMembers {
        length: Json::from(length),
        octets: Json::Null,
        property: Json::Null,
        values: Json::Null,
    };
    cell_object(alloc, object, cell)
}

/// What is kept of a property, or of a file, as an object of JSON. An Err is out of memory.
pub fn cell_json(alloc: Global, part: KeptPart<'_>) -> Result<Json, NoMemory>
    ensures { IfOk result (λ v. IsCellForm (part_view part.entry) (view v)) }
{
    match part {
        KeptPart::Values {
            object,
            property,
            octets,
        } => values_object(alloc, object, property, octets),
        KeptPart::File { object, length } => Ok(file_object(alloc, object, length)?),
    }
}

/// Prints what is kept of a property, or of a file, as one object of JSON on a line. An Err is the writer's, or out of memory.
pub fn print_cell_object<W: Write>(alloc: Global, part: KeptPart<'_>, out: &mut W) -> io::Result<()>
    ensures { OnOk result (AppendsText (W.contents out.old) (W.contents out.new) (IsLineOf (IsCellForm (part_view part.entry)))) }
{
    let Ok(object) = cell_json(alloc, part) else {
        return Err(io::Error::from(ErrorKind::OutOfMemory));
    };
    print_json(alloc, &object, out)
}
