//! The table of a device's points: a line for each object.
ghost use Rattle.std.specs.Prelude.{◌≡◌, ◌++◌, map, IfOk, OnOk};
ghost use Rattle.std.specs.List.{flat_map};
ghost use Rattle.bac_ask_report.specs.Records.{outcome_view};
ghost use Rattle.bac_service.specs.Views.{property_reference_view, reply_view};
ghost use Rattle.bac_value.specs.Views.{object_identifier_view};
ghost use Rattle.bac_point_report.specs.Points.{IsCell, IsCellWithout, behind_tab, is_absent, is_unknown, point_line, point_reference, point_references};

use crate::outcome::{failure_words, values_of};
use crate::showing::shown;
use bac_ask_report::Outcome;
use bac_service::{AnyReply, AnyRequest, PropertyReference, Reply};
use bac_value::{NoMemory, ObjectIdentifier};
use bac_value_text::object_text;
use std::alloc::{AllocError, Global};

/// The line with the names of the columns.
pub const HEADER: &str = "object\tname\tvalue\tunits\tdescription\tstatus\n";

/// A cell of the table.
#[derive(Drop)]
pub struct Cell {
    /// The value alone; empty if the object has no such property, and otherwise why there is no value.
    pub text: Vec<u8>,
    /// Whether the property may be there, and its value did not come.
    pub is_faulty: bool,
}

/// A property of an object as a whole.
pub fn whole_property(object: ObjectIdentifier, property: u32) -> PropertyReference
    ensures { property_reference_view result ≡ point_reference (object_identifier_view object) property }
{
    PropertyReference {
        object,
        property,
        index: None,
    }
}

/// What the columns behind the object are read from: its object-name, present-value, units, description and status-flags (clause 21).
pub fn point_references(object: ObjectIdentifier) -> [PropertyReference; 5]
    ensures { map property_reference_view result ≡ point_references (object_identifier_view object) }
{
    [
        whole_property(object, 77),
        whole_property(object, 85),
        whole_property(object, 117),
        whole_property(object, 28),
        whole_property(object, 111),
    ]
}

/// Whether a reply says that the object has no such property: error class property, code unknown-property (clause 18).
fn is_unknown(reply: Reply<'_>) -> bool
    ensures { result ≡ is_unknown (reply_view reply.entry) }
{
    match reply {
        AnyReply::Error { class, code } => class == 2 && code == 32,
        AnyReply::Simple => false,
        AnyReply::Complex(_) => false,
        AnyReply::Reject(_) => false,
    }
}

/// Whether an ask ended since the object has no such property.
pub fn is_absent(outcome: Outcome<'_>) -> bool
    ensures { result ≡ is_absent (outcome_view outcome.entry) }
{
    match outcome {
        Outcome::Answered(reply) => is_unknown(reply),
        Outcome::Rejected(_) => false,
        Outcome::Aborted(_) => false,
        Outcome::TimedOut => false,
        Outcome::Expired => false,
        Outcome::Refused(_) => false,
        Outcome::NoEnding => false,
        Outcome::NoLink => false,
    }
}

/// The cell of a property that got no value.
fn cell_without(alloc: Global, outcome: Outcome<'_>) -> Result<Cell, AllocError>
    ensures { IfOk result (λ c. IsCellWithout (outcome_view outcome.entry) c.text.items c.is_faulty) }
{
    if is_absent(outcome) {
        return Ok(Cell {
            text: Vec::new(alloc),
            is_faulty: false,
        });
    }
    let text = failure_words(alloc, outcome)?;
    Ok(Cell {
        text,
        is_faulty: true,
    })
}

/// The cell of a property whose ask ended so. An Err is out of memory.
pub fn cell_of(
    alloc: Global,
    reference: PropertyReference,
    outcome: Outcome<'_>,
) -> Result<Cell, NoMemory>
    ensures { IfOk result (λ c. IsCell (property_reference_view reference) (outcome_view outcome.entry) c.text.items c.is_faulty) }
{
    match values_of(AnyRequest::ReadProperty(reference), outcome) {
        Some(values) => Ok(Cell {
            text: shown(alloc, reference, values)?,
            is_faulty: false,
        }),
        None => Ok(cell_without(alloc, outcome)?),
    }
}

/// The cells, a tab before each.
fn behind_tabs(alloc: Global, cells: &[Cell]) -> Result<Vec<u8>, AllocError>
    ensures { IfOk result (λ t. t.items ≡ flat_map behind_tab (map (λ c. c.text.items) cells.now)) }
{
    let mut text = Vec::new(alloc);
    for cell in cells {
        text.push(b'\t')?;
        text.extend_from_slice(&cell.text)?;
    }
    Ok(text)
}

/// The line of an object: its name by type and instance, and its cells, with tabs between. An Err is out of memory.
pub fn point_line(
    alloc: Global,
    object: ObjectIdentifier,
    cells: &[Cell],
) -> Result<Vec<u8>, AllocError>
    ensures { IfOk result (λ t. t.items ≡ point_line (object_identifier_view object) (map (λ c. c.text.items) cells.now)) }
{
    let mut line = object_text(alloc, object)?;
    let others = behind_tabs(alloc, cells)?;
    line.extend_from_slice(&others)?;
    line.push(b'\n')?;
    Ok(line)
}
