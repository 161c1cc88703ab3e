//! Rows of CSV.
ghost use Rattle.std.specs.Prelude.{◌≡◌, [], ◌++◌, unwrap_or, IfOk, OnOk};
ghost use Rattle.std.specs.Option.{option_map};
ghost use Rattle.std.specs.Io.KnownBytes.{Appends};
ghost use Rattle.bac_ask_report.specs.Answers.{answer_view};
ghost use Rattle.bac_ask_report.specs.Cells.{cells_view};
ghost use Rattle.bac_ask_report.specs.Records.{name_view, record_view};
ghost use Rattle.bac_ask_report.specs.Rows.{AreCells, AreSoleCells, AreValueCells, IsCell, IsRow, behind_answered, fields_of, header, header_text, is_number, name_fields, no_cells, zip};
ghost use Rattle.bac_ask_report.specs.Rows.{sole_value, status_cell, value_field, word_cells};
ghost use Rattle.bac_json_report.specs.Lines.{IsJsonText};
ghost use Rattle.bac_text.specs.Texts.{AppendsText};
ghost use Rattle.csv.specs.Records as records;
ghost use Rattle.csv.specs.Writing.{default_writer, row_text};
ghost use Rattle.serde_json.specs.View.{items_view, view};

use crate::answer::{Answer, answer_of};
use crate::cell_text::CellText;
use crate::question::property_column;
use crate::record::{AskRecord, LineName};
use bac_json::data_json;
use bac_moment::{TimeText, time_text};
use bac_text::peer_text;
use bac_value::{Data, NoMemory};
use bac_value_text::object_text;
use csv::{ByteRecord, Writer};
use serde_json::Value as Json;
use std::alloc::{AllocError, Global};
use std::io;
use std::io::Write;

// ---- the kind and the value

/// As JSON has it.
fn json_text(alloc: Global, json: &Json) -> Result<Vec<u8>, AllocError>
    ensures { IfOk result (λ t. IsJsonText (view json.now) t.items) }
{
    Ok(json.to_string(alloc)?.into_bytes())
}

/// A text as it is, Null as nothing, all else as JSON has it.
fn cell(alloc: Global, json: &Json) -> Result<Vec<u8>, AllocError>
    ensures { IfOk result (λ t. IsCell (view json.now) t.items) }
{
    match json {
        Json::Null => Ok(Vec::new(alloc)),
        Json::Bool(_) => json_text(alloc, json),
        Json::Number(_) => json_text(alloc, json),
        Json::String(text) => Vec::from_slice(alloc, text.as_bytes()),
        Json::Array(_) => json_text(alloc, json),
        Json::Object(_) => json_text(alloc, json),
    }
}

fn is_number(json: &Json) -> bool
    ensures { result ≡ is_number (view json.now) }
{
    match json {
        Json::Null => false,
        Json::Bool(_) => false,
        Json::Number(_) => true,
        Json::String(_) => false,
        Json::Array(_) => false,
        Json::Object(_) => false,
    }
}

/// Both, where there are both.
fn zip<'a>(first: Option<&'a Json>, second: Option<&'a Json>) -> Option<(&'a Json, &'a Json)>
    ensures { option_map (λ p. (view p.0.now, view p.1.now)) result ≡ zip (option_map (λ v. view v.now) first.entry) (option_map (λ v. view v.now) second.entry) }
{
    let first = first?;
    let second = second?;
    Some((first, second))
}

/// The kind and the value of the only element, where it is a value.
fn sole_value(elements: &[Json]) -> Option<(&Json, &Json)>
    ensures { option_map (λ p. (view p.0.now, view p.1.now)) result ≡ sole_value (items_view elements.now) }
{
    match elements {
        [] => None,
        [element] => zip(element.get("kind"), element.get("value")),
        [_, _, ..] => None,
    }
}

/// What `bac ask --text` prints behind the word `answered`.
fn behind_answered(words: &[u8]) -> &[u8]
    ensures { result.now ≡ behind_answered words.now }
{
    &words[words.len().min(9)..]
}

/// The kind and the value of a row.
#[derive(Drop)]
struct Cells {
    kind: Vec<u8>,
    value: Vec<u8>,
    /// Whether the value is a number.
    is_number: bool,
}

fn no_cells(alloc: Global) -> Cells
    ensures { cells_view result ≡ no_cells }
{
    Cells {
        kind: Vec::new(alloc),
        value: Vec::new(alloc),
        is_number: false,
    }
}

fn word_cells(alloc: Global, words: &[u8]) -> Result<Cells, AllocError>
    ensures { IfOk result (λ c. cells_view c ≡ word_cells words.now) }
{
    Ok(Cells {
        kind: Vec::new(alloc),
        value: Vec::from_slice(alloc, behind_answered(words))?,
        is_number: false,
    })
}

fn sole_cells(
    alloc: Global,
    sole: Option<(&Json, &Json)>,
    words: &[u8],
) -> Result<Cells, AllocError>
    ensures { IfOk result (λ c. AreSoleCells (option_map (λ p. (view p.0.now, view p.1.now)) sole.entry) words.now (cells_view c)) }
{
    match sole {
        Some((kind, value)) => Ok(Cells {
            kind: cell(alloc, kind)?,
            value: cell(alloc, value)?,
            is_number: is_number(value),
        }),
        None => word_cells(alloc, words),
    }
}

#[tactic(auto, using(crate::proofs::Told::values_told))]
fn value_cells(alloc: Global, values: Data<'_>, words: &[u8]) -> Result<Cells, NoMemory>
    ensures { IfOk result (λ c. AreValueCells values.entry.octets.now words.now (cells_view c)) }
{
    let elements = data_json(alloc, values)?;
    Ok(sole_cells(alloc, sole_value(&elements), words)?)
}

/// The kind and the value, where there is one; in words where there are more, or octets of a file.
fn cells_of(alloc: Global, answer: Answer<'_>, words: &[u8]) -> Result<Cells, NoMemory>
    ensures { IfOk result (λ c. AreCells (answer_view answer.entry) words.now (cells_view c)) }
{
    match answer {
        Answer::Values(values) => value_cells(alloc, values, words),
        Answer::Other => Ok(word_cells(alloc, words)?),
        Answer::File(_) => Ok(word_cells(alloc, words)?),
        Answer::Written(_) => Ok(word_cells(alloc, words)?),
        Answer::Done => Ok(no_cells(alloc)),
        Answer::Fault { .. } => Ok(no_cells(alloc)),
        Answer::Reason(_) => Ok(no_cells(alloc)),
        Answer::Nothing => Ok(no_cells(alloc)),
    }
}

// ---- the status

/// `answered`, or in words why there is no value.
fn status_cell<'a>(answer: Answer<'_>, words: &'a [u8]) -> &'a [u8]
    ensures { result.now ≡ status_cell (answer_view answer.entry) words.now }
{
    match answer {
        Answer::Values(_) => b"answered",
        Answer::Other => b"answered",
        Answer::File(_) => b"answered",
        Answer::Written(_) => b"answered",
        Answer::Done => b"answered",
        Answer::Fault { .. } => behind_answered(words),
        Answer::Reason(_) => words,
        Answer::Nothing => words,
    }
}

// ---- rows

/// The fields of a row with commas between them and the end of a line; those in which there is a comma, a quote or the end of a line stand in quotes.
fn row_text(alloc: Global, row: &ByteRecord) -> Result<Vec<u8>, AllocError>
    ensures { IfOk result (λ t. t.items ≡ row_text default_writer (records.fields_of row.now)) }
{
    let mut writer = Writer::from_writer(Vec::new(alloc));
    if writer.write_byte_record(row).is_err() {
        return Err(AllocError);
    }
    match writer.into_inner() {
        Ok(text) => Ok(text),
        Err(_) => Err(AllocError),
    }
}

/// A moment; nothing where there is none.
fn time_cell(time: &Option<TimeText>) -> &[u8]
    ensures { result.now ≡ unwrap_or (option_map (λ t. t.bytes) time.now) [] }
{
    match time {
        Some(time) => time.as_str().as_bytes(),
        None => b"",
    }
}

/// The value; a number as it is.
fn value_field(alloc: Global, texts: CellText, cells: &Cells) -> Result<Vec<u8>, AllocError>
    ensures { IfOk result (λ t. t.items ≡ value_field texts (cells_view cells.now)) }
{
    if cells.is_number {
        Vec::from_slice(alloc, &cells.value)
    } else {
        texts.of(alloc, &cells.value)
    }
}

/// The name of the line, where a line of the list has one.
fn push_name(
    alloc: Global,
    texts: CellText,
    name: LineName<'_>,
    row: &mut ByteRecord,
) -> Result<(), AllocError>
    requires { records.partial_of row.old ≡ [] }
    ensures { OnOk result (records.fields_of row.new ≡ records.fields_of row.old ++ name_fields texts (name_view name.entry)) }
{
    match name {
        LineName::Unnamed => Ok(()),
        LineName::Without => row.push_field(b""),
        LineName::Named(name) => row.push_field(&texts.of(alloc, name.as_bytes())?),
    }
}

/// The columns of an ask.
fn fields_of(
    alloc: Global,
    texts: CellText,
    ask: &AskRecord<'_, '_, '_>,
    time: &[u8],
    cells: &Cells,
) -> Result<ByteRecord, AllocError>
    ensures { IfOk result (λ r. records.fields_of r ≡ fields_of texts (record_view ask.now) time.now (cells_view cells.now)) }
{
    let peer = peer_text(alloc, ask.peer)?;
    let object = object_text(alloc, ask.request.object())?;
    let property = property_column(alloc, ask.request.property())?;
    let value = value_field(alloc, texts, cells)?;
    let answer = answer_of(ask.request, ask.outcome);
    let mut row = ByteRecord::new(alloc);
    row.push_field(time)?;
    row.push_field(peer.as_bytes())?;
    row.push_field(&object)?;
    row.push_field(&property)?;
    row.push_field(&cells.kind)?;
    row.push_field(&value)?;
    row.push_field(status_cell(answer, ask.words))?;
    push_name(alloc, texts, ask.name, &mut row)?;
    Ok(row)
}

fn row_with(
    alloc: Global,
    texts: CellText,
    ask: &AskRecord<'_, '_, '_>,
    time: &[u8],
    cells: &Cells,
) -> Result<Vec<u8>, AllocError>
    ensures { IfOk result (λ t. t.items ≡ row_text default_writer (fields_of texts (record_view ask.now) time.now (cells_view cells.now))) }
{
    let row = fields_of(alloc, texts, ask, time, cells)?;
    row_text(alloc, &row)
}

/// The row of an ask.
#[tactic(auto, using(crate::proofs::Told::row_told))]
fn row_of(alloc: Global, texts: CellText, ask: &AskRecord<'_, '_, '_>) -> Result<Vec<u8>, NoMemory>
    ensures { IfOk result (λ t. IsRow texts (record_view ask.now) t.items) }
{
    let time = time_text(ask.time);
    let answer = answer_of(ask.request, ask.outcome);
    let cells = cells_of(alloc, answer, ask.words)?;
    Ok(row_with(alloc, texts, ask, time_cell(&time), &cells)?)
}

/// The names of the columns; the last one only where a line of the list has a name.
fn header(alloc: Global, has_names: bool) -> Result<ByteRecord, AllocError>
    ensures { IfOk result (λ r. records.fields_of r ≡ header has_names) }
{
    let fields: [&[u8]; 7] = [
        b"time",
        b"peer",
        b"object",
        b"property",
        b"kind",
        b"value",
        b"status",
    ];
    let mut row = ByteRecord::from_fields(alloc, &fields)?;
    if has_names {
        row.push_field(b"name")?;
    }
    Ok(row)
}

fn header_text(alloc: Global, has_names: bool) -> Result<Vec<u8>, AllocError>
    ensures { IfOk result (λ t. t.items ≡ header_text has_names) }
{
    let row = header(alloc, has_names)?;
    row_text(alloc, &row)
}

/// Prints the names of the columns; `name` is the last one where a line of the list has a name, otherwise there is no such column. An Err is the writer's, or
/// out of memory.
pub fn print_csv_header<W: Write>(alloc: Global, has_names: bool, out: &mut W) -> io::Result<()>
    ensures { OnOk result (Appends (W.contents out.old) (W.contents out.new) (header_text has_names)) }
{
    let text = header_text(alloc, has_names)?;
    out.write_all(&text)
}

/// Prints an ask as a row; `texts` says what becomes of a name, and of a value that is no number. An Err is the writer's, or out of memory.
pub fn print_csv_row<W: Write>(
    alloc: Global,
    texts: CellText,
    ask: &AskRecord<'_, '_, '_>,
    out: &mut W,
) -> io::Result<()>
    ensures { OnOk result (AppendsText (W.contents out.old) (W.contents out.new) (IsRow texts (record_view ask.now))) }
{
    let Ok(row) = row_of(alloc, texts, ask) else {
        return Err(io::Error::from(io::ErrorKind::OutOfMemory));
    };
    out.write_all(&row)
}
