//! `keep`: what the file of a server keeps.
ghost use Rattle.std.specs.Prelude.{◌≡◌, ◌++◌, ◌+◌, codes, decimal, length, min, None, Some, IfErr, IfOk, OnOk};
ghost use Rattle.std.specs.Option.{option_map};
ghost use Rattle.bac_value.specs.Views.{object_identifier_view};
ghost use Rattle.bac_driver.specs.Waits.{MOST};
ghost use Rattle.bac_log_json.specs.Cells.{part_view};
ghost use Rattle.bac_text.specs.Statuses.{IsStop};
ghost use Rattle.bac_text.specs.Texts.{AppendsText};
ghost use Rattle.bac_serving.specs.Keeping.{IsListed, IsThere, IsToldOf};
ghost use Rattle.bac_serving.specs.Listing.{AreListed, AreValues, IsCellText, IsKeptWords, IsPartOf, IsValuesWords, IsWordsLine, Lists, OnListed};
ghost use Rattle.bac_serving.specs.Listing.{count_in, is_chunk, line_in, octets_with, part_words as words_of};

use crate::keeping::{open_kept, print_not_kept};
use crate::part_words::part_words;
use bac_environment::{Environment, OpenFiles, opened};
use bac_keep::{Cell, Part};
use bac_keep_file::{Databases, Loss, kept_cells};
use bac_log_json::{KeptPart, print_cell_object};
use bac_text::{Status, output_failed};
use bac_value::{NoMemory, ObjectIdentifier, read_data};
use bac_value_text::data_text;
use std::alloc::Global;
use std::io;
use std::io::{ErrorKind, Write};

/// Whether a place is that of one of so many chunks of a file, whose number of chunks is at the place before them.
fn is_chunk(before: u64, count: u8, place: u64) -> bool
    ensures { result ≡ is_chunk before count place }
{
    let number = place.saturating_sub(before);
    number > 0 && number <= u64::from(count)
}

/// How many octets the chunks of a file have that stand first among cells: of at most so many chunks, whose number is at the place before them.
fn octets_in(cells: &[Cell], before: u64, count: u8) -> u64
    ensures { result ≡ octets_with 0 before count cells.now }
{
    let mut octets = 0;
    let mut rest = cells;
    while let [cell, more @ ..] = rest {
        if !is_chunk(before, count, cell.place) {
            return octets;
        }
        octets = with_octets(octets, cell);
        rest = more;
    }
    octets
}

/// A number of octets with those of a cell added.
fn with_octets(octets: u64, cell: &Cell) -> u64
    ensures { result ≡ min (octets + length cell.now.octets.items) MOST }
{
    octets.saturating_add(cell.octets.len() as u64)
}

/// How many chunks a cell says that a file has.
fn count_in(octets: &[u8]) -> u8
    ensures { result ≡ count_in octets.now }
{
    match octets {
        [count] => *count,
        _ => 0,
    }
}

/// Values by their kinds; in hexadecimal where they are no values.
fn values_text(alloc: Global, octets: &[u8]) -> Result<Vec<u8>, NoMemory>
    ensures { IfOk result (λ t. AreValues octets.now t.items) }
{
    match read_data(octets) {
        Ok((values, _)) => data_text(alloc, values),
        Err(_) => Ok(hex::encode_upper(alloc, octets)?.into_bytes()),
    }
}

/// The values of a property in words: the object, the property, and the values.
fn values_words(
    alloc: Global,
    object: ObjectIdentifier,
    property: u32,
    octets: &[u8],
) -> Result<Vec<u8>, NoMemory>
    ensures { IfOk result (λ t. IsValuesWords (object_identifier_view object) property octets.now t.items) }
{
    let values = values_text(alloc, octets)?;
    let mut words = part_words(alloc, object, Some(property))?;
    words.push(b' ')?;
    words.extend_from_slice(values.as_slice())?;
    Ok(words)
}

/// A file in words: its number of octets.
fn file_words(alloc: Global, object: ObjectIdentifier, octets: u64) -> Result<Vec<u8>, NoMemory>
    ensures { IfOk result (λ t. t.items ≡ words_of (object_identifier_view object) None ++ (codes " " ++ (decimal octets ++ codes " octets"))) }
{
    let mut words = part_words(alloc, object, None)?;
    let tail = format!(in alloc; " {octets} octets")?;
    words.extend_from_slice(tail.as_bytes())?;
    Ok(words)
}

/// A property with its values, or a file with its number of octets, in words.
pub(crate) fn kept_words(alloc: Global, part: KeptPart<'_>) -> Result<Vec<u8>, NoMemory>
    ensures { IfOk result (λ t. IsKeptWords (part_view part.entry) t.items) }
{
    match part {
        KeptPart::Values {
            object,
            property,
            octets,
        } => values_words(alloc, object, property, octets),
        KeptPart::File { object, length } => file_words(alloc, object, length),
    }
}

/// What a cell begins: the values of a property, or a file, whose chunks come first of the cells behind it; None of a chunk.
fn part_at<'a>(cell: &'a Cell, more: &[Cell]) -> Option<KeptPart<'a>>
    ensures { IsPartOf cell.now more.now (option_map part_view result) }
{
    match cell.part()? {
        Part::Values { object, property } => Some(KeptPart::Values {
            object,
            property,
            octets: &cell.octets,
        }),
        Part::Count { object } => {
            let count = count_in(&cell.octets);
            let length = octets_in(more, cell.place, count);
            Some(KeptPart::File { object, length })
        }
        Part::Chunk { .. } => None,
    }
}

/// The line of what is kept of a property, or of a file.
fn line_of(alloc: Global, part: KeptPart<'_>) -> Result<Vec<u8>, NoMemory>
    ensures { IfOk result (λ t. IsWordsLine (part_view part.entry) t.items) }
{
    let mut line = kept_words(alloc, part)?;
    line.push(b'\n')?;
    Ok(line)
}

/// Prints the line of what is kept of a property, or of a file.
fn print_line<O: Write>(alloc: Global, part: KeptPart<'_>, out: &mut O) -> io::Result<()>
    ensures { OnOk result (AppendsText (O.contents out.old) (O.contents out.new) (IsWordsLine (part_view part.entry))) }
{
    match line_of(alloc, part) {
        Ok(line) => out.write_all(line.as_slice()),
        Err(_) => Err(io::Error::from(ErrorKind::OutOfMemory)),
    }
}

/// The form of a list of what is kept.
#[derive(Clone, Copy, PartialEq, Eq)]
pub enum ListForm {
    Lines,
    /// An object of JSON a line.
    Objects,
}

fn print_part<O: Write>(
    alloc: Global,
    form: ListForm,
    part: KeptPart<'_>,
    out: &mut O,
) -> io::Result<()>
    ensures { OnOk result (AppendsText (O.contents out.old) (O.contents out.new) (line_in form (part_view part.entry))) }
{
    match form {
        ListForm::Lines => print_line(alloc, part, out),
        ListForm::Objects => print_cell_object(alloc, part, out),
    }
}

/// Prints a line, or an object, for what a cell begins.
fn print_cell<O: Write>(
    alloc: Global,
    form: ListForm,
    cell: &Cell,
    more: &[Cell],
    out: &mut O,
) -> io::Result<()>
    ensures { OnOk result (AppendsText (O.contents out.old) (O.contents out.new) (IsCellText (line_in form) cell.now more.now)) }
{
    match part_at(cell, more) {
        Some(part) => print_part(alloc, form, part, out),
        None => Ok(()),
    }
}

/// Prints a line, or an object, for each property and each file of some cells.
pub(crate) fn print_cells<O: Write>(
    alloc: Global,
    form: ListForm,
    cells: &[Cell],
    out: &mut O,
) -> io::Result<()>
    ensures { OnOk result (AppendsText (O.contents out.old) (O.contents out.new) (AreListed (line_in form) cells.now)) }
{
    let mut rest = cells;
    while let [cell, more @ ..] = rest {
        print_cell(alloc, form, cell, more, out)?;
        rest = more;
    }
    out.flush()
}

/// Opens the file at a path, and closes it again: a database that is opened at a path without a file would make one. If that fails, prints why on `err`.
#[tactic(auto, using(crate::proofs::There::there_at))]
pub(crate) fn refuse_missing<F: OpenFiles, E: Write>(
    files: &F,
    path: &str,
    err: &mut E,
) -> Result<(), Status>
    ensures there { OnOk result (IsThere F.is_file path.now) }
    ensures told { IfErr result IsStop }
{
    match opened(files, path, err) {
        Ok(_) => Ok(()),
        Err(status) => Err(status),
    }
}

/// Prints what the file at a path keeps: a line or an object for each property and each file, in ascending order. If the file is missing, damaged or in use,
/// prints why on `err`. No file is made.
pub fn list_kept<F: OpenFiles, M: Databases, O: Write, E: Write>(
    environment: &Environment<'_, F, M>,
    path: &str,
    loss: Loss,
    form: ListForm,
    out: &mut O,
    err: &mut E,
) -> Status
    ensures listed { IsListed result (O.contents out.old) (O.contents out.new) }
    ensures there { IsToldOf result (IsThere F.is_file path.now) }
    ensures printed { Lists (OnListed M.is_database M.Database.view) result form path.now (O.contents out.old) (O.contents out.new) }
{
    let alloc = environment.alloc;
    if let Err(status) = refuse_missing(environment.files, path, err) {
        return status;
    }
    let (mut database, _) = match open_kept(environment.machine, path, loss, err) {
        Ok(opened) => opened,
        Err(status) => return status,
    };
    let cells = match kept_cells(alloc, &mut database) {
        Ok(cells) => cells,
        Err(fault) => return print_not_kept(alloc, path, fault, err),
    };
    match print_cells(alloc, form, &cells, out) {
        Ok(()) => {
            drop(cells);
            drop(database);
            Status::Done
        }
        Err(error) => {
            let status = output_failed(err, &error);
            drop(cells);
            drop(database);
            status
        }
    }
}
