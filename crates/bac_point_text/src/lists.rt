//! Lists for help: the enumerations, and the names of one.
ghost use Rattle.std.specs.Prelude.{◌≡◌, ◌++◌, codes, map, IfOk, string_bytes};
ghost use Rattle.std.specs.List.{flat_map};
ghost use Rattle.bac_point_text.specs.Enumerations.{TABLES};
ghost use Rattle.bac_point_text.specs.Lists.{heading_line, names_text, row_line, words_text};
ghost use Rattle.bac_point_text.specs.Views.{names_view, row_view};

use crate::enumeration::{Enumeration, NamedNumber, tables};
use crate::lines::heading;
use std::alloc::{AllocError, Global};

/// The headings of tables, a line each.
fn headings(alloc: Global, tables: &[&'static str]) -> Result<Vec<u8>, AllocError>
    ensures { IfOk result (λ t. t.items ≡ flat_map heading_line (map (λ t. t.now) tables.now)) }
{
    let mut text = Vec::new(alloc);
    for table in tables {
        text.extend_from_slice(heading(*table).as_bytes())?;
        text.push(b'\n')?;
    }
    Ok(text)
}

/// The words for all enumerations, a line each. An Err says that an allocation failed.
pub fn enumerations_text(alloc: Global) -> Result<Vec<u8>, AllocError>
    ensures { IfOk result (λ t. t.items ≡ words_text) }
{
    let mut text = Vec::from_slice(alloc, b"object-type\nproperty-identifier\n")?;
    let words = headings(alloc, tables())?;
    text.extend_from_slice(&words)?;
    Ok(text)
}

/// The line of a row: the number, a space and the name.
fn row_line(alloc: Global, row: &NamedNumber) -> Result<String, AllocError>
    ensures { IfOk result (λ t. string_bytes t ≡ row_line (row_view row.now)) }
{
    let number = row.number;
    let name = row.name;
    format!(in alloc; "{number} {name}\n")
}

fn rows_text(alloc: Global, rows: &[NamedNumber]) -> Result<Vec<u8>, AllocError>
    ensures { IfOk result (λ t. t.items ≡ flat_map row_line (map row_view rows.now)) }
{
    let mut text = Vec::new(alloc);
    for row in rows {
        text.extend_from_slice(row_line(alloc, row)?.as_bytes())?;
    }
    Ok(text)
}

/// The names of an enumeration, a line each: the number, a space and the name. An Err says that an allocation failed.
pub fn names_text(alloc: Global, names: Enumeration) -> Result<Vec<u8>, AllocError>
    ensures { IfOk result (λ t. t.items ≡ names_text (names_view names)) }
{
    let rows = names.rows(alloc)?;
    rows_text(alloc, &rows)
}
