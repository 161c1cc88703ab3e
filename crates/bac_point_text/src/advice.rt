//! What is told where a text is no name of an enumeration.
ghost use Rattle.std.specs.Prelude.{◌≡◌, map, IfOk};
ghost use Rattle.bac_point_text.specs.Advice.{joined_names, list_advice, names_advice, separator};
ghost use Rattle.bac_point_text.specs.Views.{names_view, row_view};

use crate::enumeration::{Enumeration, NamedNumber};
use std::alloc::{AllocError, Global};

/// So many names at most are told.
const MOST_NAMES: usize = 8;

/// What stands behind a name, by the names that follow.
fn separator(others: &[NamedNumber]) -> &'static str
    ensures { result.now ≡ separator (map row_view others.now) }
{
    match others {
        [] => "",
        [_] => " or ",
        [_, _, ..] => ", ",
    }
}

/// Names in a row: `red, green or blue`.
fn joined_names(alloc: Global, rows: &[NamedNumber]) -> Result<Vec<u8>, AllocError>
    ensures { IfOk result (λ t. t.items ≡ joined_names (map row_view rows.now)) }
{
    let mut text = Vec::new(alloc);
    let mut rest = rows;
    while let [row, others @ ..] = rest {
        text.extend_from_slice(row.name.as_bytes())?;
        text.extend_from_slice(separator(others).as_bytes())?;
        rest = others;
    }
    Ok(text)
}

/// Where the names of an enumeration are listed.
fn list_advice(alloc: Global, names: Enumeration) -> Result<Vec<u8>, AllocError>
    ensures { IfOk result (λ t. t.items ≡ list_advice (names_view names)) }
{
    let word = names.word();
    let text = format!(in alloc; "`bac help {word}` lists the names")?;
    Ok(text.into_bytes())
}

/// What to write in place of a text that is no name of an enumeration: its names, `expected inactive or active`, if there are at most eight, or otherwise the
/// command that lists them. An Err says that an allocation failed.
pub fn names_advice(alloc: Global, names: Enumeration) -> Result<Vec<u8>, AllocError>
    ensures { IfOk result (λ t. t.items ≡ names_advice (names_view names)) }
{
    let rows = names.rows(alloc)?;
    if rows.len() > MOST_NAMES {
        return list_advice(alloc, names);
    }
    let mut text = Vec::from_slice(alloc, b"expected ")?;
    let joined = joined_names(alloc, &rows)?;
    text.extend_from_slice(&joined)?;
    Ok(text)
}
