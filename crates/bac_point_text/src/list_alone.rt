//! Printing lists of values alone.
ghost use Rattle.std.specs.Prelude.{◌≡◌, ◌++◌, map, IfOk};
ghost use Rattle.std.specs.List.{flat_map};
ghost use Rattle.bac_value.specs.Views.{element_view};
ghost use Rattle.bac_value_text.specs.DataTexts.{context_text, opening_text, closing_text, tagged_text, behind_comma, joined_texts};
ghost use Rattle.bac_point_text.specs.ListAlone.{AreAlone, IsElementAlone, IsListAlone};
ghost use Rattle.bac_point_text.specs.Views.{maybe_names};

use crate::alone::value_alone;
use crate::enumeration::Enumeration;
use bac_value::{Data, Element, Form, NoMemory, value_of};
use std::alloc::{AllocError, Global};

fn context_text(alloc: Global, number: u8, contents: &[u8]) -> Result<Vec<u8>, AllocError>
    ensures { IfOk result (λ t. t.items ≡ context_text number contents.now) }
{
    let contents = hex::encode_upper(alloc, contents)?;
    let text = format!(in alloc; "context {number} {contents}")?;
    Ok(text.into_bytes())
}

fn opening_text(alloc: Global, number: u8) -> Result<Vec<u8>, AllocError>
    ensures { IfOk result (λ t. t.items ≡ opening_text number) }
{
    let text = format!(in alloc; "opening {number}")?;
    Ok(text.into_bytes())
}

fn closing_text(alloc: Global, number: u8) -> Result<Vec<u8>, AllocError>
    ensures { IfOk result (λ t. t.items ≡ closing_text number) }
{
    let text = format!(in alloc; "closing {number}")?;
    Ok(text.into_bytes())
}

/// The text of an element that is no value.
fn tagged_text(alloc: Global, element: Element<&[u8]>) -> Result<Vec<u8>, AllocError>
    ensures { IfOk result (λ t. t.items ≡ tagged_text element.entry.tag.form element.entry.tag.number element.entry.contents.now) }
{
    match element.tag.form {
        Form::Opening => opening_text(alloc, element.tag.number),
        Form::Closing => closing_text(alloc, element.tag.number),
        Form::Length(_) => context_text(alloc, element.tag.number, element.contents),
        Form::Boolean(_) => context_text(alloc, element.tag.number, element.contents),
    }
}

fn element_alone(
    alloc: Global,
    names: Option<Enumeration>,
    element: Element<&[u8]>,
) -> Result<Vec<u8>, NoMemory>
    ensures { IfOk result (λ t. IsElementAlone (maybe_names names) (element_view (λ s. s.now) element.entry) t.items) }
{
    match value_of(alloc, element)? {
        Some(value) => Ok(value_alone(alloc, names, &value)?),
        None => Ok(tagged_text(alloc, element)?),
    }
}

/// The texts of all elements.
fn texts_alone(
    alloc: Global,
    names: Option<Enumeration>,
    values: Data<'_>,
) -> Result<Vec<Vec<u8>>, NoMemory>
    ensures { IfOk result (λ ts. AreAlone (maybe_names names) (map (λ t. t.items) ts.items) values.entry.octets.now) }
{
    let mut texts = Vec::new(alloc);
    let mut rest = values.elements();
    while let Some((element, more)) = rest.split_first() {
        texts.push(element_alone(alloc, names, element)?)?;
        rest = more;
    }
    Ok(texts)
}

/// Joins texts with a comma before each.
fn behind_commas(alloc: Global, texts: &[Vec<u8>]) -> Result<Vec<u8>, AllocError>
    ensures { IfOk result (λ t. t.items ≡ flat_map behind_comma (map (λ u. u.items) texts.now)) }
{
    let mut text = Vec::new(alloc);
    for part in texts {
        text.extend_from_slice(b", ")?;
        text.extend_from_slice(part.as_slice())?;
    }
    Ok(text)
}

fn joined_behind(alloc: Global, first: &[u8], more: &[Vec<u8>]) -> Result<Vec<u8>, AllocError>
    ensures { IfOk result (λ t. t.items ≡ first.now ++ flat_map behind_comma (map (λ u. u.items) more.now)) }
{
    let mut text = Vec::from_slice(alloc, first)?;
    let others = behind_commas(alloc, more)?;
    text.extend_from_slice(others.as_slice())?;
    Ok(text)
}

fn joined(alloc: Global, texts: &[Vec<u8>]) -> Result<Vec<u8>, AllocError>
    ensures { IfOk result (λ t. t.items ≡ joined_texts (map (λ u. u.items) texts.now)) }
{
    match texts.split_first() {
        None => Vec::from_slice(alloc, b"no values"),
        Some((first, more)) => joined_behind(alloc, first.as_slice(), more),
    }
}

/// The text of data: each value alone, as [`value_alone`] prints it, separated by a comma and a space; an element with a context tag as
/// `context N HEX`, an opening or closing tag as `opening N` or `closing N`; `no values` if there are no elements. An Err says that an
/// allocation failed.
pub fn data_alone(
    alloc: Global,
    names: Option<Enumeration>,
    values: Data<'_>,
) -> Result<Vec<u8>, NoMemory>
    ensures { IfOk result (λ t. IsListAlone (maybe_names names) values.entry.octets.now t.items) }
{
    let texts = texts_alone(alloc, names, values)?;
    Ok(joined(alloc, texts.as_slice())?)
}
