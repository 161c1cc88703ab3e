//! Data as text: the elements, separated by commas.
ghost use Rattle.std.specs.Prelude.{◌≡◌, ◌++◌, map, IfOk};
ghost use Rattle.std.specs.List.{flat_map};
ghost use Rattle.bac_value.specs.Views.{element_view};
ghost use Rattle.bac_value_text.specs.DataTexts.{context_text, opening_text, closing_text, tagged_text, behind_comma, IsElementText, AreElementTexts, joined_texts, IsDataText};

use crate::separator::Separator;
use crate::value_printing::value_text;
use bac_value::{Data, Element, Form, NoMemory, value_of};
use std::alloc::{AllocError, Global};

fn context_text(alloc: Global, number: u8, contents: &[u8]) -> Result<Vec<u8>, AllocError>
    ensures { IfOk result (λ t. t.items ≡ context_text number contents.now) }
{
    let contents = hex::encode_upper(alloc, contents)?;
    let text = format!(in alloc; "context {number} {contents}")?;
    Ok(text.into_bytes())
}

fn opening_text(alloc: Global, number: u8) -> Result<Vec<u8>, AllocError>
    ensures { IfOk result (λ t. t.items ≡ opening_text number) }
{
    let text = format!(in alloc; "opening {number}")?;
    Ok(text.into_bytes())
}

fn closing_text(alloc: Global, number: u8) -> Result<Vec<u8>, AllocError>
    ensures { IfOk result (λ t. t.items ≡ closing_text number) }
{
    let text = format!(in alloc; "closing {number}")?;
    Ok(text.into_bytes())
}

/// The text of an element with a context tag.
fn tagged_text(alloc: Global, element: Element<&[u8]>) -> Result<Vec<u8>, AllocError>
    ensures { IfOk result (λ t. t.items ≡ tagged_text element.entry.tag.form element.entry.tag.number element.entry.contents.now) }
{
    match element.tag.form {
        Form::Opening => opening_text(alloc, element.tag.number),
        Form::Closing => closing_text(alloc, element.tag.number),
        Form::Length(_) => context_text(alloc, element.tag.number, element.contents),
        Form::Boolean(_) => context_text(alloc, element.tag.number, element.contents),
    }
}

fn element_text(alloc: Global, element: Element<&[u8]>) -> Result<Vec<u8>, NoMemory>
    ensures { IfOk result (λ t. IsElementText (element_view (λ s. s.now) element.entry) t.items) }
{
    match value_of(alloc, element)? {
        Some(value) => Ok(value_text(alloc, Separator::Space, &value)?),
        None => Ok(tagged_text(alloc, element)?),
    }
}

/// The texts of all elements.
fn element_texts(alloc: Global, values: Data<'_>) -> Result<Vec<Vec<u8>>, NoMemory>
    ensures { IfOk result (λ ts. AreElementTexts (map (λ t. t.items) ts.items) values.entry.octets.now) }
{
    let mut texts = Vec::new(alloc);
    let mut rest = values.elements();
    while let Some((element, more)) = rest.split_first() {
        texts.push(element_text(alloc, element)?)?;
        rest = more;
    }
    Ok(texts)
}

/// Joins texts with a comma before each.
fn behind_commas(alloc: Global, texts: &[Vec<u8>]) -> Result<Vec<u8>, AllocError>
    ensures { IfOk result (λ t. t.items ≡ flat_map behind_comma (map (λ u. u.items) texts.now)) }
{
    let mut text = Vec::new(alloc);
    for part in texts {
        text.extend_from_slice(b", ")?;
        text.extend_from_slice(part.as_slice())?;
    }
    Ok(text)
}

fn joined_behind(alloc: Global, first: &[u8], more: &[Vec<u8>]) -> Result<Vec<u8>, AllocError>
    ensures { IfOk result (λ t. t.items ≡ first.now ++ flat_map behind_comma (map (λ u. u.items) more.now)) }
{
    let mut text = Vec::from_slice(alloc, first)?;
    let others = behind_commas(alloc, more)?;
    text.extend_from_slice(others.as_slice())?;
    Ok(text)
}

fn joined(alloc: Global, texts: &[Vec<u8>]) -> Result<Vec<u8>, AllocError>
    ensures { IfOk result (λ t. t.items ≡ joined_texts (map (λ u. u.items) texts.now)) }
{
    match texts.split_first() {
        None => Vec::from_slice(alloc, b"no values"),
        Some((first, more)) => joined_behind(alloc, first.as_slice(), more),
    }
}

/// The text of data: each value after the name of its kind and a space, for example `real 72.3`, separated by commas; an element with a
/// context tag as `context N HEX`, an opening or closing tag as `opening N` or `closing N`; `no values` if there are no elements.
pub fn data_text(alloc: Global, values: Data<'_>) -> Result<Vec<u8>, NoMemory>
    ensures { IfOk result (λ t. IsDataText values.entry.octets.now t.items) }
{
    let texts = element_texts(alloc, values)?;
    Ok(joined(alloc, texts.as_slice())?)
}
