//! What stands beside the arrow of a datagram, with the values of an answer or without.
ghost use Rattle.std.specs.Prelude.{◌≡◌, IfOk};
ghost use Rattle.std.specs.Option.{option_map};
ghost use Rattle.bac_apdu.specs.Reading.{apdu_at};
ghost use Rattle.bac_apdu.specs.Views.{apdu_view};
ghost use Rattle.bac_explain_report.specs.ArrowWords.{AreArrowWords, AreSaidWords, AreValuedWords, AreWholeWords, escaped, mark, said_in};

use bac_apdu::{Apdu, read};
use bac_chart::{ChartFormat, octets_words};
use bac_service::read_reply;
use bac_service_text::reply_data_words;
use bac_value::NoMemory;
use std::alloc::{AllocError, Global};

/// What stands for an octet that Mermaid would read as its own: the end of a statement, or the beginning of a character's number.
fn mark(octet: u8) -> Option<&'static str>
    ensures { option_map (λ t. t.now) result ≡ mark octet }
{
    match octet {
        b'#' => Some("#35;"),
        b';' => Some("#59;"),
        _ => None,
    }
}

/// A text as Mermaid shows it.
fn escaped(alloc: Global, text: &[u8]) -> Result<Vec<u8>, AllocError>
    ensures { IfOk result (λ t. t.items ≡ escaped text.now) }
{
    let mut shown = Vec::new(alloc);
    for octet in text {
        match mark(*octet) {
            Some(name) => shown.extend_from_slice(name.as_bytes())?,
            None => shown.push(*octet)?,
        }
    }
    Ok(shown)
}

/// What an answer says, as the chart shows it.
fn said_in(alloc: Global, form: ChartFormat, said: Vec<u8>) -> Result<Vec<u8>, AllocError>
    ensures { IfOk result (λ t. t.items ≡ said_in form said.items) }
{
    match form {
        ChartFormat::Chart => Ok(said),
        ChartFormat::Mermaid => escaped(alloc, &said),
    }
}

/// The kind of an answer, and what it says.
fn said_words(
    alloc: Global,
    form: ChartFormat,
    choice: u8,
    service: &[u8],
) -> Result<Vec<u8>, NoMemory>
    ensures { IfOk result (λ t. AreSaidWords form choice service.now t.items) }
{
    let said = reply_data_words(alloc, choice, service)?;
    let shown = said_in(alloc, form, said)?;
    let mut words = Vec::from_slice(alloc, b"complex-ack ")?;
    words.extend_from_slice(&shown)?;
    Ok(words)
}

/// The words of a whole ComplexACK: what it says, if that can be read.
fn whole_words(
    alloc: Global,
    form: ChartFormat,
    choice: u8,
    service: &[u8],
) -> Result<Vec<u8>, NoMemory>
    ensures { IfOk result (λ t. AreWholeWords form choice service.now t.items) }
{
    match read_reply(choice, service) {
        Ok(_) => said_words(alloc, form, choice, service),
        Err(_) => Ok(Vec::from_slice(alloc, b"complex-ack")?),
    }
}

/// The words of an APDU, which says what it answers if it is whole.
fn valued_words(alloc: Global, form: ChartFormat, octets: &[u8]) -> Result<Vec<u8>, NoMemory>
    ensures { IfOk result (λ t. AreValuedWords form (apdu_at octets.now) t.items) }
{
    match read(octets) {
        Ok(
            Apdu::ComplexAck {
                segment: None,
                choice,
                service,
                ..
            },
        ) => whole_words(alloc, form, choice, service),
        _ => Ok(octets_words(alloc, octets)?),
    }
}

/// The words of an APDU, from its octets: its kind and what it is, in short; with `values` also what it answers, if it is whole and can be read.
pub(crate) fn arrow_words(
    alloc: Global,
    form: ChartFormat,
    values: bool,
    octets: &[u8],
) -> Result<Vec<u8>, NoMemory>
    ensures { IfOk result (λ t. AreArrowWords form values octets.now t.items) }
{
    if values {
        valued_words(alloc, form, octets)
    } else {
        Ok(octets_words(alloc, octets)?)
    }
}
