//! Replies to an ask, by numbers and in words.
ghost use Rattle.std.specs.Prelude.{◌≡◌, ◌++◌, codes, IfOk, OnOk};
ghost use Rattle.std.specs.Io.KnownBytes.{Appends};
ghost use Rattle.std.specs.Option.{option_map};
ghost use Rattle.bac_service.specs.Values.{content_answered};
ghost use Rattle.bac_service.specs.Views.{complex_view, property_reference_view, reply_view};
ghost use Rattle.bac_service_text.specs.Answers.{AreAnswerWords, AreComplexAnswer, AreReplyWords, front_of, octets_of_reply, reply_text};
ghost use Rattle.bac_service_text.specs.Dispatch.{complex_text};
ghost use Rattle.bac_service_text.specs.Reasons.{error_words};

use crate::asked::is_asked;
use crate::dispatch::{complex_text, complex_words};
use crate::reasons::{error_words, rejected_words};
use crate::reference::reference_words;
use bac_service::{AnyReply, Complex, PropertyReference, Reply};
use bac_value::NoMemory;
use std::alloc::{AllocError, Global};
use std::io;
use std::io::Write;

// ---- by numbers

fn print_answer<W: Write>(alloc: Global, complex: Complex<'_>, out: &mut W) -> io::Result<()>
    ensures { OnOk result (Appends (W.contents out.old) (W.contents out.new) (codes "answered " ++ complex_text (complex_view complex.entry))) }
{
    let text = complex_text(alloc, complex)?;
    out.write_all(b"answered ")?;
    out.write_all(&text)
}

/// Prints a reply by numbers, without the end of a line: `answered` and what it says, with octets in hexadecimal, or `rejected` and the reason. An Err is the
/// writer's, or out of memory.
pub fn print_reply<W: Write>(alloc: Global, reply: Reply<'_>, out: &mut W) -> io::Result<()>
    ensures { OnOk result (Appends (W.contents out.old) (W.contents out.new) (reply_text (reply_view reply.entry))) }
{
    match reply {
        AnyReply::Simple => out.write_all(b"answered written"),
        AnyReply::Complex(complex) => print_answer(alloc, complex, out),
        AnyReply::Error { class, code } => write!(out, "answered error {class}:{code}"),
        AnyReply::Reject(reason) => write!(out, "rejected {reason}"),
    }
}

// ---- in words

/// What stands before the values of a property: of one that was not asked for, its name.
fn front_of(
    alloc: Global,
    asked: Option<PropertyReference>,
    named: Option<PropertyReference>,
) -> Result<Vec<u8>, AllocError>
    ensures { IfOk result (λ t. t.items ≡ front_of (option_map property_reference_view asked) (option_map property_reference_view named)) }
{
    let Some(named) = named else {
        return Vec::from_slice(alloc, b"answered ");
    };
    if is_asked(asked, named) {
        return Vec::from_slice(alloc, b"answered ");
    }
    let mut front = reference_words(alloc, b"answered for ", named)?;
    front.extend_from_slice(b", not asked: ")?;
    Ok(front)
}

fn complex_answer(
    alloc: Global,
    asked: Option<PropertyReference>,
    complex: Complex<'_>,
) -> Result<Vec<u8>, NoMemory>
    ensures { IfOk result (λ t. AreComplexAnswer (option_map property_reference_view asked) (complex_view complex.entry) t.items) }
{
    let text = complex_words(alloc, complex)?;
    let mut words = front_of(alloc, asked, complex.property())?;
    words.extend_from_slice(&text)?;
    Ok(words)
}

fn error_answer(alloc: Global, class: u32, code: u32) -> Result<Vec<u8>, AllocError>
    ensures { IfOk result (λ t. t.items ≡ codes "answered " ++ error_words class code) }
{
    let error = error_words(alloc, class, code)?;
    let mut words = Vec::from_slice(alloc, b"answered ")?;
    words.extend_from_slice(&error)?;
    Ok(words)
}

/// A reply in words: values by their kinds, an Error and the reason of a Reject by their names in the standard. Where a property was asked for, the values of
/// another one stand behind its name. An Err is out of memory.
pub fn answer_words(
    alloc: Global,
    asked: Option<PropertyReference>,
    reply: Reply<'_>,
) -> Result<Vec<u8>, NoMemory>
    ensures { IfOk result (λ t. AreAnswerWords (option_map property_reference_view asked) (reply_view reply.entry) t.items) }
{
    match reply {
        AnyReply::Simple => Ok(Vec::from_slice(alloc, b"answered written")?),
        AnyReply::Complex(complex) => complex_answer(alloc, asked, complex),
        AnyReply::Error { class, code } => Ok(error_answer(alloc, class, code)?),
        AnyReply::Reject(reason) => Ok(rejected_words(alloc, reason)?),
    }
}

/// A reply in words, where it is not known what was asked for. An Err is out of memory.
pub fn reply_words(alloc: Global, reply: Reply<'_>) -> Result<Vec<u8>, NoMemory>
    ensures { IfOk result (λ t. AreReplyWords (reply_view reply.entry) t.items) }
{
    answer_words(alloc, None, reply)
}

// ---- the octets of a file

fn file_octets<'a>(complex: Complex<'a>) -> Option<&'a [u8]>
    ensures { option_map (λ o. o.now) result ≡ content_answered (complex_view complex.entry) }
{
    match complex.content() {
        Some(content) => Some(content.octets),
        None => None,
    }
}

/// The octets of a file that a reply carries; None of any other reply.
pub fn octets_of_reply<'a>(reply: Reply<'a>) -> Option<&'a [u8]>
    ensures { option_map (λ o. o.now) result ≡ octets_of_reply (reply_view reply.entry) }
{
    match reply {
        AnyReply::Simple => None,
        AnyReply::Complex(complex) => file_octets(complex),
        AnyReply::Error { .. } => None,
        AnyReply::Reject(_) => None,
    }
}
