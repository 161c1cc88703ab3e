//! Every `match` over the services: which file has the words of a request or of the service data of a ComplexACK, and which reads the words of a request.
ghost use Rattle.std.specs.Prelude.{◌≡◌, IfOk, OnOk, map};
ghost use Rattle.std.specs.Option.{option_map};
ghost use Rattle.bac_service.specs.Views.{complex_view, owned_request_view, property_reference_view, request_view};
ghost use Rattle.bac_service_text.specs.Dispatch.{AreComplexWords, AreRequestWords, IsComplexText, IsRequestText, complex_text};
ghost use Rattle.bac_service_text.specs.Dispatch.{more_of, no_verb, one_more, property_read, reads_file, request_label, request_of};
ghost use Rattle.bac_service_text.specs.Dispatch.{roles_of, takes_values, two_more};
ghost use Rattle.bac_service_text.specs.Members.{AppendsLine};
ghost use Rattle.bac_service_text.specs.Reading.{Reads};
ghost use Rattle.bac_value.specs.Views.{object_identifier_view};

use crate::atomic_read_file::{file_text, get_label, get_words, read_file_in};
use crate::atomic_write_file::{
    append_in, put_in, write_file_label, write_file_words, written_text,
};
use crate::bad_words::Wanted;
use crate::form_fault::FormFault;
use crate::members::print_line;
use crate::read_property::{read_property_in, read_words, values_text};
use crate::reference::object_or_fault;
use crate::write_property::{write_label, write_property_in, write_words};
use bac_service::{AnyComplex, AnyRequest, Complex, OwnedRequest, PropertyReference, Request};
use bac_value::{NoMemory, ObjectIdentifier};
use bac_value_text::data_text;
use std::alloc::{AllocError, Global};
use std::io;
use std::io::Write;

// ---- requests, printed

/// A request in words, as `bac ask` takes it, with values by their kinds: `write analog-value:1 present-value real 72.3 priority 8`. Of records that are
/// written only their number is printed. An Err is out of memory.
pub fn request_words(alloc: Global, request: Request<'_>) -> Result<Vec<u8>, NoMemory>
    ensures { IfOk result (λ t. AreRequestWords (request_view request.entry) t.items) }
{
    match request {
        AnyRequest::ReadFile(read) => Ok(get_words(alloc, read)?),
        AnyRequest::WriteFile(write) => Ok(write_file_words(alloc, write)?),
        AnyRequest::ReadProperty(reference) => Ok(read_words(alloc, reference)?),
        AnyRequest::WriteProperty(write) => write_words(alloc, write),
    }
}

/// A request in short, for the arrow of a chart: the same words without values.
pub(crate) fn request_label(alloc: Global, request: Request<'_>) -> Result<Vec<u8>, AllocError>
    ensures { IfOk result (λ t. t.items ≡ request_label (request_view request.entry)) }
{
    match request {
        AnyRequest::ReadFile(read) => get_label(alloc, read.file),
        AnyRequest::WriteFile(write) => write_file_label(alloc, write),
        AnyRequest::ReadProperty(reference) => read_words(alloc, reference),
        AnyRequest::WriteProperty(write) => write_label(alloc, write.reference),
    }
}

/// Prints the line of a request, as `bac decode` does: `read-property object=0:5 property=85`. In words, the object and the property stand by their
/// names and each value by its kind. An Err is the writer's, or out of memory.
pub fn print_request<W: Write>(
    alloc: Global,
    in_words: bool,
    request: Request<'_>,
    out: &mut W,
) -> io::Result<()>
    ensures { OnOk result (AppendsLine (W.contents out.old) (W.contents out.new) (IsRequestText in_words (request_view request.entry))) }
{
    print_line(alloc, in_words, request.name(), &request.members(), out)
}

// ---- what requests ask for

/// The property that a request reads; None of any other request.
pub fn property_read(request: Request<'_>) -> Option<PropertyReference>
    ensures { option_map property_reference_view result ≡ property_read (request_view request.entry) }
{
    if request.service().is_read() {
        request.property()
    } else {
        None
    }
}

/// Whether a request reads a file.
pub fn reads_file(request: Request<'_>) -> bool
    ensures { result ≡ reads_file (request_view request.entry) }
{
    request.service().is_read() && request.start().is_some()
}

// ---- requests, read

/// With one word after the object.
#[tactic(auto, unfolding(crate::specs::Dispatch::one_more))]
fn with_one(
    alloc: Global,
    verb: &[u8],
    object: ObjectIdentifier,
    a: &[u8],
) -> Result<OwnedRequest, FormFault>
    ensures { Reads owned_request_view result (one_more verb.now (object_identifier_view object) a.now) }
{
    if verb == b"read".as_slice() {
        read_property_in(object, a)
    } else if verb == b"append".as_slice() {
        append_in(alloc, object, a)
    } else {
        Err(FormFault::NoForm)
    }
}

/// With two words after the object.
#[tactic(auto, unfolding(crate::specs::Dispatch::two_more))]
fn with_two(
    alloc: Global,
    verb: &[u8],
    object: ObjectIdentifier,
    a: &[u8],
    b: &[u8],
) -> Result<OwnedRequest, FormFault>
    ensures { Reads owned_request_view result (two_more verb.now (object_identifier_view object) a.now b.now) }
{
    if verb == b"put".as_slice() {
        put_in(alloc, object, a, b)
    } else if verb == b"get".as_slice() {
        read_file_in(object, a, b)
    } else {
        Err(FormFault::NoForm)
    }
}

/// Whether values follow the property.
pub(crate) fn takes_values(verb: &[u8]) -> bool
    ensures { result ≡ takes_values verb.now }
{
    verb == b"write".as_slice()
}

/// With two words or more after the object.
#[tactic(auto, unfolding(crate::specs::Dispatch::more_of))]
fn with_more(
    alloc: Global,
    verb: &[u8],
    object: ObjectIdentifier,
    a: &[u8],
    b: &[u8],
    words: &[&[u8]],
) -> Result<OwnedRequest, FormFault>
    ensures { Reads owned_request_view result (more_of verb.now (object_identifier_view object) a.now b.now (map (λ w. w.now) words.now)) }
{
    if takes_values(verb) {
        return write_property_in(alloc, object, a, b, words);
    }
    match words {
        [] => with_two(alloc, verb, object, a, b),
        _ => Err(FormFault::NoForm),
    }
}

/// The request that some words are: `read T:I P`, `write T:I P VALUE ..`, `append T:I HEX`, `put T:I POSITION HEX` or `get T:I POSITION COUNT`.
///
/// `T:I` is an object's type, by number or name, and its instance, `P` a property, by number or name, with an index in brackets if need be, `HEX` octets
/// in hexadecimal. A `VALUE` is a value by its kind, as `real:72.5`, or octets of values in hexadecimal; the values are one data as a whole, and
/// `priority N` may stand behind them, 1 to 16. `NoForm` where they are none of these or a number is outside its range.
pub fn read_request_words(alloc: Global, words: &[&[u8]]) -> Result<OwnedRequest, FormFault>
    ensures { Reads owned_request_view result (request_of (map (λ w. w.now) words.now)) }
{
    match words {
        [verb, object, a] => with_one(alloc, *verb, object_or_fault(*object)?, *a),
        [verb, object, a, b, words @ ..] => {
            with_more(alloc, *verb, object_or_fault(*object)?, *a, *b, words)
        }
        _ => Err(FormFault::NoForm),
    }
}

const PROPERTY_WORDS: &[Wanted] = &[Wanted::Object, Wanted::Property];

const APPEND_WORDS: &[Wanted] = &[Wanted::Object, Wanted::Octets];

const PUT_WORDS: &[Wanted] = &[Wanted::Object, Wanted::Position, Wanted::Octets];

const GET_WORDS: &[Wanted] = &[Wanted::Object, Wanted::Position, Wanted::Count];

/// What the words after a verb have to be; values may follow these.
pub(crate) fn roles_of(verb: &[u8]) -> Option<&'static [Wanted]>
    ensures { option_map (λ r. r.now) result ≡ roles_of verb.now }
{
    if verb == b"read".as_slice() || verb == b"write".as_slice() {
        Some(PROPERTY_WORDS)
    } else if verb == b"append".as_slice() {
        Some(APPEND_WORDS)
    } else if verb == b"put".as_slice() {
        Some(PUT_WORDS)
    } else if verb == b"get".as_slice() {
        Some(GET_WORDS)
    } else {
        None
    }
}

/// What is wrong with any other verb.
pub(crate) fn no_verb() -> &'static str
    ensures { result.now ≡ no_verb }
{
    "is not read, write, append, put or get"
}

// ---- the service data of ComplexACKs, printed

/// The service data of a ComplexACK in words: of a property its values, each by its kind.
pub(crate) fn complex_words(alloc: Global, complex: Complex<'_>) -> Result<Vec<u8>, NoMemory>
    ensures { IfOk result (λ t. AreComplexWords (complex_view complex.entry) t.items) }
{
    match complex {
        AnyComplex::FileRead(read) => Ok(file_text(alloc, read)?),
        AnyComplex::FileWritten(written) => Ok(written_text(alloc, written)?),
        AnyComplex::PropertyRead(read) => data_text(alloc, read.values),
    }
}

/// The service data of a ComplexACK by numbers, with octets in hexadecimal.
pub(crate) fn complex_text(alloc: Global, complex: Complex<'_>) -> Result<Vec<u8>, AllocError>
    ensures { IfOk result (λ t. t.items ≡ complex_text (complex_view complex.entry)) }
{
    match complex {
        AnyComplex::FileRead(read) => file_text(alloc, read),
        AnyComplex::FileWritten(written) => written_text(alloc, written),
        AnyComplex::PropertyRead(read) => values_text(alloc, read),
    }
}

/// Prints the line of the service data of a ComplexACK, as `bac decode` does: `read-property-ack object=0:5 property=85 values=44428C0000`, in words or
/// not, as [`print_request`]. An Err is the writer's, or out of memory.
pub fn print_complex<W: Write>(
    alloc: Global,
    in_words: bool,
    complex: Complex<'_>,
    out: &mut W,
) -> io::Result<()>
    ensures { OnOk result (AppendsLine (W.contents out.old) (W.contents out.new) (IsComplexText in_words (complex_view complex.entry))) }
{
    print_line(alloc, in_words, complex.name(), &complex.members(), out)
}
