//! AtomicReadFile as text (clause 14.1).
ghost use Rattle.std.specs.Prelude.{◌≡◌, IfOk};
ghost use Rattle.bac_service.specs.Views.{owned_request_view, read_access_view};
ghost use Rattle.bac_service_text.specs.AtomicReadFile.{file_text, get_label, get_of, get_words};
ghost use Rattle.bac_service_text.specs.Reading.{Reads};
ghost use Rattle.bac_value.specs.Views.{object_identifier_view};

use crate::form_fault::FormFault;
use crate::reference::object_words;
use bac_service::{AnyRequest, Content, FileRead, OwnedRequest, ReadAccess, ReadFile};
use bac_value::ObjectIdentifier;
use bac_value_text::{number_in, signed_in};
use std::alloc::{AllocError, Global};

// ---- the request

/// The request without its position and count.
pub(crate) fn get_label(alloc: Global, file: ObjectIdentifier) -> Result<Vec<u8>, AllocError>
    ensures { IfOk result (λ t. t.items ≡ get_label (object_identifier_view file)) }
{
    object_words(alloc, b"get ", file)
}

/// The request in words, as `get file:1 0 480`.
pub(crate) fn get_words(alloc: Global, read: ReadFile) -> Result<Vec<u8>, AllocError>
    ensures { IfOk result (λ t. t.items ≡ get_words (object_identifier_view read.file) (read_access_view read.access)) }
{
    let place = match read.access {
        ReadAccess::Stream { start, count } => format!(in alloc; " {start} {count}")?,
        ReadAccess::Records { start, count } => {
            format!(in alloc; " record {start} count {count}")?
        }
    };
    let mut words = get_label(alloc, read.file)?;
    words.extend_from_slice(place.as_bytes())?;
    Ok(words)
}

/// The request that `get OBJECT POSITION COUNT` means.
#[tactic(auto, unfolding(crate::specs::AtomicReadFile::get_of))]
pub(crate) fn read_file_in(
    file: ObjectIdentifier,
    start: &[u8],
    count: &[u8],
) -> Result<OwnedRequest, FormFault>
    ensures { Reads owned_request_view result (get_of (object_identifier_view file) start.now count.now) }
{
    let Some(start) = signed_in(start) else {
        return Err(FormFault::NoForm);
    };
    let Some(count) = number_in(count) else {
        return Err(FormFault::NoForm);
    };
    let access = ReadAccess::Stream { start, count };
    Ok(AnyRequest::ReadFile(ReadFile { file, access }))
}

// ---- the reply

/// The octets in hexadecimal, behind whether they reach the end of the file and their position, as `file 1 0 6869`.
pub(crate) fn file_text(alloc: Global, read: FileRead<Content<'_>>) -> Result<Vec<u8>, AllocError>
    ensures { IfOk result (λ t. t.items ≡ file_text read.entry.end_of_file read.entry.start read.entry.content.octets.now) }
{
    let end = u8::from(read.end_of_file);
    let start = read.start;
    let octets = hex::encode_upper(alloc, read.content.octets)?;
    let text = format!(in alloc; "file {end} {start} {octets}")?;
    Ok(text.into_bytes())
}
