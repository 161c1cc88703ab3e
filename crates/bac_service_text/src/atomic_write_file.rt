//! AtomicWriteFile as text (clause 14.2).
ghost use Rattle.std.specs.Prelude.{◌≡◌, IfOk};
ghost use Rattle.bac_service.specs.Views.{lent, owned_request_view, write_access_view};
ghost use Rattle.bac_service_text.specs.AtomicWriteFile.{append_of, append_words, content_in, put_of, put_records_words, put_words};
ghost use Rattle.bac_service_text.specs.AtomicWriteFile.{stream_words, write_file_label, write_file_words, written_at, written_text};
ghost use Rattle.bac_service_text.specs.Reading.{Reads};
ghost use Rattle.bac_value.specs.Views.{object_identifier_view};

use crate::form_fault::FormFault;
use crate::reference::{object_words, octets_or_fault};
use bac_service::{
    AnyRequest, Content, FileWritten, OwnedRequest, Records, WriteAccess, WriteFile, WriteRecords,
    WriteStream,
};
use bac_value::{ObjectIdentifier, OctetString};
use bac_value_text::signed_in;
use std::alloc::{AllocError, Global};

// ---- the request in words

fn append_words(alloc: Global, file: ObjectIdentifier, octets: &[u8]) -> Result<Vec<u8>, AllocError>
    ensures { IfOk result (λ t. t.items ≡ append_words (object_identifier_view file) octets.now) }
{
    let octets = hex::encode_upper(alloc, octets)?;
    let mut words = object_words(alloc, b"append ", file)?;
    words.push(b' ')?;
    words.extend_from_slice(octets.as_bytes())?;
    Ok(words)
}

fn put_words(
    alloc: Global,
    file: ObjectIdentifier,
    start: i64,
    octets: &[u8],
) -> Result<Vec<u8>, AllocError>
    ensures { IfOk result (λ t. t.items ≡ put_words (object_identifier_view file) start octets.now) }
{
    let octets = hex::encode_upper(alloc, octets)?;
    let place = format!(in alloc; " {start} {octets}")?;
    let mut words = object_words(alloc, b"put ", file)?;
    words.extend_from_slice(place.as_bytes())?;
    Ok(words)
}

/// Octets of a file that are written: at its end, or at a position.
fn stream_words(
    alloc: Global,
    file: ObjectIdentifier,
    stream: WriteStream<Content<'_>>,
) -> Result<Vec<u8>, AllocError>
    ensures { IfOk result (λ t. t.items ≡ stream_words (object_identifier_view file) stream.entry.start stream.entry.content.octets.now) }
{
    if stream.start == -1 {
        append_words(alloc, file, stream.content.octets)
    } else {
        put_words(alloc, file, stream.start, stream.content.octets)
    }
}

fn put_records_words(
    alloc: Global,
    file: ObjectIdentifier,
    write: WriteRecords<Records<'_>>,
) -> Result<Vec<u8>, AllocError>
    ensures { IfOk result (λ t. t.items ≡ put_records_words (object_identifier_view file) write.entry.start write.entry.records.count) }
{
    let start = write.start;
    let count = write.records.count;
    let place = format!(in alloc; " record {start} count {count}")?;
    let mut words = object_words(alloc, b"put ", file)?;
    words.extend_from_slice(place.as_bytes())?;
    Ok(words)
}

/// The request in words, as `append file:1 6869` or `put file:1 0 6869`; of records their number alone.
pub(crate) fn write_file_words(
    alloc: Global,
    write: WriteFile<Content<'_>, Records<'_>>,
) -> Result<Vec<u8>, AllocError>
    ensures { IfOk result (λ t. t.items ≡ write_file_words (object_identifier_view write.entry.file) (write_access_view lent write.entry.access)) }
{
    match write.access {
        WriteAccess::Stream(stream) => stream_words(alloc, write.file, stream),
        WriteAccess::Records(records) => put_records_words(alloc, write.file, records),
    }
}

/// The same, without the number of records.
pub(crate) fn write_file_label(
    alloc: Global,
    write: WriteFile<Content<'_>, Records<'_>>,
) -> Result<Vec<u8>, AllocError>
    ensures { IfOk result (λ t. t.items ≡ write_file_label (object_identifier_view write.entry.file) (write_access_view lent write.entry.access)) }
{
    match write.access {
        WriteAccess::Stream(stream) => stream_words(alloc, write.file, stream),
        WriteAccess::Records(_) => object_words(alloc, b"put records ", write.file),
    }
}

// ---- the request, read

/// Octets for a file.
fn content_of(octets: Vec<u8>) -> Result<OctetString, FormFault>
    ensures { Reads (λ s. s.octets.items) result (content_in octets.items) }
{
    match OctetString::new(octets) {
        Some(content) => Ok(content),
        None => Err(FormFault::NoForm),
    }
}

/// Octets are written to a file from a position on; position -1 appends.
#[tactic(auto, unfolding(crate::specs::AtomicWriteFile::written_at))]
fn write_at(
    alloc: Global,
    file: ObjectIdentifier,
    start: i64,
    content: &[u8],
) -> Result<OwnedRequest, FormFault>
    ensures { Reads owned_request_view result (written_at (object_identifier_view file) start content.now) }
{
    let octets = octets_or_fault(alloc, content)?;
    let content = content_of(octets)?;
    let access = WriteAccess::Stream(WriteStream { start, content });
    Ok(AnyRequest::WriteFile(WriteFile { file, access }))
}

/// The request that `append OBJECT OCTETS` means.
pub(crate) fn append_in(
    alloc: Global,
    file: ObjectIdentifier,
    content: &[u8],
) -> Result<OwnedRequest, FormFault>
    ensures { Reads owned_request_view result (append_of (object_identifier_view file) content.now) }
{
    write_at(alloc, file, -1, content)
}

/// The request that `put OBJECT POSITION OCTETS` means.
pub(crate) fn put_in(
    alloc: Global,
    file: ObjectIdentifier,
    start: &[u8],
    content: &[u8],
) -> Result<OwnedRequest, FormFault>
    ensures { Reads owned_request_view result (put_of (object_identifier_view file) start.now content.now) }
{
    let Some(start) = signed_in(start) else {
        return Err(FormFault::NoForm);
    };
    write_at(alloc, file, start, content)
}

// ---- the reply

/// Where the file was written, as `position 480` or `record 3`.
pub(crate) fn written_text(alloc: Global, written: FileWritten) -> Result<Vec<u8>, AllocError>
    ensures { IfOk result (λ t. t.items ≡ written_text written) }
{
    let text = match written {
        FileWritten::Stream(start) => format!(in alloc; "position {start}")?,
        FileWritten::Records(start) => format!(in alloc; "record {start}")?,
    };
    Ok(text.into_bytes())
}
