//! Comparison of requests and replies.
ghost use Rattle.std.specs.Prelude.{◌≡◌, ◌↔◌, IsTrue};
ghost use Rattle.bac_value.specs.Views.{object_identifier_view};
ghost use Rattle.bac_service.specs.Views.{file_written_view, owned, owned_complex_view, owned_reply_view, owned_request_view, priority_view};
ghost use Rattle.bac_service.specs.Views.{property_reference_view, read_access_view, write_access_view};

use crate::{
    AnyComplex, AnyReply, AnyRequest, FileWritten, OwnedComplex, OwnedRecords, OwnedReply,
    OwnedRequest, Priority, PropertyReference, ReadAccess, ReadFile, WriteAccess, WriteFile,
    WriteProperty,
};
use bac_value::{DataBuf, ObjectIdentifier, OctetString};

/// Whether both identify the same object.
pub fn same_object(one: ObjectIdentifier, other: ObjectIdentifier) -> bool
    ensures { IsTrue result ↔ (object_identifier_view one ≡ object_identifier_view other) }
{
    one.kind == other.kind && one.instance == other.instance
}

/// Whether both identify the same property of the same object, and the same element of it.
fn same_reference(one: &PropertyReference, other: &PropertyReference) -> bool
    ensures { IsTrue result ↔ (property_reference_view one.now ≡ property_reference_view other.now) }
{
    if !same_object(one.object, other.object) {
        return false;
    }
    one.property == other.property && one.index == other.index
}

fn same_read_access(one: ReadAccess, other: ReadAccess) -> bool
    ensures { IsTrue result ↔ (read_access_view one ≡ read_access_view other) }
{
    match one {
        ReadAccess::Stream { start, count } => match other {
            ReadAccess::Stream {
                start: at,
                count: len,
            } => start == at && count == len,
            ReadAccess::Records { .. } => false,
        },
        ReadAccess::Records { start, count } => match other {
            ReadAccess::Stream { .. } => false,
            ReadAccess::Records {
                start: at,
                count: len,
            } => start == at && count == len,
        },
    }
}

fn same_write_access(
    one: &WriteAccess<OctetString, OwnedRecords>,
    other: &WriteAccess<OctetString, OwnedRecords>,
) -> bool
    ensures { IsTrue result ↔ (write_access_view owned one.now ≡ write_access_view owned other.now) }
{
    match one {
        WriteAccess::Stream(stream) => match other {
            WriteAccess::Stream(octets) => {
                stream.start == octets.start && stream.content.octets == octets.content.octets
            }
            WriteAccess::Records(_) => false,
        },
        WriteAccess::Records(records) => match other {
            WriteAccess::Stream(_) => false,
            WriteAccess::Records(run) => {
                records.start == run.start
                    && records.records.count == run.records.count
                    && records.records.run == run.records.run
            }
        },
    }
}

fn same_priority(one: Option<Priority>, other: Option<Priority>) -> bool
    ensures { IsTrue result ↔ (priority_view one ≡ priority_view other) }
{
    match one {
        None => other.is_none(),
        Some(one) => match other {
            None => false,
            Some(other) => one.number == other.number,
        },
    }
}

/// Whether two requests are equal, as contracts see them.
pub fn same_request(one: &OwnedRequest, other: &OwnedRequest) -> bool
    ensures { IsTrue result ↔ (owned_request_view one.now ≡ owned_request_view other.now) }
{
    match one {
        AnyRequest::ReadFile(read) => match other {
            AnyRequest::ReadFile(file) => {
                same_object(read.file, file.file) && same_read_access(read.access, file.access)
            }
            _ => false,
        },
        AnyRequest::WriteFile(write) => match other {
            AnyRequest::WriteFile(file) => {
                same_object(write.file, file.file) && same_write_access(&write.access, &file.access)
            }
            _ => false,
        },
        AnyRequest::ReadProperty(read) => match other {
            AnyRequest::ReadProperty(property) => same_reference(read, property),
            _ => false,
        },
        AnyRequest::WriteProperty(write) => match other {
            AnyRequest::WriteProperty(property) => {
                same_reference(&write.reference, &property.reference)
                    && write.values.octets == property.values.octets
                    && same_priority(write.priority, property.priority)
            }
            _ => false,
        },
    }
}

fn same_file_written(one: FileWritten, other: FileWritten) -> bool
    ensures { IsTrue result ↔ (file_written_view one ≡ file_written_view other) }
{
    match one {
        FileWritten::Stream(start) => match other {
            FileWritten::Stream(at) => start == at,
            FileWritten::Records(_) => false,
        },
        FileWritten::Records(start) => match other {
            FileWritten::Stream(_) => false,
            FileWritten::Records(at) => start == at,
        },
    }
}

fn same_complex(one: &OwnedComplex, other: &OwnedComplex) -> bool
    ensures { IsTrue result ↔ (owned_complex_view one.now ≡ owned_complex_view other.now) }
{
    match one {
        AnyComplex::FileRead(read) => match other {
            AnyComplex::FileRead(file) => {
                read.end_of_file == file.end_of_file
                    && read.start == file.start
                    && read.content.octets == file.content.octets
            }
            _ => false,
        },
        AnyComplex::FileWritten(written) => match other {
            AnyComplex::FileWritten(file) => same_file_written(*written, *file),
            _ => false,
        },
        AnyComplex::PropertyRead(read) => match other {
            AnyComplex::PropertyRead(property) => {
                same_reference(&read.reference, &property.reference)
                    && read.values.octets == property.values.octets
            }
            _ => false,
        },
    }
}

/// Whether two replies are equal, as contracts see them.
pub fn same_reply(one: &OwnedReply, other: &OwnedReply) -> bool
    ensures { IsTrue result ↔ (owned_reply_view one.now ≡ owned_reply_view other.now) }
{
    match one {
        AnyReply::Simple => matches!(other, AnyReply::Simple),
        AnyReply::Complex(complex) => match other {
            AnyReply::Complex(service_data) => same_complex(complex, service_data),
            _ => false,
        },
        AnyReply::Error { class, code } => match other {
            AnyReply::Error {
                class: kind,
                code: number,
            } => class == kind && code == number,
            _ => false,
        },
        AnyReply::Reject(reason) => match other {
            AnyReply::Reject(why) => reason == why,
            _ => false,
        },
    }
}
