//! Requests, as a C program says them.
ghost use Rattle.std.specs.Prelude.{◌≡◌, true, false, nat_le, IfErr, IfOk, MatchOption, OnOk};
ghost use Rattle.std.specs.Option.{option_map};
ghost use Rattle.bac_service.specs.Views.{owned_request_view, property_reference_view};
ghost use Rattle.bac_c.specs.Asking.{get_of, priority_of as plain_priority, put_of, read_of, reference_of as plain_reference, request_of as plain_request, write_of};
ghost use Rattle.bac_c.specs.Ranges.{is_instance, is_put, is_question, is_reference, is_written, IsUnready};

use crate::copying::copied_octets;
use crate::fault::Fault;
use crate::question::Question;
use crate::ranges::{identifier_of, whole_data};
use crate::records::Reference;
use bac_service::{
    AnyRequest, OwnedRequest, Priority, PropertyReference, ReadAccess, ReadFile, WriteAccess,
    WriteFile, WriteProperty, WriteStream,
};
use bac_value::OctetString;
use std::alloc::Global;

/// The type of file objects (BACnetObjectType).
pub const FILE: u16 = 10;

/// A property; None where a number is out of range.
pub fn reference_of(reference: &Reference) -> Option<PropertyReference>
    ensures { MatchOption result (is_reference reference.now ≡ false)
        (λ r. (is_reference reference.now ≡ true) × (property_reference_view r ≡ plain_reference reference.now)) }
{
    let object = identifier_of(reference.object_type, reference.instance)?;
    let index = if reference.index == u32::MAX {
        None
    } else {
        Some(reference.index)
    };
    Some(PropertyReference {
        object,
        property: reference.property,
        index,
    })
}

/// A priority where the number is not 0; None where it is above 16.
fn priority_of(number: u8) -> Option<Option<Priority>>
    ensures { MatchOption result (nat_le number 16 ≡ false)
        (λ p. (nat_le number 16 ≡ true) × (option_map (λ q. q.number) p ≡ plain_priority number)) }
{
    if number == 0 {
        return Some(None);
    }
    match Priority::new(number) {
        Some(priority) => Some(Some(priority)),
        None => None,
    }
}

/// A property is read.
fn read_request(reference: &Reference) -> Result<OwnedRequest, Fault>
    ensures same { IfOk result (λ r. owned_request_view r ≡ read_of reference.now) }
    ensures may { OnOk result (is_reference reference.now ≡ true) }
    ensures why { IfErr result (IsUnready (is_reference reference.now)) }
{
    let Some(reference) = reference_of(reference) else {
        return Err(Fault::BadRequest);
    };
    Ok(AnyRequest::ReadProperty(reference))
}

/// A property is written, with that priority where it is not 0.
fn write_request(
    alloc: Global,
    reference: &Reference,
    octets: &[u8],
    priority: u8,
) -> Result<OwnedRequest, Fault>
    ensures same { IfOk result (λ r. owned_request_view r ≡ write_of reference.now octets.now priority) }
    ensures may { OnOk result (is_written reference.now octets.now priority ≡ true) }
    ensures why { IfErr result (IsUnready (is_written reference.now octets.now priority)) }
{
    let Some(reference) = reference_of(reference) else {
        return Err(Fault::BadRequest);
    };
    let Some(priority) = priority_of(priority) else {
        return Err(Fault::BadRequest);
    };
    let Some(data) = whole_data(octets) else {
        return Err(Fault::BadRequest);
    };
    let values = data.to_owned(alloc)?;
    Ok(AnyRequest::WriteProperty(WriteProperty {
        reference,
        values,
        priority,
    }))
}

/// A file is written from a position on; position -1 appends.
fn put_request(
    alloc: Global,
    file: u32,
    position: i64,
    octets: &[u8],
) -> Result<OwnedRequest, Fault>
    ensures same { IfOk result (λ r. owned_request_view r ≡ put_of file position octets.now) }
    ensures may { OnOk result (is_put file octets.now ≡ true) }
    ensures why { IfErr result (IsUnready (is_put file octets.now)) }
{
    let Some(file) = identifier_of(FILE, file) else {
        return Err(Fault::BadRequest);
    };
    // the length in a tag has 32 bits (clause 20.2.1.3.1)
    if octets.len() >= 0x1_0000_0000 {
        return Err(Fault::BadRequest);
    }
    let octets = copied_octets(alloc, octets)?;
    let content = OctetString { octets };
    Ok(AnyRequest::WriteFile(WriteFile {
        file,
        access: WriteAccess::Stream(WriteStream {
            start: position,
            content,
        }),
    }))
}

/// Octets of a file are read from a position on.
fn get_request(file: u32, position: i64, count: u64) -> Result<OwnedRequest, Fault>
    ensures same { IfOk result (λ r. owned_request_view r ≡ get_of file position count) }
    ensures may { OnOk result (is_instance file ≡ true) }
    ensures why { IfErr result (IsUnready (is_instance file)) }
{
    let Some(file) = identifier_of(FILE, file) else {
        return Err(Fault::BadRequest);
    };
    Ok(AnyRequest::ReadFile(ReadFile {
        file,
        access: ReadAccess::Stream {
            start: position,
            count,
        },
    }))
}

/// The request that a C program asks for; `BadRequest` exactly where it is none, otherwise `NoMemory` where that was refused.
pub fn request_of(alloc: Global, question: &Question<'_>) -> Result<OwnedRequest, Fault>
    ensures same { IfOk result (λ r. owned_request_view r ≡ plain_request question.now) }
    ensures may { OnOk result (is_question question.now ≡ true) }
    ensures why { IfErr result (IsUnready (is_question question.now)) }
{
    match question {
        Question::Read(reference) => read_request(reference),
        Question::Write {
            reference,
            octets,
            priority,
        } => write_request(alloc, reference, octets, *priority),
        Question::Put {
            file,
            position,
            octets,
        } => put_request(alloc, *file, *position, octets),
        Question::Get {
            file,
            position,
            count,
        } => get_request(*file, *position, *count),
    }
}
