//! Plans for each request.
ghost use Rattle.std.specs.Prelude.{◌≡◌, ◌+◌, ◌≤◌, true, map, length, IfOk, IfSome, OnErr};
ghost use Rattle.std.specs.Option.{option_map};
ghost use Rattle.bac_service.specs.Values.Request.{ReadFile as FileReading, WriteFile as FileWriting, ReadProperty as PropertyReading};
ghost use Rattle.bac_service.specs.Values.Request.{WriteProperty as PropertyWriting};
ghost use Rattle.bac_service.specs.Views.{lent, priority_view, property_reference_view, read_access_view};
ghost use Rattle.bac_service.specs.Views.{write_access_view};
ghost use Rattle.bac_store.specs.Answers.{refused};
ghost use Rattle.bac_store.specs.Changes.{HoldsOctets, is_done, IsGranted, IsSize, resized, size_of};
ghost use Rattle.bac_store.specs.Kept.{IsInOrder};
ghost use Rattle.bac_store.specs.Limits.{FILE_LIMIT as FILE_MOST, FILE_SIZE as FILE_SIZE_NUMBER};
ghost use Rattle.bac_store.specs.Plans.{StoreEffect as StoreEffectView, IsPlanFor, IsStreamPlan, write_effect};
ghost use Rattle.bac_store.specs.Replies.{file_of as file_in, write_stream_reply};
ghost use Rattle.bac_store.specs.Stores.{object_in};
ghost use Rattle.bac_store.specs.Views.{effect_view, entry_view, file_view};
ghost use Rattle.bac_value.specs.Views.{object_identifier_view};

use crate::copying::copied_octets;
use crate::entry::StoredObject;
use crate::files::{read_file, write_place};
use crate::limits::FILE_SIZE;
use crate::lookups::entry_of;
use crate::object::File;
use crate::planned::{Planned, StoreEffect};
use crate::properties::{read_property, write_refusal};
use crate::rank::number_in;
use crate::refusal::Refusal;
use crate::splice::Splice;
use crate::targets::target_of;
use bac_service::{
    AnyComplex, AnyReply, Content, FileWritten, PropertyReference, ReadFile, Records, WriteAccess,
    WriteFile, WriteProperty, WriteStream,
};
use bac_value::{Data, NoMemory, ObjectIdentifier};
use std::alloc::Global;

/// A plan that refuses the request by an Error and changes nothing.
fn refused(refusal: Refusal) -> Planned
    ensures { result ≡ record { reply = refused refusal; effect = StoreEffectView.Nothing } }
{
    Planned {
        reply: refusal.reply(),
        effect: StoreEffect::Nothing,
    }
}

/// A plan for reading a property (clause 15.5).
pub(crate) fn plan_read_property(
    alloc: Global,
    objects: &[StoredObject],
    reference: PropertyReference,
) -> Result<Planned, NoMemory>
    requires { IsInOrder (map entry_view objects.now) }
    ensures plan { IfOk result (λ p. IsPlanFor (map entry_view objects.now) (PropertyReading (property_reference_view reference)) p) }
    ensures last { OnErr result (IsGranted (map entry_view objects.now) (PropertyReading (property_reference_view reference))) }
    ensures held { OnErr result (HoldsOctets (map entry_view objects.now) (PropertyReading (property_reference_view reference))) }
{
    let Some(entry) = target_of(objects, reference.object) else {
        return Ok(refused(Refusal::UnknownObject));
    };
    let reply = read_property(alloc, entry, reference)?;
    Ok(Planned {
        reply,
        effect: StoreEffect::Nothing,
    })
}

/// The octets of a file cut, or with zeros behind them, so that they are as many as the values of its size say.
fn resized_octets(alloc: Global, octets: &[u8], values: &[u8]) -> Result<Vec<u8>, NoMemory>
    requires { size_of values.now ≤ FILE_MOST }
    ensures { IfOk result (λ v. v.items ≡ resized (size_of values.now) octets.now) }
{
    let mut copy = copied_octets(alloc, octets)?;
    copy.resize(number_in(values) as usize, 0)?;
    Ok(copy)
}

/// The effect of writing these values to a property of this object.
fn write_effect(
    alloc: Global,
    entry: &StoredObject,
    reference: PropertyReference,
    values: Data<'_>,
) -> Result<StoreEffect, NoMemory>
    requires { reference.property ≡ FILE_SIZE_NUMBER → IsSize values.octets.now }
    ensures held { OnErr result (1 ≤ length values.entry.octets.now) }
    ensures effect { IfOk result (λ e. effect_view e ≡ write_effect (property_reference_view reference) values.entry.octets.now (entry_view entry.now)) }
{
    let object = reference.object;
    if reference.property != FILE_SIZE {
        let property = reference.property;
        let values = values.to_owned(alloc)?;
        return Ok(StoreEffect::Values {
            object,
            property,
            values,
        });
    }
    match &entry.file {
        None => Ok(StoreEffect::Nothing),
        Some(file) => {
            let octets = resized_octets(alloc, &file.octets, values.octets)?;
            Ok(StoreEffect::Contents { object, octets })
        }
    }
}

/// A plan for writing a property (clause 15.9).
pub(crate) fn plan_write_property(
    alloc: Global,
    objects: &[StoredObject],
    write: WriteProperty<Data<'_>>,
) -> Result<Planned, NoMemory>
    requires { IsInOrder (map entry_view objects.now) }
    ensures plan { IfOk result (λ p. IsPlanFor (map entry_view objects.now)
        (PropertyWriting (property_reference_view write.entry.reference) write.entry.values.octets.now (priority_view write.entry.priority)) p) }
    ensures last { OnErr result (IsGranted (map entry_view objects.now)
        (PropertyWriting (property_reference_view write.entry.reference) write.entry.values.octets.now (priority_view write.entry.priority))) }
    ensures held { OnErr result (1 ≤ length write.entry.values.octets.now) }
{
    let reference = write.reference;
    let Some(entry) = entry_of(objects, reference.object) else {
        return Ok(refused(Refusal::UnknownObject));
    };
    if let Some(refusal) = write_refusal(entry, reference, write.values.octets) {
        return Ok(refused(refusal));
    }
    let effect = write_effect(alloc, entry, reference, write.values)?;
    Ok(Planned {
        reply: AnyReply::Simple,
        effect,
    })
}

/// The file with this identifier.
pub(crate) fn file_of(objects: &[StoredObject], id: ObjectIdentifier) -> Option<&File>
    requires { IsInOrder (map entry_view objects.now) }
    ensures found { option_map (λ f. file_view f.now) result ≡ file_in (object_in (map entry_view objects.now) (object_identifier_view id)) }
    ensures short { IfSome result (λ f. length f.now.octets.items ≤ FILE_MOST) }
{
    match entry_of(objects, id) {
        None => None,
        Some(entry) => entry.file.as_ref(),
    }
}

/// A plan for reading a file (clause 14.1).
pub(crate) fn plan_read_file(
    alloc: Global,
    objects: &[StoredObject],
    read: ReadFile,
) -> Result<Planned, NoMemory>
    requires { IsInOrder (map entry_view objects.now) }
    ensures plan { IfOk result (λ p. IsPlanFor (map entry_view objects.now) (FileReading (object_identifier_view read.file) (read_access_view read.access)) p) }
    ensures last { OnErr result (IsGranted (map entry_view objects.now) (FileReading (object_identifier_view read.file) (read_access_view read.access))) }
    ensures held { OnErr result (HoldsOctets (map entry_view objects.now) (FileReading (object_identifier_view read.file) (read_access_view read.access))) }
{
    let Some(file) = file_of(objects, read.file) else {
        return Ok(refused(Refusal::UnknownObject));
    };
    let reply = read_file(alloc, file, read.access)?;
    Ok(Planned {
        reply,
        effect: StoreEffect::Nothing,
    })
}

/// A plan for writing octets to a file that exists.
fn plan_write_stream(
    alloc: Global,
    id: ObjectIdentifier,
    file: &File,
    write: WriteStream<Content<'_>>,
) -> Result<Planned, NoMemory>
    requires { length file.now.octets.items ≤ FILE_MOST }
    ensures plan { IfOk result (λ p. IsStreamPlan (object_identifier_view id) write.entry.start write.entry.content.octets.now (file_view file.now) p) }
    ensures last { OnErr result (is_done (write_stream_reply write.entry.start write.entry.content.octets.now (file_view file.now)) ≡ true) }
    ensures held { OnErr result (1 ≤ length file.now.octets.items + length write.entry.content.octets.now) }
{
    let new = write.content.octets;
    match write_place(file, write.start, new) {
        Err(refusal) => Ok(refused(refusal)),
        Ok(at) => {
            let splice = Splice::new(alloc, at, new)?;
            let reply = AnyReply::Complex(AnyComplex::FileWritten(FileWritten::Stream(at as i64)));
            let effect = StoreEffect::Octets { object: id, splice };
            Ok(Planned { reply, effect })
        }
    }
}

/// A plan for writing to a file (clause 14.2).
pub(crate) fn plan_write_file(
    alloc: Global,
    objects: &[StoredObject],
    write: WriteFile<Content<'_>, Records<'_>>,
) -> Result<Planned, NoMemory>
    requires { IsInOrder (map entry_view objects.now) }
    ensures plan { IfOk result (λ p. IsPlanFor (map entry_view objects.now)
        (FileWriting (object_identifier_view write.entry.file) (write_access_view lent write.entry.access)) p) }
    ensures last { OnErr result (IsGranted (map entry_view objects.now)
        (FileWriting (object_identifier_view write.entry.file) (write_access_view lent write.entry.access))) }
    ensures held { OnErr result (HoldsOctets (map entry_view objects.now)
        (FileWriting (object_identifier_view write.entry.file) (write_access_view lent write.entry.access))) }
{
    let Some(file) = file_of(objects, write.file) else {
        return Ok(refused(Refusal::UnknownObject));
    };
    match write.access {
        WriteAccess::Records(_) => Ok(refused(Refusal::InvalidFileAccessMethod)),
        WriteAccess::Stream(stream) => plan_write_stream(alloc, write.file, file, stream),
    }
}
