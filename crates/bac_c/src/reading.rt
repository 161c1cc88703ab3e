//! What the node's own store holds.
ghost use Rattle.std.specs.Prelude.{◌≡◌, ◌≢◌, ◌↔◌, ◌≤◌, length, IfOk, IsErrOf, IsTrue, OnErr};
ghost use Rattle.bac_service.specs.Views.{property_reference_view};
ghost use Rattle.bac_value.specs.Views.{object_identifier_view};
ghost use Rattle.bac_c.specs.Devices.{Holds};
ghost use Rattle.bac_c.specs.Reading.{Finds, FindsFile, LacksFile, OfFile, OfValues};
ghost use Rattle.bac_c.specs.Reading.{IsFileReadFault, IsFileReadStatus, IsReadFault, IsReadStatus, IsStoreFault, IsValuesFault};
ghost use Rattle.bac_c.specs.Results.{IsCopied};
ghost use Rattle.bac_c.specs.Statuses.{is_one_of, status_of, DONE, FILE_READING, READING};

use crate::copying::copy_out;
use crate::device::Device;
use crate::fault::{Fault, status};
use crate::handle::Handle;
use crate::ranges::identifier_of;
use crate::records::Reference;
use crate::requests::{FILE, reference_of};
use bac_service::{AnyComplex, AnyReply, AnyRequest, PropertyReference, ReadAccess, ReadFile};
use bac_store::Store;
use bac_value::ObjectIdentifier;
use std::alloc::Global;

/// The code of an Error where there is no such object (clause 18).
const UNKNOWN_OBJECT: u32 = 31;

/// Copies the values of a property, or one element of an array, out: how many octets they are.
fn value_out(
    alloc: Global,
    store: &Store,
    reference: PropertyReference,
    out: &mut [u8],
) -> Result<usize, Fault>
    ensures read { IfOk result (λ len. OfValues (λ octets. IsCopied octets out.old len out.new) (property_reference_view reference) store.now) }
    ensures fault { IsValuesFault (property_reference_view reference) store.now result }
    ensures kept { OnErr result (out.new ≡ out.old) }
    ensures few { IsTrue (is_one_of READING (status_of result)) }
{
    let Ok(plan) = store.prepare(alloc, &AnyRequest::ReadProperty(reference)) else {
        return Err(Fault::NoMemory);
    };
    match plan.reply() {
        AnyReply::Complex(AnyComplex::PropertyRead(read)) => Ok(copy_out(read.values.octets, out)),
        AnyReply::Error { code, .. } if code == UNKNOWN_OBJECT => Err(Fault::NoSuchObject),
        _ => Err(Fault::NoSuchProperty),
    }
}

/// Copies all octets of a file out: how many they are.
#[tactic(auto, using(crate::proofs::Files::file_held))]
fn file_out(
    alloc: Global,
    store: &Store,
    file: ObjectIdentifier,
    out: &mut [u8],
) -> Result<usize, Fault>
    ensures read { IfOk result (λ len. OfFile (λ octets. IsCopied octets out.old len out.new) (object_identifier_view file) store.now) }
    ensures object { IsErrOf result Fault.NoSuchObject ↔ LacksFile (object_identifier_view file) store.now }
    ensures memory { IsErrOf result Fault.NoMemory → OfFile (λ octets. 1 ≤ length octets) (object_identifier_view file) store.now }
    ensures others { IsStoreFault result }
    ensures kept { OnErr result (out.new ≡ out.old) }
    ensures few { IsTrue (is_one_of FILE_READING (status_of result)) }
{
    let read = ReadFile {
        file,
        access: ReadAccess::Stream {
            start: 0,
            // as many as there are
            count: u64::MAX,
        },
    };
    let Ok(plan) = store.prepare(alloc, &AnyRequest::ReadFile(read)) else {
        return Err(Fault::NoMemory);
    };
    match plan.reply() {
        AnyReply::Complex(AnyComplex::FileRead(read)) => Ok(copy_out(read.content.octets, out)),
        _ => Err(Fault::NoSuchObject),
    }
}

impl Device {
    /// Copies the values of a property of the node's own store, or one element of an array, out: how many octets they are.
    pub fn get_value(
        &self,
        alloc: Global,
        reference: &Reference,
        out: &mut [u8],
    ) -> Result<usize, Fault>
        ensures read { IfOk result (λ len. Finds (OfValues (λ octets. IsCopied octets out.old len out.new)) reference.now self.now) }
        ensures fault { IsReadFault reference.now self.now result }
        ensures kept { OnErr result (out.new ≡ out.old) }
        ensures few { IsTrue (is_one_of READING (status_of result)) }
    {
        let Some(node) = &self.node else {
            return Err(Fault::NotStarted);
        };
        let Some(reference) = reference_of(reference) else {
            return Err(Fault::BadRequest);
        };
        value_out(alloc, node.store(), reference, out)
    }

    /// Copies all octets of a file of the node's own store out: how many they are.
    pub fn get_file(&self, alloc: Global, file: u32, out: &mut [u8]) -> Result<usize, Fault>
        ensures read { IfOk result (λ len. FindsFile (OfFile (λ octets. IsCopied octets out.old len out.new)) file self.now) }
        ensures fault { IsFileReadFault file self.now result }
        ensures kept { OnErr result (out.new ≡ out.old) }
        ensures few { IsTrue (is_one_of FILE_READING (status_of result)) }
    {
        let Some(node) = &self.node else {
            return Err(Fault::NotStarted);
        };
        let Some(file) = identifier_of(FILE, file) else {
            return Err(Fault::BadRequest);
        };
        file_out(alloc, node.store(), file, out)
    }
}

/// Copies the values of a property of the node's own store, or one element of an array, out, as octets of data; how many they are is put out. Where they are
/// more than there is room, none is copied.
#[unsafe(no_mangle)]
pub extern "C" fn bac_get_value(
    alloc: Global,
    handle: &mut Handle,
    reference: &Reference,
    out: &mut [u8],
    len: &mut usize,
) -> u32
    ensures went { result ≡ DONE → Holds (Finds (OfValues (λ octets. IsCopied octets out.old len.new out.new)) reference.now) handle.old.parked.device }
    ensures status { IsReadStatus reference.now handle.old.parked.device result }
    ensures few { IsTrue (is_one_of READING result) }
    ensures kept { result ≢ DONE → len.new ≡ len.old }
    ensures uncopied { result ≢ DONE → out.new ≡ out.old }
    ensures same { handle.new.parked.device ≡ handle.old.parked.device }
{
    let Some(device) = handle.take(alloc) else {
        return status(Err(Fault::NotOpen));
    };
    let read = device.get_value(alloc, reference, out);
    handle.put(device);
    match read {
        Ok(number) => {
            *len = number;
            status(Ok(()))
        }
        Err(fault) => status(Err(fault)),
    }
}

/// Copies all octets of a file of the node's own store out; how many they are is put out. Where they are more than there is room, none is copied.
#[unsafe(no_mangle)]
pub extern "C" fn bac_get_file(
    alloc: Global,
    handle: &mut Handle,
    file: u32,
    out: &mut [u8],
    len: &mut usize,
) -> u32
    ensures went { result ≡ DONE → Holds (FindsFile (OfFile (λ octets. IsCopied octets out.old len.new out.new)) file) handle.old.parked.device }
    ensures status { IsFileReadStatus file handle.old.parked.device result }
    ensures few { IsTrue (is_one_of FILE_READING result) }
    ensures kept { result ≢ DONE → len.new ≡ len.old }
    ensures uncopied { result ≢ DONE → out.new ≡ out.old }
    ensures same { handle.new.parked.device ≡ handle.old.parked.device }
{
    let Some(device) = handle.take(alloc) else {
        return status(Err(Fault::NotOpen));
    };
    let read = device.get_file(alloc, file, out);
    handle.put(device);
    match read {
        Ok(number) => {
            *len = number;
            status(Ok(()))
        }
        Err(fault) => status(Err(fault)),
    }
}
