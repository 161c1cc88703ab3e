//! What a C program keeps of its node: what was written, and its cells.
ghost use Rattle.std.specs.Prelude.{◌≡◌, is_some, MatchOption};
ghost use Rattle.std.specs.Option.{option_map};
ghost use Rattle.bac_node.specs.Views.{performed_view};
ghost use Rattle.bac_service.specs.Views.{property_reference_view, request_view};
ghost use Rattle.bac_c.specs.Keeping.{cell_in, count_in, target_of as plain_target, whole as plain_whole, written_by as plain_written, written_in};
ghost use Rattle.bac_c.specs.Results.{IsCopied, IsTold};
ghost use Rattle.bac_c.specs.Telling.{number_told, octets_in, place_in};

use crate::handle::Handle;
use crate::performing::is_done;
use crate::ranges::identifier_of;
use crate::records::Reference;
use crate::telling::{CONTENTS, cell_out, cells_of};
use bac_responder::Act;
use bac_service::{PropertyReference, Request};
use bac_store::FILE_SIZE;
use bac_value::ObjectIdentifier;
use std::alloc::Global;

/// A property as a whole, or the octets of a file.
fn whole(object: ObjectIdentifier, property: u32) -> Reference
    ensures { result ≡ plain_whole object.kind object.instance property }
{
    Reference {
        object_type: object.kind,
        instance: object.instance,
        property,
        index: u32::MAX,
    }
}

/// The number of a property. Of a file it is that of its octets, which a write of its size changes too.
fn number_of(property: Option<PropertyReference>) -> u32
    ensures { result ≡ number_told (option_map property_reference_view property) }
{
    match property {
        Some(reference) if reference.property != FILE_SIZE => reference.property,
        _ => CONTENTS,
    }
}

/// What a request writes; None of one that reads.
fn target_of(request: Request<'_>) -> Option<Reference>
    ensures { result ≡ plain_target (request_view request.entry) }
{
    if request.service().is_read() {
        return None;
    }
    Some(whole(request.object(), number_of(request.property())))
}

/// What was written by a request that was performed.
fn written_by(act: &Act) -> Option<Reference>
    ensures { result ≡ plain_written (performed_view act.now) }
{
    if is_done(&act.effect.reply) {
        target_of(act.effect.request.as_request())
    } else {
        None
    }
}

/// Whether the request that was performed wrote something, and puts out what: a property, or the octets of a file.
#[unsafe(no_mangle)]
pub extern "C" fn bac_written(alloc: Global, handle: &mut Handle, written: &mut Reference) -> bool
    ensures is { result ≡ is_some (written_in handle.old.parked.device) }
    ensures told { IsTold (λ r. r) (written_in handle.old.parked.device) written.old written.new }
    ensures same { handle.new.parked.device ≡ handle.old.parked.device }
{
    let Some(device) = handle.take(alloc) else {
        return false;
    };
    let target = match &device.outcome.effect {
        Some(act) => written_by(act),
        None => None,
    };
    handle.put(device);
    match target {
        Some(target) => {
            *written = target;
            true
        }
        None => false,
    }
}

/// How many cells a property of the node's own store has, or the octets of a file: those that the network may write have some.
#[unsafe(no_mangle)]
pub extern "C" fn bac_cells(alloc: Global, handle: &mut Handle, what: &Reference) -> usize
    ensures count { result ≡ count_in handle.old.parked.device what.now }
    ensures same { handle.new.parked.device ≡ handle.old.parked.device }
{
    let Some(device) = handle.take(alloc) else {
        return 0;
    };
    let count = match (&device.node, identifier_of(what.object_type, what.instance)) {
        (Some(node), Some(object)) => cells_of(node.store(), object, what.property),
        _ => 0,
    };
    handle.put(device);
    count
}

/// Puts the place of a cell out, and copies its octets out: how many they are, 0 where there is none at that index. Where they are more than there is room,
/// none is copied.
#[unsafe(no_mangle)]
#[tactic(auto, using(crate::proofs::Copies::none_copied))]
pub extern "C" fn bac_cell(
    alloc: Global,
    handle: &mut Handle,
    what: &Reference,
    index: usize,
    place: &mut u64,
    out: &mut [u8],
) -> usize
    ensures place { IsTold place_in (cell_in handle.old.parked.device what.now index) place.old place.new }
    ensures octets { IsCopied (octets_in (cell_in handle.old.parked.device what.now index)) out.old result out.new }
    ensures same { handle.new.parked.device ≡ handle.old.parked.device }
{
    let Some(device) = handle.take(alloc) else {
        return 0;
    };
    let len = match (&device.node, identifier_of(what.object_type, what.instance)) {
        (Some(node), Some(object)) => {
            cell_out(node.store(), object, what.property, index, place, out)
        }
        _ => 0,
    };
    handle.put(device);
    len
}
