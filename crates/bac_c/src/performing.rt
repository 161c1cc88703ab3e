//! The request that was performed, so that a C program acts on it.
ghost use Rattle.std.specs.Prelude.{◌≡◌};
ghost use Rattle.bac_node.specs.Views.{performed_view};
ghost use Rattle.bac_service.specs.Views.{priority_view, owned_reply_view, property_reference_view, request_view};
ghost use Rattle.bac_value.specs.Views.{object_identifier_view};
ghost use Rattle.bac_c.specs.Performing.{is_done, nothing_performed, octets_written, of_file as plain_file, of_property as plain_property, performed_told, priority_told, request_told, start_told, TellsAct};
ghost use Rattle.bac_c.specs.Results.{IsCopied};

use crate::copying::copy_out;
use crate::handle::Handle;
use crate::records::Performed;
use bac_responder::Act;
use bac_service::{AnyReply, OwnedReply, Priority, PropertyReference, Request};
use bac_value::ObjectIdentifier;
use std::alloc::Global;

/// No request was performed.
fn nothing() -> Performed
    ensures { result ≡ nothing_performed }
{
    Performed {
        link: [0, 0, 0, 0, 0, 0],
        service: 0,
        done: false,
        object_type: 0,
        priority: 0,
        instance: 0,
        property: 0,
        index: 0,
        position: 0,
    }
}

/// The number of a priority; 0 where there is none.
fn level(priority: &Option<Priority>) -> u8
    ensures { result ≡ priority_told (priority_view priority.now) }
{
    match priority {
        Some(priority) => priority.number,
        None => 0,
    }
}

fn of_property(
    service: u8,
    link: [u8; 6],
    done: bool,
    reference: &PropertyReference,
    priority: u8,
) -> Performed
    ensures { result ≡ plain_property service link done (property_reference_view reference.now) priority }
{
    Performed {
        link,
        service,
        done,
        object_type: reference.object.kind,
        priority,
        instance: reference.object.instance,
        property: reference.property,
        index: reference.index.unwrap_or(u32::MAX),
        position: 0,
    }
}

fn of_file(
    service: u8,
    link: [u8; 6],
    done: bool,
    file: &ObjectIdentifier,
    position: i64,
) -> Performed
    ensures { result ≡ plain_file service link done (object_identifier_view file.now) position }
{
    Performed {
        link,
        service,
        done,
        object_type: file.kind,
        priority: 0,
        instance: file.instance,
        property: 0,
        index: 0,
        position,
    }
}

/// Whether a reply is none that says that nothing was done.
pub(crate) fn is_done(reply: &OwnedReply) -> bool
    ensures { result ≡ is_done (owned_reply_view reply.now) }
{
    match reply {
        AnyReply::Simple => true,
        AnyReply::Complex(_) => true,
        AnyReply::Error { .. } => false,
        AnyReply::Reject(_) => true,
    }
}

/// Where a file is read or written; 0 of a property.
fn position_of(start: Option<i64>) -> i64
    ensures { result ≡ start_told start }
{
    match start {
        Some(start) => start,
        None => 0,
    }
}

fn told(link: [u8; 6], done: bool, request: Request<'_>) -> Performed
    ensures { result ≡ request_told link done (request_view request.entry) }
{
    let service = request.choice();
    match request.property() {
        Some(reference) => of_property(service, link, done, &reference, level(&request.priority())),
        None => of_file(
            service,
            link,
            done,
            &request.object(),
            position_of(request.start()),
        ),
    }
}

/// What a C program is told of a request that was performed.
fn performed_of(act: &Act) -> Performed
    ensures { result ≡ performed_told (performed_view act.now) }
{
    let done = is_done(&act.effect.reply);
    told(act.key.peer.link, done, act.effect.request.as_request())
}

/// Puts out the request that was performed, if one was, and copies the octets that it wrote out: how many they are. Where they are more than there is room,
/// none is copied.
#[unsafe(no_mangle)]
#[tactic(auto, using(crate::proofs::Copies::none_copied))]
pub extern "C" fn bac_performed(
    alloc: Global,
    handle: &mut Handle,
    performed: &mut Performed,
    out: &mut [u8],
) -> usize
    ensures told { TellsAct handle.old.parked.device performed.new }
    ensures octets { IsCopied (octets_written handle.old.parked.device) out.old result out.new }
    ensures same { handle.new.parked.device ≡ handle.old.parked.device }
{
    let Some(device) = handle.take(alloc) else {
        *performed = nothing();
        return 0;
    };
    let len = match &device.outcome.effect {
        Some(act) => {
            *performed = performed_of(act);
            copy_out(act.effect.request.as_request().octets(), out)
        }
        None => {
            *performed = nothing();
            0
        }
    };
    handle.put(device);
    len
}
