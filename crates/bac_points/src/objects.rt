//! The objects of a device, by its object-list.
ghost use Rattle.std.specs.Prelude.{◌≡◌, ◌+◌, ◌<◌, ◌^◌, length, map, IfErr, IfOk, MatchOption};
ghost use Rattle.std.specs.Option.{option_map};
ghost use Rattle.bac_value.specs.Views.{object_identifier_view};
ghost use Rattle.bac_npdu.specs.Views.{peer_view};
ghost use Rattle.bac_service.specs.Views.{property_reference_view};
ghost use Rattle.bac_driver.specs.Runs.{timed};
ghost use Rattle.bac_text.specs.Statuses.{IsFailure};
ghost use Rattle.bac_environment.specs.Sockets.{OnPort};
ghost use Rattle.bac_points.specs.Lists.{Adds, AddsBatch, AreLacking, AsksBatch, AsksCount, FollowsCount, FollowsRead, IsCount, ReadsElements, ReadsInParts, ReadsList};
ghost use Rattle.bac_points.specs.Lists.{elements, list_of, question_of};
ghost use Rattle.bac_asking.specs.Clients.{AsksOn};

use crate::performing::Desk;
use crate::questions::{WINDOW, lines_for, question_of};
use crate::silence::{is_unknown, tell_refused};
use crate::task::ANY_DEVICE;
use bac_ask_report::Outcome;
use bac_asking::{Client, ask_on, gather, outcome_of};
use bac_driver::AskEnd;
use bac_environment::ClientSockets;
use bac_point_report::{
    ListStep, after_list, failure_lines, is_absent, is_refused, number_of, objects_of,
};
use bac_service::PropertyReference;
use bac_text::{Status, no_memory};
use bac_value::{NoMemory, ObjectIdentifier};
use std::alloc::{AllocError, Global};
use std::io::Write;
use std::slice;

/// The property object-list (clause 21).
const OBJECT_LIST: u32 = 76;

/// So many elements of a list are asked for before the next ones are.
const BATCH: u32 = 32;

/// An array has at most so many elements.
const MOST: u64 = 4_294_967_295;

/// What stands behind why the object-list of a device of any instance was not read.
const ANY_ADVICE: &[u8] =
    b"this device has no object-list that can be read; --device N asks for that of device N, and bac read TYPE:INSTANCE reads one object\n";

/// What stands behind why that of a device by its instance was not read.
const OWN_ADVICE: &[u8] =
    b"the device has no such object: leave out --device, or give its own instance; bac read TYPE:INSTANCE reads one object\n";

/// The object-list of a device, or an element of it.
fn list_of(device: ObjectIdentifier, index: Option<u32>) -> PropertyReference
    ensures { property_reference_view result ≡ list_of (object_identifier_view device) index }
{
    PropertyReference {
        object: device,
        property: OBJECT_LIST,
        index,
    }
}

/// So many elements of an object-list, behind so many.
fn elements_of(
    alloc: Global,
    device: ObjectIdentifier,
    behind: u32,
    count: u32,
) -> Result<Vec<PropertyReference>, AllocError>
    requires { behind + count < 2 ^ 32 }
    ensures { IfOk result (λ v. map property_reference_view v.items ≡ elements (object_identifier_view device) behind count) }
{
    let mut elements = Vec::new(alloc);
    for place in behind..behind + count {
        elements.push(list_of(device, Some(place + 1)))?;
    }
    Ok(elements)
}

/// What to do next where an object-list, or an element of it, was not read.
fn advice_for(device: ObjectIdentifier, outcome: Outcome<'_>) -> &'static [u8] {
    if device.instance == ANY_DEVICE {
        ANY_ADVICE
    } else if is_unknown(outcome) || is_absent(outcome) {
        OWN_ADVICE
    } else {
        b""
    }
}

/// Tells why an object-list, or an element of it, was not read.
fn tell_unlisted<M: ClientSockets, E: Write>(
    desk: &Desk<'_, M>,
    reference: PropertyReference,
    end: &AskEnd,
    err: &mut E,
) -> Result<(), Status>
    ensures { IfErr result IsFailure }
{
    if desk.tell_if_silent(slice::from_ref(end), err) {
        return Ok(());
    }
    let Ok(line) = failure_lines(desk.alloc, reference, outcome_of(end)) else {
        return Err(no_memory(err));
    };
    // if that fails too, only the status is left
    let _ = err.write_all(&line);
    if is_refused(outcome_of(end)) {
        tell_refused(slice::from_ref(end), err);
    } else {
        let _ = err.write_all(advice_for(reference.object, outcome_of(end)));
    }
    Ok(())
}

/// How the asks for properties ended, of which several are under way at once.
pub(crate) fn ends_of<M: ClientSockets, E: Write>(
    desk: &Desk<'_, M>,
    client: &mut Client<'_, M>,
    references: &[PropertyReference],
    err: &mut E,
) -> Result<Vec<AskEnd>, Status>
    ensures asked { IfOk result (λ ends. AsksBatch (OnPort M.is_bound M.Link.failures M.Link.calls) desk.now.asking.now (peer_view desk.now.peer)
        (map property_reference_view references.now) ends.items
        (timed client.old.station.bound_node (M.Timer.told client.old.station.clock))
        (timed client.new.station.bound_node (M.Timer.told client.new.station.clock))) }
    ensures failed { IfErr result IsFailure }
{
    let Ok(lines) = lines_for(desk.alloc, desk.peer, references) else {
        return Err(no_memory(err));
    };
    gather(desk.asking, WINDOW, client, &lines, err)
}

// ---- element by element

/// Adds the objects with which elements of a list were answered. Answers the first element that was not, and how the ask for it ended.
fn add_objects<'e>(
    alloc: Global,
    elements: &[PropertyReference],
    ends: &'e [AskEnd],
    objects: &mut Vec<ObjectIdentifier>,
) -> Result<Option<(PropertyReference, &'e AskEnd)>, NoMemory>
    requires { length elements.now ≡ length ends.now }
    ensures { IfOk result (λ o. MatchOption o
        (Adds (map property_reference_view elements.now) ends.now (map object_identifier_view objects.old.items) (map object_identifier_view objects.new.items))
        (λ _. AreLacking (map property_reference_view elements.now) ends.now)) }
{
    let mut elements = elements;
    let mut ends = ends;
    while let Some((element, more_elements)) = elements.split_first() {
        let Some((end, more_ends)) = ends.split_first() else {
            unreachable!();
        };
        match objects_of(alloc, *element, outcome_of(end))? {
            Some(found) => objects.extend_from_slice(&found)?,
            None => return Ok(Some((*element, end))),
        }
        elements = more_elements;
        ends = more_ends;
    }
    Ok(None)
}

/// Adds the objects of some elements of an object-list. Answers whether all came; where one did not, `err` says why.
#[tactic(auto, using(crate::proofs::Elements::as_many))]
fn add_batch<M: ClientSockets, E: Write>(
    desk: &Desk<'_, M>,
    client: &mut Client<'_, M>,
    elements: &[PropertyReference],
    objects: &mut Vec<ObjectIdentifier>,
    err: &mut E,
) -> Result<bool, Status>
    ensures added { IfOk result (λ came. AddsBatch (OnPort M.is_bound M.Link.failures M.Link.calls) desk.now.asking.now (peer_view desk.now.peer)
        (map property_reference_view elements.now) came (map object_identifier_view objects.old.items) (map object_identifier_view objects.new.items)
        (timed client.old.station.bound_node (M.Timer.told client.old.station.clock))
        (timed client.new.station.bound_node (M.Timer.told client.new.station.clock))) }
    ensures failed { IfErr result IsFailure }
{
    let ends = ends_of(desk, client, elements, err)?;
    match add_objects(desk.alloc, elements, &ends, objects) {
        Ok(None) => Ok(true),
        Ok(Some((element, end))) => {
            tell_unlisted(desk, element, end, err)?;
            Ok(false)
        }
        Err(_) => Err(no_memory(err)),
    }
}

/// The objects of an object-list that has so many elements, read element by element. None where one did not come: `err` says why.
fn objects_in_parts<M: ClientSockets, E: Write>(
    desk: &Desk<'_, M>,
    client: &mut Client<'_, M>,
    device: ObjectIdentifier,
    count: u32,
    err: &mut E,
) -> Result<Option<Vec<ObjectIdentifier>>, Status>
    ensures read { IfOk result (λ o. ReadsElements (OnPort M.is_bound M.Link.failures M.Link.calls) desk.now.asking.now (peer_view desk.now.peer)
        (object_identifier_view device) count (option_map (λ v. map object_identifier_view v.items) o)
        (timed client.old.station.bound_node (M.Timer.told client.old.station.clock))
        (timed client.new.station.bound_node (M.Timer.told client.new.station.clock))) }
    ensures failed { IfErr result IsFailure }
{
    let mut objects = Vec::new(desk.alloc);
    let mut behind = 0;
    while behind < count {
        let more = (count - behind).min(BATCH);
        let Ok(elements) = elements_of(desk.alloc, device, behind, more) else {
            return Err(no_memory(err));
        };
        let came = add_batch(desk, client, &elements, &mut objects, err)?;
        if !came {
            return Ok(None);
        }
        behind += more;
    }
    Ok(Some(objects))
}

/// The number of elements with which the read of an object-list was answered. None where it was not told: `err` says why.
fn count_answered<M: ClientSockets, E: Write>(
    desk: &Desk<'_, M>,
    reference: PropertyReference,
    end: &AskEnd,
    err: &mut E,
) -> Result<Option<u32>, Status>
    ensures count { IfOk result (λ count. IsCount (property_reference_view reference) end.now count) }
    ensures failed { IfErr result IsFailure }
{
    match number_of(desk.alloc, reference, outcome_of(end)) {
        Ok(Some(number)) => Ok(Some(number.min(MOST) as u32)),
        Ok(None) => {
            tell_unlisted(desk, reference, end, err)?;
            Ok(None)
        }
        Err(_) => Err(no_memory(err)),
    }
}

/// A client asks for an object-list, or an element of it. Answers how that ended.
fn list_asked<M: ClientSockets, E: Write>(
    desk: &Desk<'_, M>,
    client: &mut Client<'_, M>,
    reference: PropertyReference,
    err: &mut E,
) -> Result<AskEnd, Status>
    ensures asked { IfOk result (λ end. AsksOn (OnPort M.is_bound M.Link.failures M.Link.calls) desk.now.asking.now
        (question_of (peer_view desk.now.peer) (property_reference_view reference)) end
        (timed client.old.station.bound_node (M.Timer.told client.old.station.clock))
        (timed client.new.station.bound_node (M.Timer.told client.new.station.clock))) }
    ensures failed { IfErr result IsFailure }
{
    let question = question_of(desk.peer, reference);
    ask_on(desk.asking, client, &question, err)
}

/// How many elements an object-list has. None where that was not told: `err` says why.
fn count_asked<M: ClientSockets, E: Write>(
    desk: &Desk<'_, M>,
    client: &mut Client<'_, M>,
    device: ObjectIdentifier,
    err: &mut E,
) -> Result<Option<u32>, Status>
    ensures asked { IfOk result (λ count. AsksCount (OnPort M.is_bound M.Link.failures M.Link.calls) desk.now.asking.now (peer_view desk.now.peer) (object_identifier_view device) count
        (timed client.old.station.bound_node (M.Timer.told client.old.station.clock))
        (timed client.new.station.bound_node (M.Timer.told client.new.station.clock))) }
    ensures failed { IfErr result IsFailure }
{
    let reference = list_of(device, Some(0));
    let end = list_asked(desk, client, reference, err)?;
    count_answered(desk, reference, &end, err)
}

/// The objects of an object-list, whose number of elements was told or was not. None where that, or one of them, did not come: `err` says why.
fn objects_counted<M: ClientSockets, E: Write>(
    desk: &Desk<'_, M>,
    client: &mut Client<'_, M>,
    device: ObjectIdentifier,
    count: Option<u32>,
    err: &mut E,
) -> Result<Option<Vec<ObjectIdentifier>>, Status>
    ensures read { IfOk result (λ o. FollowsCount count (OnPort M.is_bound M.Link.failures M.Link.calls) desk.now.asking.now (peer_view desk.now.peer)
        (object_identifier_view device) (option_map (λ v. map object_identifier_view v.items) o)
        (timed client.old.station.bound_node (M.Timer.told client.old.station.clock))
        (timed client.new.station.bound_node (M.Timer.told client.new.station.clock))) }
    ensures failed { IfErr result IsFailure }
{
    match count {
        Some(count) => objects_in_parts(desk, client, device, count, err),
        None => Ok(None),
    }
}

/// The objects of an object-list, after its number of elements, as `objects_counted` reads them.
fn objects_by_count<M: ClientSockets, E: Write>(
    desk: &Desk<'_, M>,
    client: &mut Client<'_, M>,
    device: ObjectIdentifier,
    err: &mut E,
) -> Result<Option<Vec<ObjectIdentifier>>, Status>
    ensures read { IfOk result (λ o. ReadsInParts (OnPort M.is_bound M.Link.failures M.Link.calls) desk.now.asking.now (peer_view desk.now.peer)
        (object_identifier_view device) (option_map (λ v. map object_identifier_view v.items) o)
        (timed client.old.station.bound_node (M.Timer.told client.old.station.clock))
        (timed client.new.station.bound_node (M.Timer.told client.new.station.clock))) }
    ensures failed { IfErr result IsFailure }
{
    let count = count_asked(desk, client, device, err)?;
    objects_counted(desk, client, device, count, err)
}

// ---- the list

/// The objects of a device, where the read of its object-list ended so: those of the answer, or element by element where the list comes no other way. None where
/// they did not come: `err` says why.
fn objects_answered<M: ClientSockets, E: Write>(
    desk: &Desk<'_, M>,
    client: &mut Client<'_, M>,
    device: ObjectIdentifier,
    end: &AskEnd,
    err: &mut E,
) -> Result<Option<Vec<ObjectIdentifier>>, Status>
    ensures followed { IfOk result (λ o. FollowsRead (OnPort M.is_bound M.Link.failures M.Link.calls) desk.now.asking.now (peer_view desk.now.peer)
        (object_identifier_view device) end.now (option_map (λ v. map object_identifier_view v.items) o)
        (timed client.old.station.bound_node (M.Timer.told client.old.station.clock))
        (timed client.new.station.bound_node (M.Timer.told client.new.station.clock))) }
    ensures failed { IfErr result IsFailure }
{
    let reference = list_of(device, None);
    match after_list(desk.alloc, reference, outcome_of(end)) {
        Ok(ListStep::Objects(objects)) => Ok(Some(objects)),
        Ok(ListStep::InParts) => objects_by_count(desk, client, device, err),
        Ok(ListStep::Failed) => {
            tell_unlisted(desk, reference, end, err)?;
            Ok(None)
        }
        Err(_) => Err(no_memory(err)),
    }
}

/// The objects of a device: its object-list as a whole, or element by element where it comes no other way. None where it did not come: `err` says why.
pub(crate) fn objects_asked<M: ClientSockets, E: Write>(
    desk: &Desk<'_, M>,
    client: &mut Client<'_, M>,
    device: ObjectIdentifier,
    err: &mut E,
) -> Result<Option<Vec<ObjectIdentifier>>, Status>
    ensures read { IfOk result (λ o. ReadsList (OnPort M.is_bound M.Link.failures M.Link.calls) desk.now.asking.now (peer_view desk.now.peer)
        (object_identifier_view device) (option_map (λ v. map object_identifier_view v.items) o)
        (timed client.old.station.bound_node (M.Timer.told client.old.station.clock))
        (timed client.new.station.bound_node (M.Timer.told client.new.station.clock))) }
    ensures failed { IfErr result IsFailure }
{
    let question = question_of(desk.peer, list_of(device, None));
    let end = ask_on(desk.asking, client, &question, err)?;
    objects_answered(desk, client, device, &end, err)
}
