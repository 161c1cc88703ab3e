//! `bac points`: the objects of a device, and what each is.
ghost use Rattle.std.specs.Prelude.{◌≡◌, false, true, map, IfErr, IfOk, MatchOption};
ghost use Rattle.bac_value.specs.Views.{object_identifier_view};
ghost use Rattle.bac_npdu.specs.Views.{peer_view};
ghost use Rattle.bac_service.specs.Views.{property_reference_view};
ghost use Rattle.bac_driver.specs.Runs.{timed};
ghost use Rattle.bac_text.specs.Statuses.{IsFailure};
ghost use Rattle.bac_environment.specs.Sockets.{OnClock, OnPort};
ghost use Rattle.bac_points.specs.Points.{ListsIfHeard};
ghost use Rattle.bac_points.specs.Lists.{AsksColumns, Lists, ReadsColumns, ReadsPoints, columns, has_come, have_come};

use crate::objects::{ends_of, objects_asked};
use crate::performing::Desk;
use crate::table::Table;
use crate::task::Listing;
use bac_asking::{Client, outcome_of};
use bac_driver::AskEnd;
use bac_environment::ClientSockets;
use bac_point_report::{has_values, is_absent, point_references};
use bac_service::{AnyRequest, PropertyReference};
use bac_text::{Status, no_memory, output_failed};
use bac_value::ObjectIdentifier;
use std::alloc::{AllocError, Global};
use std::io::Write;

/// The columns of so many objects are asked for before the next ones are.
const BATCH: usize = 32;

/// What the columns of some objects are read from.
fn columns_of(
    alloc: Global,
    objects: &[ObjectIdentifier],
) -> Result<Vec<PropertyReference>, AllocError>
    ensures { IfOk result (λ v. map property_reference_view v.items ≡ columns (map object_identifier_view objects.now)) }
{
    let mut columns = Vec::new(alloc);
    for object in objects {
        columns.extend_from_slice(&point_references(*object))?;
    }
    Ok(columns)
}

/// Whether the values of a property came, or the object has no such property.
fn has_come(reference: PropertyReference, end: &AskEnd) -> bool
    ensures { result ≡ has_come (property_reference_view reference) end.now }
{
    let outcome = outcome_of(end);
    has_values(AnyRequest::ReadProperty(reference), outcome) || is_absent(outcome)
}

/// Whether those of each property did.
fn have_come(references: &[PropertyReference], ends: &[AskEnd]) -> bool
    ensures { result ≡ have_come (map property_reference_view references.now) ends.now }
{
    let mut references = references;
    let mut ends = ends;
    while let [reference, more_references @ ..] = references {
        let [end, more_ends @ ..] = ends else {
            return false;
        };
        if !has_come(*reference, end) {
            return false;
        }
        references = more_references;
        ends = more_ends;
    }
    true
}

/// What came of a batch.
#[derive(Clone, Copy)]
struct ListedBatch {
    /// Whether each property that the objects have came.
    is_whole: bool,
    /// Whether the node did not answer.
    is_silent: bool,
}

/// Asks for the columns of some objects, and prints their lines. Answers what came; where the node did not answer, `err` says so.
fn list_batch<M: ClientSockets, O: Write, E: Write>(
    desk: &Desk<'_, M>,
    client: &mut Client<'_, M>,
    objects: &[ObjectIdentifier],
    table: &mut Table,
    out: &mut O,
    err: &mut E,
) -> Result<ListedBatch, Status>
    ensures asked { IfOk result (λ l. AsksColumns (OnPort M.is_bound M.Link.failures M.Link.calls) desk.now.asking.now (peer_view desk.now.peer)
        (columns (map object_identifier_view objects.now)) l.is_whole l.is_silent
        (timed client.old.station.bound_node (M.Timer.told client.old.station.clock))
        (timed client.new.station.bound_node (M.Timer.told client.new.station.clock))) }
    ensures failed { IfErr result IsFailure }
{
    let Ok(columns) = columns_of(desk.alloc, objects) else {
        return Err(no_memory(err));
    };
    let ends = ends_of(desk, client, &columns, err)?;
    if let Err(error) = table.print(objects, &ends, out) {
        return Err(output_failed(err, &error));
    }
    Ok(ListedBatch {
        is_whole: have_come(&columns, &ends),
        is_silent: desk.tell_if_silent(&ends, err),
    })
}

/// Asks for the columns of objects, some at a time, until the node does not answer, and prints their lines. Answers whether each property that they have came.
fn list_objects<M: ClientSockets, O: Write, E: Write>(
    desk: &Desk<'_, M>,
    client: &mut Client<'_, M>,
    objects: &[ObjectIdentifier],
    table: &mut Table,
    out: &mut O,
    err: &mut E,
) -> Result<bool, Status>
    ensures read { IfOk result (λ all. ReadsColumns (OnPort M.is_bound M.Link.failures M.Link.calls) desk.now.asking.now (peer_view desk.now.peer)
        (map object_identifier_view objects.now) all
        (timed client.old.station.bound_node (M.Timer.told client.old.station.clock))
        (timed client.new.station.bound_node (M.Timer.told client.new.station.clock))) }
    ensures failed { IfErr result IsFailure }
{
    let mut rest = objects;
    let mut all = true;
    while !rest.is_empty() {
        let (batch, more) = rest.split_at(rest.len().min(BATCH));
        let listed = list_batch(desk, client, batch, table, out, err)?;
        all = all && listed.is_whole;
        if listed.is_silent {
            return Ok(all);
        }
        rest = more;
    }
    Ok(all)
}

/// Prints the table of these objects. Answers whether each property that they have came.
fn list_table<M: ClientSockets, O: Write, E: Write>(
    desk: &Desk<'_, M>,
    client: &mut Client<'_, M>,
    objects: &[ObjectIdentifier],
    is_screen: bool,
    out: &mut O,
    err: &mut E,
) -> Result<bool, Status>
    ensures read { IfOk result (λ all. ReadsColumns (OnPort M.is_bound M.Link.failures M.Link.calls) desk.now.asking.now (peer_view desk.now.peer)
        (map object_identifier_view objects.now) all
        (timed client.old.station.bound_node (M.Timer.told client.old.station.clock))
        (timed client.new.station.bound_node (M.Timer.told client.new.station.clock))) }
    ensures failed { IfErr result IsFailure }
{
    let mut table = Table::new(desk.alloc, desk.asking.records, is_screen);
    match table.begin(objects, out) {
        Ok(()) => list_objects(desk, client, objects, &mut table, out, err),
        Err(error) => Err(output_failed(err, &error)),
    }
}

/// Reads the objects of a device, and prints their table. Answers whether the list came, and each property that the objects have.
fn list_points<M: ClientSockets, O: Write, E: Write>(
    desk: &Desk<'_, M>,
    client: &mut Client<'_, M>,
    listing: Listing,
    out: &mut O,
    err: &mut E,
) -> Result<bool, Status>
    ensures read { IfOk result (λ all. ReadsPoints (OnPort M.is_bound M.Link.failures M.Link.calls) desk.now.asking.now (peer_view desk.now.peer)
        (object_identifier_view listing.device) all
        (timed client.old.station.bound_node (M.Timer.told client.old.station.clock))
        (timed client.new.station.bound_node (M.Timer.told client.new.station.clock))) }
    ensures failed { IfErr result IsFailure }
{
    match objects_asked(desk, client, listing.device, err)? {
        Some(objects) => list_table(desk, client, &objects, listing.is_screen, out, err),
        None => Ok(false),
    }
}

/// A new client does so.
fn list_by_client<M: ClientSockets, O: Write, E: Write>(
    desk: &Desk<'_, M>,
    listing: Listing,
    out: &mut O,
    err: &mut E,
) -> Result<bool, Status>
    ensures read { IfOk result (λ all. Lists (OnPort M.is_bound M.Link.failures M.Link.calls) (OnClock M.is_made M.Timer.told) desk.now.asking.now (peer_view desk.now.peer)
        (object_identifier_view listing.device) all) }
    ensures failed { IfErr result IsFailure }
{
    let mut client = desk.client(err)?;
    list_points(desk, &mut client, listing, out, err)
}

/// Prints the objects of a device, by its instance: a table with a line for each. Answers whether the list came, and each property that the objects have.
#[tactic(auto, using(crate::proofs::Hearing::unasked))]
pub(crate) fn list<M: ClientSockets, O: Write, E: Write>(
    desk: &Desk<'_, M>,
    listing: Listing,
    out: &mut O,
    err: &mut E,
) -> Result<bool, Status>
    ensures read { IfOk result (λ all. ListsIfHeard desk.now.is_unheard (OnPort M.is_bound M.Link.failures M.Link.calls) (OnClock M.is_made M.Timer.told)
        desk.now.asking.now (peer_view desk.now.peer) (object_identifier_view listing.device) all) }
    ensures failed { IfErr result IsFailure }
{
    if desk.tells_unheard(err) {
        return Ok(false);
    }
    list_by_client(desk, listing, out, err)
}
