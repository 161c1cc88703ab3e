//! A node with a store on a link of the machine: what `serve` does.
ghost use Rattle.std.specs.Prelude.{◌≡◌, false, IfErr, IfOk};
ghost use Rattle.bac_node.specs.Fresh.{large_slots_fit};
ghost use Rattle.bac_driver.specs.Runs.{timed};
ghost use Rattle.bac_text.specs.Statuses.{IsStop};
ghost use Rattle.bac_commands.specs.Statuses.{ByStatus};
ghost use Rattle.bac_serving.specs.Online.{IsServedBy, IsServer};
ghost use Rattle.bac_environment.specs.Sockets.{OnClock, OnPort};

use crate::dropping::Dropping;
use crate::serving::{Serving, Start, epoch_of, print_listening, print_not_bound, serve_from};
use bac_commands::{bound_server, clock_unread};
use bac_driver::Clock;
use bac_environment::{Sockets, StandardError, Station};
use bac_node::NewNodeFault;
use bac_store::Store;
use bac_text::{Status, complain, no_memory};
use std::alloc::Global;
use std::io::Write;

/// A node with a store on its link, and when it begins. An Err is `CommandLine` only where there can't be so many slots.
pub(crate) fn station_of<M: Sockets, E: Write>(
    alloc: Global,
    machine: &M,
    serving: &Serving,
    store: Store,
    err: &mut E,
) -> Result<(Station<M::Link, M::Timer>, Start), Status>
    ensures server { IfOk result (λ r. IsServer (OnPort M.is_bound M.Link.failures M.Link.calls) (OnClock M.is_made M.Timer.told) serving.now store r.1.moment
        (timed r.0.bound_node (M.Timer.told r.0.clock))) }
    ensures refused { IfErr result (λ s. ByStatus s ⊥ ⊥ (large_slots_fit serving.now.slots ≡ false)) }
    ensures told { IfErr result IsStop }
{
    let (link, address) = match machine.bind(serving.host, serving.port, &serving.guard) {
        Ok(bound) => bound,
        Err(error) => return Err(print_not_bound(serving, &error, err)),
    };
    let Some(mut clock) = machine.timer() else {
        return Err(clock_unread(err));
    };
    let start = clock.now();
    let objects = store.object_count();
    let restart = serving.restart(start);
    let bound = bound_server(alloc, link, address, store, serving.slots, restart);
    let mut bound_node = match bound {
        Ok(bound_node) => bound_node,
        Err(NewNodeFault::BadSlots) => {
            return Err(complain(err, "bad slots", Status::CommandLine));
        }
        Err(_) => return Err(no_memory(err)),
    };
    serving.set(&mut bound_node);
    let began = Start {
        moment: start,
        epoch: epoch_of(start, machine.time_of_day()),
    };
    print_listening(alloc, serving, address, objects, began, err);
    let station = Station {
        alloc,
        bound_node,
        clock,
    };
    Ok((station, began))
}

/// A node with a store serves.
pub(crate) fn serve<M: Sockets + StandardError, O: Write, E: Write>(
    alloc: Global,
    machine: &M,
    store: Store,
    serving: &Serving,
    out: &mut O,
    err: &mut E,
) -> Status
    ensures { IsServedBy store (OnPort M.is_bound M.Link.failures M.Link.calls) (OnClock M.is_made M.Timer.told) result serving.now
        (O.contents out.old) (O.contents out.new) }
{
    let (mut station, began) = match station_of(alloc, machine, serving, store, err) {
        Ok(made) => made,
        Err(status) => return status,
    };
    let format = serving.log_format(began);
    // from here on standard error must not make the server wait
    let mut err = Dropping::new(alloc, machine, machine.timer(), format, err);
    let status = serve_from(serving, began, &mut station, out, &mut err);
    err.end();
    drop(station);
    status
}
