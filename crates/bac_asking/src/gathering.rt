//! Requests of lines, several at once, of which nothing is printed.
ghost use Rattle.std.specs.Prelude.{IfErr, IfOk};
ghost use Rattle.bac_driver.specs.Runs.{timed};
ghost use Rattle.bac_text.specs.Statuses.{IsFailure};
ghost use Rattle.bac_asking.specs.Gathering.{EndsAll, Gathers};
ghost use Rattle.bac_asking.specs.InFlight.{aloft, plan_view, sky};
ghost use Rattle.bac_environment.specs.Sockets.{OnPort};

use crate::asking::Asking;
use crate::client::Client;
use crate::fleet::Fleet;
use crate::flights::Flights;
use crate::peers::share_of;
use crate::rota::Rota;
use crate::window::{Plan, Traffic, end_line, part_with_all};
use bac_driver::AskEnd;
use bac_environment::{ClientSockets, LineQuestion};
use bac_text::{Status, no_memory};
use std::io::Write;

/// A client asks until the ask of each line has ended. Answers how they did, in the order of the lines.
fn end_all_lines<M: ClientSockets, E: Write>(
    plan: &Plan<'_>,
    client: &mut Client<'_, M>,
    traffic: &mut Traffic<M::Link>,
    err: &mut E,
) -> Result<Vec<AskEnd>, Status>
    ensures ended { IfOk result (λ ends. EndsAll (OnPort M.is_bound M.Link.failures M.Link.calls) (plan_view plan.now) ends.items
        (aloft (timed client.old.station.bound_node (M.Timer.told client.old.station.clock)) traffic.old.fleet (sky traffic.old.flights))
        (aloft (timed client.new.station.bound_node (M.Timer.told client.new.station.clock)) traffic.new.fleet (sky traffic.new.flights))) }
    ensures failed { IfErr result IsFailure }
{
    let mut ends = Vec::new(client.station.alloc);
    for place in 0..plan.lines.len() {
        let end = end_line(plan, client, traffic, place, err)?;
        if ends.push(end).is_err() {
            return Err(no_memory(err));
        }
    }
    Ok(ends)
}

/// A client asks what lines ask, so many at once. Returns how each ask ended, in the order of the lines; nothing of that is printed.
///
/// If the link, the clock or an allocation fails, prints why on `err`, and returns the status.
pub fn gather<M: ClientSockets, E: Write>(
    asking: &Asking,
    window: u64,
    client: &mut Client<'_, M>,
    lines: &[LineQuestion],
    err: &mut E,
) -> Result<Vec<AskEnd>, Status>
    ensures gathered { IfOk result (λ ends. Gathers (OnPort M.is_bound M.Link.failures M.Link.calls) asking.now window lines.now ends.items
        (timed client.old.station.bound_node (M.Timer.told client.old.station.clock))
        (timed client.new.station.bound_node (M.Timer.told client.new.station.clock))) }
    ensures failed { IfErr result IsFailure }
{
    let alloc = client.station.alloc;
    let Ok(share) = share_of(alloc, window, lines) else {
        return Err(no_memory(err));
    };
    let Ok(flights) = Flights::new(alloc, lines) else {
        return Err(no_memory(err));
    };
    let plan = Plan {
        asking,
        lines,
        window,
        share,
    };
    let mut traffic = Traffic {
        fleet: Fleet::new(alloc),
        flights,
        rota: Rota::new(),
    };
    let ends = end_all_lines(&plan, client, &mut traffic, err)?;
    part_with_all(client, traffic.fleet.leaving(), err)?;
    Ok(ends)
}
