//! Requests of lines, several at once: what `ask --lines --window` does.
ghost use Rattle.std.specs.Prelude.{◌≡◌, ◌<◌, length, IfErr, IfOk, IsTrue};
ghost use Rattle.bac_driver.specs.Runs.{timed};
ghost use Rattle.bac_driver.specs.Views.{question_view};
ghost use Rattle.bac_text.specs.Statuses.{IsFailure};
ghost use Rattle.bac_asking.specs.Clients.{IsRenewed};
ghost use Rattle.bac_asking.specs.Fleets.{next_fleet};
ghost use Rattle.bac_asking.specs.InFlight.{AsksAhead, BeginsAsk, BeginsNext, BeginsOn, EndsLine, Goes, IsBegun, IsNoted, IsWithin, NodesGo, TellsLine, TriesToBegin, aloft, plan_view, sky};
ghost use Rattle.bac_environment.specs.Sockets.{OnPort};

use crate::asking::Asking;
use crate::asking_lines::{both, print_unasked};
use crate::client::Client;
use crate::ends::print_line;
use crate::fleet::{Fleet, Leaving};
use crate::flights::{Begun, Flights};
use crate::peers::share_of;
use crate::recording::Printer;
use crate::rota::{IN_A_ROW, Rota};
use bac_commands::{CommandError, clock_back, link_fault};
use bac_driver::{AskEnd, Clock, Link, Question, Turn, TurnFault, WaitLimit};
use bac_environment::{ClientSockets, LineQuestion, Station};
use bac_npdu::LinkAddress;
use bac_requester::AskFault;
use bac_text::{Status, no_memory};
use std::io::Write;

/// What is asked.
#[derive(Clone, Copy)]
pub(crate) struct Plan<'a> {
    /// How it is asked.
    pub asking: &'a Asking,
    /// The lines of the list.
    pub lines: &'a [LineQuestion],
    /// So many asks are under way at the most.
    pub window: u64,
    /// So many of one peer.
    pub share: u64,
}

/// The nodes that go on, and the asks of the lines.
#[derive(Drop)]
pub(crate) struct Traffic<L: Link> {
    /// The one that asks, by its number, and those that leave.
    pub fleet: Fleet<L>,
    pub flights: Flights,
    /// Whose turn it is among them.
    pub rota: Rota,
}

/// So many milliseconds a turn waits at the most while nodes leave, since each of them is to have its turn.
const BRIEF: u64 = 5;

/// A node is asked to begin an ask, which is waited for as from a moment on.
fn begin_at<L: Link, C: Clock, E: Write>(
    asking: &Asking,
    station: &mut Station<L, C>,
    start: u64,
    question: &Question,
    err: &mut E,
) -> Result<Begun, Status>
    ensures begun { IfOk result (λ b. IsBegun asking.now.timeout start (question_view question.now) b
        (timed station.old.bound_node (C.told station.old.clock)) (timed station.new.bound_node (C.told station.new.clock))) }
    ensures failed { IfErr result IsFailure }
{
    let wait_limit = asking.wait_limit(start);
    match station.bound_node.begin_by(&mut station.clock, question) {
        Ok(ticket) => Ok(Begun::Accepted { ticket, wait_limit }),
        Err(AskFault::ClockBack) => Err(clock_back(err)),
        Err(fault) => Ok(Begun::Refused(fault)),
    }
}

/// The same as from the moment of the clock on.
fn begin<L: Link, C: Clock, E: Write>(
    asking: &Asking,
    station: &mut Station<L, C>,
    question: &Question,
    err: &mut E,
) -> Result<Begun, Status>
    ensures begun { IfOk result (λ b. BeginsAsk asking.now (question_view question.now) b
        (timed station.old.bound_node (C.told station.old.clock)) (timed station.new.bound_node (C.told station.new.clock))) }
    ensures failed { IfErr result IsFailure }
{
    let start = station.clock.now();
    begin_at(asking, station, start, question, err)
}

/// The node of a client is asked to begin an ask, where it may. None where it has asked for 30 seconds, or has nothing left for that.
fn begin_here<M: ClientSockets, E: Write>(
    asking: &Asking,
    client: &mut Client<'_, M>,
    question: &Question,
    err: &mut E,
) -> Result<Option<Begun>, Status>
    ensures begun { IfOk result (λ b. TriesToBegin asking.now (question_view question.now) b
        (timed client.old.station.bound_node (M.Timer.told client.old.station.clock))
        (timed client.new.station.bound_node (M.Timer.told client.new.station.clock))) }
    ensures failed { IfErr result IsFailure }
{
    let start = client.station.clock.now();
    if client.is_over(start) {
        return Ok(None);
    }
    let begun = begin_at(asking, &mut client.station, start, question, err)?;
    if begun.is_spent() {
        return Ok(None);
    }
    Ok(Some(begun))
}

/// The next node asks in the place of the one that may not, or has nothing left; it is to ask the node at that link. The one before leaves, where asks of it are
/// under way.
fn renew<M: ClientSockets, E: Write>(
    asking: &Asking,
    client: &mut Client<'_, M>,
    fleet: &mut Fleet<M::Link>,
    link: LinkAddress,
    is_idle: bool,
    err: &mut E,
) -> Result<(), Status>
    ensures renewed { IfOk result (λ _. IsRenewed (OnPort M.is_bound M.Link.failures M.Link.calls)
        (timed client.old.station.bound_node (M.Timer.told client.old.station.clock))
        (timed client.new.station.bound_node (M.Timer.told client.new.station.clock))) }
    ensures next { IfOk result (λ _. fleet.new ≡ next_fleet is_idle client.old.station.bound_node fleet.old) }
    ensures failed { IfErr result IsFailure }
{
    fleet.make_room(err)?;
    let before = client.renew(asking.host, link, err)?;
    fleet.advance(is_idle, before, err)
}

/// The next node of a client is asked to begin an ask in the place of the one before. None where asks of that one are under way and no further node may leave.
fn begin_at_next<M: ClientSockets, E: Write>(
    asking: &Asking,
    client: &mut Client<'_, M>,
    fleet: &mut Fleet<M::Link>,
    question: &Question,
    is_idle: bool,
    err: &mut E,
) -> Result<Option<Begun>, Status>
    ensures begun { IfOk result (λ b. BeginsNext (OnPort M.is_bound M.Link.failures M.Link.calls) asking.now (question_view question.now) is_idle b
        (timed client.old.station.bound_node (M.Timer.told client.old.station.clock))
        (timed client.new.station.bound_node (M.Timer.told client.new.station.clock)) fleet.old fleet.new) }
    ensures failed { IfErr result IsFailure }
{
    if fleet.is_full(is_idle) {
        return Ok(None);
    }
    renew(asking, client, fleet, question.peer.link, is_idle, err)?;
    let anew = begin(asking, &mut client.station, question, err)?;
    Ok(Some(anew))
}

/// A client begins an ask, at the next node where the one that asks may not, or has nothing left for it. None where asks of that one are under way and no
/// further node may leave.
fn begin_on<M: ClientSockets, E: Write>(
    asking: &Asking,
    client: &mut Client<'_, M>,
    fleet: &mut Fleet<M::Link>,
    question: &Question,
    is_idle: bool,
    err: &mut E,
) -> Result<Option<Begun>, Status>
    ensures begun { IfOk result (λ b. BeginsOn (OnPort M.is_bound M.Link.failures M.Link.calls) asking.now (question_view question.now) is_idle b
        (timed client.old.station.bound_node (M.Timer.told client.old.station.clock))
        (timed client.new.station.bound_node (M.Timer.told client.new.station.clock)) fleet.old fleet.new) }
    ensures failed { IfErr result IsFailure }
{
    let told = begin_here(asking, client, question, err)?;
    match told {
        Some(begun) => Ok(Some(begun)),
        None => begin_at_next(asking, client, fleet, question, is_idle, err),
    }
}

/// A client begins the ask of the first line that waits and may begin. False where none may.
fn begin_next<M: ClientSockets, E: Write>(
    plan: &Plan<'_>,
    client: &mut Client<'_, M>,
    traffic: &mut Traffic<M::Link>,
    err: &mut E,
) -> Result<bool, Status>
    ensures goes { IfOk result (λ _. Goes (OnPort M.is_bound M.Link.failures M.Link.calls) (plan_view plan.now)
        (aloft (timed client.old.station.bound_node (M.Timer.told client.old.station.clock)) traffic.old.fleet (sky traffic.old.flights))
        (aloft (timed client.new.station.bound_node (M.Timer.told client.new.station.clock)) traffic.new.fleet (sky traffic.new.flights))) }
    ensures failed { IfErr result IsFailure }
{
    if !traffic.flights.has_room(plan.window) {
        return Ok(false);
    }
    let Some(at) = traffic.flights.next_to_begin(plan.share) else {
        return Ok(false);
    };
    let waiting = traffic.flights.waiting_at(at);
    let Some(line) = plan.lines.get(waiting.place) else {
        return Ok(false);
    };
    let is_idle = traffic.flights.is_idle(traffic.fleet.number());
    let begun = begin_on(
        plan.asking,
        client,
        &mut traffic.fleet,
        &line.question,
        is_idle,
        err,
    )?;
    match begun {
        None => Ok(false),
        Some(begun) => {
            traffic.flights.come_at(client.time_of_day());
            traffic
                .flights
                .take_up(at, traffic.fleet.number(), begun, err)?;
            Ok(true)
        }
    }
}

/// A client begins the asks of lines that wait, as many as may be under way, and as many of one peer as may.
fn begin_more<M: ClientSockets, E: Write>(
    plan: &Plan<'_>,
    client: &mut Client<'_, M>,
    traffic: &mut Traffic<M::Link>,
    err: &mut E,
) -> Result<(), Status>
    ensures goes { IfOk result (λ _. Goes (OnPort M.is_bound M.Link.failures M.Link.calls) (plan_view plan.now)
        (aloft (timed client.old.station.bound_node (M.Timer.told client.old.station.clock)) traffic.old.fleet (sky traffic.old.flights))
        (aloft (timed client.new.station.bound_node (M.Timer.told client.new.station.clock)) traffic.new.fleet (sky traffic.new.flights))) }
    ensures failed { IfErr result IsFailure }
{
    for _ in 0..plan.window.max(1) {
        let began = begin_next(plan, client, traffic, err)?;
        if !began {
            return Ok(());
        }
    }
    Ok(())
}

/// A turn that waits at most so many milliseconds, and not past the same moment.
fn within(wait: u64, wait_limit: &WaitLimit) -> WaitLimit
    ensures { IsWithin result wait_limit.now }
{
    WaitLimit {
        wait: wait_limit.wait.min(wait),
        until: wait_limit.until,
    }
}

/// How long a turn of the node that asks waits: as long as its first ask is waited for, but only briefly while nodes leave, of which there are so many.
fn own_limit(leaving: usize, first: &WaitLimit) -> WaitLimit
    ensures within { IsWithin result first.now }
    ensures alone { leaving ≡ 0 → result ≡ first.now }
{
    if leaving == 0 {
        return *first;
    }
    within(BRIEF, first)
}

/// Whether something came of a turn, so that there may be more at once: a datagram came, or no time was left for the turn.
fn is_busy(turn: &Option<Turn>) -> bool {
    match turn {
        Some(turn) => turn.received.is_some(),
        None => true,
    }
}

/// What came of a turn of a node is noted: how tickets ended, or that no time was left for its first ask. Answers whether something did. Where the node at that
/// address could take none, `err` and the status say so.
fn note<E: Write>(
    node: u64,
    own: LinkAddress,
    turn: Result<Option<Turn>, TurnFault>,
    flights: &mut Flights,
    err: &mut E,
) -> Result<bool, Status>
    ensures noted { IfOk result (λ _. IsNoted node turn (sky flights.old) (sky flights.new)) }
    ensures failed { IfErr result IsFailure }
{
    match turn {
        Ok(turn) => {
            let is_busy = is_busy(&turn);
            flights.note_turn(node, turn);
            Ok(is_busy)
        }
        Err(fault) => Err(CommandError::from(fault).report_at(own, err)),
    }
}

/// How long a turn of a node that leaves waits. The node that asks waits in its place, where asks of that one are under way.
fn leaving_limit(is_idle: bool, first: &WaitLimit) -> WaitLimit
    ensures { IsWithin result first.now }
{
    let wait = if is_idle { BRIEF } else { 0 };
    within(wait, first)
}

/// The node at that place among those that leave takes a turn, and how tickets ended in it is noted. Where no time is left for its first ask, that is waited
/// for no longer; where none of its asks is under way, it is given up. Answers whether something came of a turn.
fn go_on_at<M: ClientSockets, E: Write>(
    client: &mut Client<'_, M>,
    traffic: &mut Traffic<M::Link>,
    at: usize,
    err: &mut E,
) -> Result<bool, Status>
    requires { at < length traffic.old.fleet.leaving }
    ensures went { IfOk result (λ _. NodesGo (OnPort M.is_bound M.Link.failures M.Link.calls)
        (aloft (timed client.old.station.bound_node (M.Timer.told client.old.station.clock)) traffic.old.fleet (sky traffic.old.flights))
        (aloft (timed client.new.station.bound_node (M.Timer.told client.new.station.clock)) traffic.new.fleet (sky traffic.new.flights))) }
    ensures stays { IfOk result (λ busy. IsTrue busy → at < length traffic.new.fleet.leaving) }
    ensures failed { IfErr result IsFailure }
{
    let node = traffic.fleet.number_at(at);
    let Some(first) = traffic.flights.first_patience(node) else {
        client.part_with(traffic.fleet.bound_node_at(at), err)?;
        traffic.fleet.remove(at);
        return Ok(false);
    };
    let is_idle = traffic.flights.is_idle(traffic.fleet.number());
    let wait_limit = leaving_limit(is_idle, &first);
    let own = traffic.fleet.link_at(at);
    let turn = traffic
        .fleet
        .turn_at(at, &mut client.station.clock, &wait_limit);
    traffic.flights.come_at(client.time_of_day());
    note(node, own, turn, &mut traffic.flights, err)
}

/// The node that asks takes a turn, and how tickets ended in it is noted. Where no time is left for its first ask, that is waited for no longer; where none of
/// its asks is under way, nothing happens. Answers whether something came of a turn.
fn go_on_here<M: ClientSockets, E: Write>(
    client: &mut Client<'_, M>,
    traffic: &mut Traffic<M::Link>,
    err: &mut E,
) -> Result<bool, Status>
    ensures went { IfOk result (λ _. NodesGo (OnPort M.is_bound M.Link.failures M.Link.calls)
        (aloft (timed client.old.station.bound_node (M.Timer.told client.old.station.clock)) traffic.old.fleet (sky traffic.old.flights))
        (aloft (timed client.new.station.bound_node (M.Timer.told client.new.station.clock)) traffic.new.fleet (sky traffic.new.flights))) }
    ensures failed { IfErr result IsFailure }
{
    let node = traffic.fleet.number();
    let Some(first) = traffic.flights.first_patience(node) else {
        return Ok(false);
    };
    let wait_limit = own_limit(traffic.fleet.len(), &first);
    let station = &mut client.station;
    let own = station.bound_node.node().link();
    let turn = station
        .bound_node
        .turn_before(&mut station.clock, &wait_limit);
    traffic.flights.come_at(client.time_of_day());
    note(node, own, turn, &mut traffic.flights, err)
}

/// The node at that place among those that leave takes turns as long as something comes of them, but at most 64 in a row.
fn visit<M: ClientSockets, E: Write>(
    client: &mut Client<'_, M>,
    traffic: &mut Traffic<M::Link>,
    at: usize,
    err: &mut E,
) -> Result<(), Status>
    requires { at < length traffic.old.fleet.leaving }
    ensures went { IfOk result (λ _. NodesGo (OnPort M.is_bound M.Link.failures M.Link.calls)
        (aloft (timed client.old.station.bound_node (M.Timer.told client.old.station.clock)) traffic.old.fleet (sky traffic.old.flights))
        (aloft (timed client.new.station.bound_node (M.Timer.told client.new.station.clock)) traffic.new.fleet (sky traffic.new.flights))) }
    ensures failed { IfErr result IsFailure }
{
    for _ in 0..IN_A_ROW {
        let is_busy = go_on_at(client, traffic, at, err)?;
        if !is_busy {
            return Ok(());
        }
    }
    Ok(())
}

/// The node that asks goes on, and then one of those that leave, where it is the turn of one.
fn take_turns<M: ClientSockets, E: Write>(
    client: &mut Client<'_, M>,
    traffic: &mut Traffic<M::Link>,
    err: &mut E,
) -> Result<(), Status>
    ensures went { IfOk result (λ _. NodesGo (OnPort M.is_bound M.Link.failures M.Link.calls)
        (aloft (timed client.old.station.bound_node (M.Timer.told client.old.station.clock)) traffic.old.fleet (sky traffic.old.flights))
        (aloft (timed client.new.station.bound_node (M.Timer.told client.new.station.clock)) traffic.new.fleet (sky traffic.new.flights))) }
    ensures failed { IfErr result IsFailure }
{
    let is_busy = go_on_here(client, traffic, err)?;
    let leaving = traffic.fleet.len();
    match traffic.rota.after(is_busy, leaving) {
        Some(at) => visit(client, traffic, at, err),
        None => Ok(()),
    }
}

/// Nodes go on. Where the next round is due while asks are under way, `err` says so.
fn go_on<M: ClientSockets, E: Write>(
    client: &mut Client<'_, M>,
    traffic: &mut Traffic<M::Link>,
    err: &mut E,
) -> Result<(), Status>
    ensures went { IfOk result (λ _. NodesGo (OnPort M.is_bound M.Link.failures M.Link.calls)
        (aloft (timed client.old.station.bound_node (M.Timer.told client.old.station.clock)) traffic.old.fleet (sky traffic.old.flights))
        (aloft (timed client.new.station.bound_node (M.Timer.told client.new.station.clock)) traffic.new.fleet (sky traffic.new.flights))) }
    ensures failed { IfErr result IsFailure }
{
    take_turns(client, traffic, err)?;
    client.tell_overdue(!traffic.flights.is_empty(), err);
    Ok(())
}

/// A client asks until the ask of the line at that place among all has ended. Answers how it did.
pub(crate) fn end_line<M: ClientSockets, E: Write>(
    plan: &Plan<'_>,
    client: &mut Client<'_, M>,
    traffic: &mut Traffic<M::Link>,
    place: usize,
    err: &mut E,
) -> Result<AskEnd, Status>
    ensures ended { IfOk result (λ how. EndsLine (OnPort M.is_bound M.Link.failures M.Link.calls) (plan_view plan.now) place how
        (aloft (timed client.old.station.bound_node (M.Timer.told client.old.station.clock)) traffic.old.fleet (sky traffic.old.flights))
        (aloft (timed client.new.station.bound_node (M.Timer.told client.new.station.clock)) traffic.new.fleet (sky traffic.new.flights))) }
    ensures failed { IfErr result IsFailure }
{
    for _ in 0..u64::MAX {
        begin_more(plan, client, traffic, err)?;
        if let Some(end) = traffic.flights.take_end(place) {
            return Ok(end);
        }
        go_on(client, traffic, err)?;
    }
    Err(link_fault(err))
}

/// Each line from that place on is printed: with how its ask ended, or that there is no link from which it could be asked.
fn print_stranded<O: Write, E: Write>(
    printer: &Printer<'_>,
    plan: &Plan<'_>,
    flights: &mut Flights,
    from: usize,
    out: &mut O,
    err: &mut E,
) {
    for (place, line) in plan.lines.iter().enumerate().skip(from) {
        let printed = match flights.take_end(place) {
            Some(end) => {
                let printer = printer.at(flights.time_of(place));
                print_line(&printer, line, &end, out, err).is_ok()
            }
            None => print_unasked(printer, line, out).is_ok(),
        };
        if !printed {
            return;
        }
    }
}

/// What is under way goes on until it has ended, or that fails.
fn end_all<M: ClientSockets, E: Write>(
    client: &mut Client<'_, M>,
    traffic: &mut Traffic<M::Link>,
    err: &mut E,
) {
    for _ in 0..u64::MAX {
        if traffic.flights.is_empty() || go_on(client, traffic, err).is_err() {
            return;
        }
    }
}

/// A client asks until the ask of the line at that place among all has ended, which is printed. Answers whether it succeeded. Where there is no link for the
/// next node, this line and all behind it are printed as they stand once what is under way has ended.
fn tell_line<M: ClientSockets, O: Write, E: Write>(
    plan: &Plan<'_>,
    client: &mut Client<'_, M>,
    traffic: &mut Traffic<M::Link>,
    place: usize,
    out: &mut O,
    err: &mut E,
) -> Result<bool, Status>
    requires { place < length plan.now.lines.now }
    ensures told { IfOk result (λ succeeded. TellsLine (OnPort M.is_bound M.Link.failures M.Link.calls) (plan_view plan.now) place succeeded
        (aloft (timed client.old.station.bound_node (M.Timer.told client.old.station.clock)) traffic.old.fleet (sky traffic.old.flights))
        (aloft (timed client.new.station.bound_node (M.Timer.told client.new.station.clock)) traffic.new.fleet (sky traffic.new.flights))
        (O.contents out.old) (O.contents out.new)) }
    ensures failed { IfErr result IsFailure }
{
    match end_line(plan, client, traffic, place, err) {
        Ok(end) => {
            let printer = Printer {
                alloc: client.station.alloc,
                asking: plan.asking,
                stamp: client.stamp_at(traffic.flights.time_of(place)),
            };
            print_line(&printer, &plan.lines[place], &end, out, err)
        }
        Err(status) => {
            if client.is_stranded {
                end_all(client, traffic, err);
                let printer = client.printer(plan.asking);
                print_stranded(&printer, plan, &mut traffic.flights, place, out, err);
            }
            Err(status)
        }
    }
}

/// The nodes that leave are given up.
pub(crate) fn part_with_all<M: ClientSockets, E: Write>(
    client: &mut Client<'_, M>,
    leaving: &[Leaving<M::Link>],
    err: &mut E,
) -> Result<(), Status>
    ensures same { client.new.station ≡ client.old.station }
    ensures failed { IfErr result IsFailure }
{
    for left in leaving {
        client.part_with(left.bound_node(), err)?;
    }
    Ok(())
}

/// A client asks what lines ask, several at once; how each ask ended is printed in the order of the lines. Answers whether all succeeded.
pub(crate) fn ask_ahead<M: ClientSockets, O: Write, E: Write>(
    asking: &Asking,
    window: u64,
    client: &mut Client<'_, M>,
    lines: &[LineQuestion],
    out: &mut O,
    err: &mut E,
) -> Result<bool, Status>
    ensures asked { IfOk result (λ all. AsksAhead (OnPort M.is_bound M.Link.failures M.Link.calls) asking.now window lines.now all
        (timed client.old.station.bound_node (M.Timer.told client.old.station.clock))
        (timed client.new.station.bound_node (M.Timer.told client.new.station.clock))
        (O.contents out.old) (O.contents out.new)) }
    ensures failed { IfErr result IsFailure }
{
    let alloc = client.station.alloc;
    let Ok(share) = share_of(alloc, window, lines) else {
        return Err(no_memory(err));
    };
    let Ok(flights) = Flights::new(alloc, lines) else {
        return Err(no_memory(err));
    };
    let plan = Plan {
        asking,
        lines,
        window,
        share,
    };
    let mut traffic = Traffic {
        fleet: Fleet::new(alloc),
        flights,
        rota: Rota::new(),
    };
    let mut all = true;
    for place in 0..lines.len() {
        let succeeded = tell_line(&plan, client, &mut traffic, place, out, err)?;
        all = both(all, succeeded);
    }
    part_with_all(client, traffic.fleet.leaving(), err)?;
    Ok(all)
}
