//! Who asks: a node at a port of its own, and once that has no invoke ID or no slot left, or has asked for 30 seconds, the next one at another port.
ghost use Rattle.std.specs.Prelude.{◌≡◌, ◌≢◌, ◌-◌, false, max, nat_le, IfErr, IfOk, IfSome};
ghost use Rattle.bac_driver.specs.Runs.{timed};
ghost use Rattle.bac_driver.specs.Views.{question_view};
ghost use Rattle.bac_environment.specs.QuestionLines.{no_line};
ghost use Rattle.bac_text.specs.Statuses.{IsFailure};
ghost use Rattle.bac_asking.specs.Clients.{IsRenewed};
ghost use Rattle.bac_asking.specs.Online.{HasLooked, IsClient, IsOneHost, LooksOnce};
ghost use Rattle.bac_asking.specs.Recording.{PrintsAsk};
ghost use Rattle.bac_environment.specs.Sockets.{OnClock, OnPort};

use crate::asking::Asking;
use crate::pace::print_overdue;
use crate::past_ports::PastPorts;
use crate::recording::{Printer, Stamp, print_ask};
use crate::sources::next_source;
use bac_commands::{bound_client, clock_unread, link_fault};
use bac_driver::{AskEnd, BoundNode, Clock, Question};
use bac_environment::{ClientSockets, EVERY_HOST, Guard, NO_LINE, NoPair, Station, print_no_link};
use bac_npdu::LinkAddress;
use bac_pairs::ClientPair;
use bac_text::{Status, no_memory};
use std::alloc::Global;
use std::io::{ErrorKind, Write};
use std::{io, mem};

/// A link of a new node, its own address, and the pair with which the node begins.
#[derive(Drop)]
struct NewLink<L> {
    link: L,
    address: LinkAddress,
    pair: ClientPair,
}

/// A link that the system refuses, and its reason.
#[derive(Drop)]
struct Unbound {
    host: [u8; 4],
    port: u16,
    error: io::Error,
}

impl Unbound {
    /// Whether another socket has the port.
    fn is_taken(&self) -> bool {
        self.error.kind() == ErrorKind::AddrInUse
    }
}

/// Why there is no link of a new node.
#[derive(Drop)]
enum NoLink {
    /// There is no port for it.
    NoPair(NoPair),
    /// The system refuses the link, or so many ports are taken: the last one. None where no port was, and each was that of the node that asks now.
    NotBound(Option<Unbound>),
}

impl NoLink {
    /// Complains of it.
    fn report<E: Write>(self, err: &mut E) -> Status
        ensures { IsFailure result }
    {
        match self {
            NoLink::NoPair(NoPair::NoClock) => clock_unread(err),
            NoLink::NoPair(NoPair::NoKey) => key_unread(err),
            NoLink::NotBound(Some(unbound)) => {
                print_no_link(unbound.host, unbound.port, &unbound.error, err)
            }
            NoLink::NotBound(None) => link_fault(err),
        }
    }
}

/// How many pairs a client tries at the most, where their ports are taken.
const MOST_TRIES: u32 = 4_096;

/// How many pairs it looks at, where it asked from their ports a short time before.
const MOST_LOOKS: u32 = 1_000;

/// So many milliseconds a node begins asks. The port of a client comes again 165 seconds after it began, when all is over that it sent in this time.
const ASKING: u64 = 30_000;

/// Prints that the key of this host cannot be read.
fn key_unread<E: Write>(err: &mut E) -> Status
    ensures { IsFailure result }
{
    let status = link_fault(err);
    // if that fails too, only the status is left
    let _ = writeln!(
        err,
        "no key: there is no boot ID in /proc, and no state folder"
    );
    status
}

/// The pair of a machine; where the client asked from its port a short time before, a later pair.
fn pair_apart<M: ClientSockets>(
    machine: &M,
    past: &PastPorts,
    now: u64,
) -> Result<ClientPair, NoPair> {
    for _ in 0..MOST_LOOKS {
        let pair = machine.pair()?;
        if !past.holds(pair.port, now) {
            return Ok(pair);
        }
        let _ = machine.outlast(pair);
    }
    machine.pair()
}

/// Whether it is the address of the node that asks now, where one does.
fn is_held(held: Option<LinkAddress>, address: LinkAddress) -> bool
    ensures { result ≡ false → IfSome held (λ own. address ≢ own) }
{
    match held {
        Some(own) => address == own,
        None => false,
    }
}

/// A link of a new node at the port of a pair; never at 0.0.0.0. None where the share of that port is over once it is bound, or the node at that address asks now.
fn bind_pair<M: ClientSockets>(
    machine: &M,
    host: [u8; 4],
    pair: ClientPair,
    held: Option<LinkAddress>,
) -> Result<Option<NewLink<M::Link>>, Unbound>
    ensures bound { IfOk result (λ found. IfSome found (λ c. M.is_bound host c.pair.port c.link c.address)) }
    ensures other { IfOk result (λ found. IfSome found (λ c. IfSome held (λ own. c.address ≢ own))) }
    ensures named { IfOk result (λ _. IsOneHost host) }
{
    if host == EVERY_HOST {
        let error = io::Error::from(ErrorKind::AddrNotAvailable);
        return Err(Unbound {
            host,
            port: pair.port,
            error,
        });
    }
    let guard = Guard::open();
    let port = pair.port;
    match machine.bind(host, port, &guard) {
        Ok(bound) => {
            let address = bound.1;
            if machine.outlast(pair) && !is_held(held, address) {
                let link = bound.0;
                Ok(Some(NewLink {
                    link,
                    address,
                    pair,
                }))
            } else {
                Ok(None)
            }
        }
        Err(error) => Err(Unbound { host, port, error }),
    }
}

/// A link of a new node at an IPv4 address of this machine, with the machine's pair. Where that port is taken, the client has left it a short time before
/// that moment, or the node at that address asks now, it is that of a later pair. Its port was bound before the port's share of time was over, and has been
/// since: so nobody else gets it in that share, whatever becomes of the client.
fn bind_apart<M: ClientSockets>(
    machine: &M,
    host: [u8; 4],
    past: &PastPorts,
    now: u64,
    held: Option<LinkAddress>,
) -> Result<NewLink<M::Link>, NoLink>
    ensures bound { IfOk result (λ c. M.is_bound host c.pair.port c.link c.address) }
    ensures other { IfOk result (λ c. IfSome held (λ own. c.address ≢ own)) }
    ensures named { IfOk result (λ _. IsOneHost host) }
{
    let mut taken = None;
    for _ in 0..MOST_TRIES {
        let pair = match pair_apart(machine, past, now) {
            Ok(pair) => pair,
            Err(none) => return Err(NoLink::NoPair(none)),
        };
        match bind_pair(machine, host, pair, held) {
            Ok(Some(bound)) => return Ok(bound),
            Ok(None) => (),
            Err(unbound) => {
                let is_taken = unbound.is_taken();
                taken = Some(unbound);
                if !is_taken {
                    break;
                }
                let _ = machine.outlast(pair);
            }
        }
    }
    Err(NoLink::NotBound(taken))
}

/// Why there is no new node: the status, and whether there was no link for it.
#[derive(Clone, Copy)]
struct NoNode {
    status: Status,
    is_stranded: bool,
}

/// What a new node is wanted for.
#[derive(Clone, Copy)]
struct Wanted {
    /// The IPv4 address of this machine from which it asks.
    host: [u8; 4],
    /// A moment not after now.
    now: u64,
    /// The address of the node that asks now, where one does.
    held: Option<LinkAddress>,
}

/// A new node at a link of its own, bound as [`bind_apart`] does. It begins at the moment of the clock once that is bound. Where there is none, `err` and the
/// status say so.
fn new_node<M: ClientSockets, E: Write>(
    alloc: Global,
    machine: &M,
    past: &PastPorts,
    wanted: Wanted,
    clock: &mut M::Timer,
    err: &mut E,
) -> Result<BoundNode<M::Link>, NoNode>
    ensures node { IfOk result (λ b. IsClient (OnPort M.is_bound M.Link.failures M.Link.calls) wanted.host (timed b (M.Timer.told clock.new))) }
    ensures apart { IfOk result (λ b. IfSome wanted.held (λ own. b.node.link ≢ own)) }
    ensures looked { IfOk result (λ _. LooksOnce (M.Timer.told clock.old) (M.Timer.told clock.new)) }
    ensures failed { IfErr result (λ none. IsFailure none.status) }
{
    let bound = match bind_apart(machine, wanted.host, past, wanted.now, wanted.held) {
        Ok(bound) => bound,
        Err(none) => {
            return Err(NoNode {
                status: none.report(err),
                is_stranded: true,
            });
        }
    };
    let first_id = bound.pair.first_id;
    let now = clock.now();
    let Ok(bound_node) = bound_client(alloc, bound.link, bound.address, now, first_id) else {
        return Err(NoNode {
            status: no_memory(err),
            is_stranded: false,
        });
    };
    Ok(bound_node)
}

/// The port of a link address (clause J.1.2).
fn port_of(address: LinkAddress) -> u16 {
    let [_, _, _, _, high, low] = address;
    u16::from_be_bytes([high, low])
}

/// A node that asks, on a machine where other nodes can follow it.
#[derive(Drop)]
pub struct Client<'m, M: ClientSockets> {
    machine: &'m M,
    /// The node that asks now, its clock and its allocator.
    pub station: Station<M::Link, M::Timer>,
    past: PastPorts,
    /// A moment before which the share of its port was not over.
    since: u64,
    /// Whether no link could be bound for the next node.
    pub(crate) is_stranded: bool,
    /// How many rounds have begun.
    pub(crate) rounds: u64,
    /// When the next round is due; None where none follows, or it is said already that the pace is not kept.
    pub(crate) due: Option<u64>,
}

impl<'m, M: ClientSockets> Client<'m, M> {
    /// A client that has asked nothing, at an IPv4 address of this machine, with the machine's pair of port and invoke ID.
    ///
    /// If there is no link or clock for it, or an allocation fails, prints why on `err`, and returns the status.
    pub fn new<E: Write>(
        alloc: Global,
        machine: &'m M,
        host: [u8; 4],
        err: &mut E,
    ) -> Result<Client<'m, M>, Status>
        ensures node { IfOk result (λ c. IsClient (OnPort M.is_bound M.Link.failures M.Link.calls) host
            (timed c.station.bound_node (M.Timer.told c.station.clock))) }
        ensures clock { IfOk result (λ c. HasLooked (OnClock M.is_made M.Timer.told) (M.Timer.told c.station.clock)) }
        ensures failed { IfErr result IsFailure }
    {
        // it begins at 0, before the share of the port is over
        let Some(mut clock) = machine.timer() else {
            return Err(clock_unread(err));
        };
        let past = PastPorts::new(alloc);
        let wanted = Wanted {
            host,
            now: 0,
            held: None,
        };
        let bound_node = match new_node(alloc, machine, &past, wanted, &mut clock, err) {
            Ok(bound_node) => bound_node,
            Err(none) => return Err(none.status),
        };
        let station = Station {
            alloc,
            bound_node,
            clock,
        };
        Ok(Client {
            machine,
            station,
            past,
            since: 0,
            is_stranded: false,
            rounds: 0,
            due: None,
        })
    }

    /// Where a round goes on, and the next one is late already, `err` says so, once.
    pub(crate) fn tell_overdue<E: Write>(&mut self, goes_on: bool, err: &mut E)
        ensures same { self.new.station ≡ self.old.station }
    {
        let Some(due) = self.due else {
            return;
        };
        let latest = self.station.bound_node.node().latest();
        if goes_on && latest > due {
            print_overdue(self.rounds, latest.saturating_sub(due), err);
            self.due = None;
        }
    }

    /// How the ends of asks are printed now.
    pub(crate) fn printer<'a>(&self, asking: &'a Asking) -> Printer<'a>
        ensures { result.asking.now ≡ asking.now }
    {
        Printer {
            alloc: self.station.alloc,
            asking,
            stamp: self.stamp_at(self.time_of_day()),
        }
    }

    /// Prints how an ask ended, as `bac ask` does. Returns whether it succeeded.
    ///
    /// If that fails, prints why on `err`, and returns the status.
    pub fn print_end<O: Write, E: Write>(
        &self,
        asking: &Asking,
        question: &Question,
        end: &AskEnd,
        out: &mut O,
        err: &mut E,
    ) -> Result<bool, Status>
        ensures told { IfOk result (λ succeeded. PrintsAsk asking.now.records asking.now.output_format no_line (question_view question.now) end.now succeeded
            (O.contents out.old) (O.contents out.new)) }
        ensures failed { IfErr result IsFailure }
    {
        print_ask(&self.printer(asking), NO_LINE, question, end, out, err)
    }

    /// What the end of an ask is stamped with that came at a time of day.
    pub(crate) fn stamp_at(&self, time: Option<u64>) -> Stamp {
        let round = if self.rounds == 0 {
            None
        } else {
            Some(self.rounds)
        };
        Stamp { time, round }
    }

    /// The time of day, in milliseconds since 1970 began in UTC; None where it cannot be read.
    pub(crate) fn time_of_day(&self) -> Option<u64> {
        self.machine.time_of_day()
    }

    /// Whether the node that asks may begin no ask at a moment, since it has asked for 30 seconds.
    pub(crate) fn is_over(&self, moment: u64) -> bool
        ensures { result ≡ nat_le 30000 (moment - self.now.since) }
    {
        moment.saturating_sub(self.since) >= ASKING
    }

    /// The next node, on a link of its own at another port, asks in the place of the one before, which asked from that address; it is to ask the node at that link.
    /// Answers the one before. Where there is no next one, `err` and the status say so, and nothing has changed but whether it is stranded.
    pub(crate) fn renew<E: Write>(
        &mut self,
        host: [u8; 4],
        link: LinkAddress,
        err: &mut E,
    ) -> Result<BoundNode<M::Link>, Status>
        ensures renewed { IfOk result (λ _. IsRenewed (OnPort M.is_bound M.Link.failures M.Link.calls)
            (timed self.old.station.bound_node (M.Timer.told self.old.station.clock))
            (timed self.new.station.bound_node (M.Timer.told self.new.station.clock))) }
        ensures before { IfOk result (λ before. before ≡ self.old.station.bound_node) }
        ensures since { IfOk result (λ _. self.new.since ≡ max self.old.since self.old.station.bound_node.node.latest) }
        ensures failed { IfErr result IsFailure }
    {
        let alloc = self.station.alloc;
        let node = self.station.bound_node.node();
        let now = node.latest();
        let own = node.link();
        let wanted = Wanted {
            host: next_source(self.machine, host, link),
            now,
            held: Some(own),
        };
        let clock = &mut self.station.clock;
        let bound_node = match new_node(alloc, self.machine, &self.past, wanted, clock, err) {
            Ok(bound_node) => bound_node,
            Err(none) => {
                self.is_stranded = none.is_stranded;
                return Err(none.status);
            }
        };
        if self.past.leave(port_of(own), now).is_err() {
            drop(bound_node);
            return Err(no_memory(err));
        }
        self.since = self.since.max(now);
        Ok(mem::replace(&mut self.station.bound_node, bound_node))
    }

    /// The same; the node before is given up.
    pub(crate) fn replace<E: Write>(
        &mut self,
        host: [u8; 4],
        link: LinkAddress,
        err: &mut E,
    ) -> Result<(), Status>
        ensures renewed { IfOk result (λ _. IsRenewed (OnPort M.is_bound M.Link.failures M.Link.calls)
            (timed self.old.station.bound_node (M.Timer.told self.old.station.clock))
            (timed self.new.station.bound_node (M.Timer.told self.new.station.clock))) }
        ensures failed { IfErr result IsFailure }
    {
        match self.renew(host, link, err) {
            Ok(before) => {
                drop(before);
                Ok(())
            }
            Err(status) => Err(status),
        }
    }

    /// A node that asked before is given up: the client does not ask from its port for as long as a request from there may be remembered. Where memory is
    /// refused, `err` and the status say so.
    pub(crate) fn part_with<E: Write>(
        &mut self,
        bound_node: &BoundNode<M::Link>,
        err: &mut E,
    ) -> Result<(), Status>
        ensures same { self.new.station ≡ self.old.station }
        ensures failed { IfErr result IsFailure }
    {
        let node = bound_node.node();
        let port = port_of(node.link());
        if self.past.leave(port, node.latest()).is_err() {
            return Err(no_memory(err));
        }
        Ok(())
    }
}
