//! The asks of the lines of a list: those that wait, those that are under way, and how the others ended.
ghost use Rattle.std.specs.Prelude.{◌≡◌, ◌<◌, ◌↔◌, Some, count_by, length, max, slice_get, IfErr, IfOk, IfSome, IsTrue};
ghost use Rattle.std.specs.List.{position};
ghost use Rattle.bac_text.specs.Statuses.{IsFailure};
ghost use Rattle.bac_asking.specs.InFlight.{AddsFlight, EndsWaiting, IsNewSky, IsTakenUp, TakesEnd, all_noted, begins_spent, closed, closed_at, ended_in, first_patience, has_ticket, is_idle, is_of, is_on, may_begin, noted, sky, turn_noted, with_end};

use bac_commands::is_spent;
use bac_driver::{AskEnd, Turn, WaitLimit};
use bac_environment::LineQuestion;
use bac_node::Outcome;
use bac_npdu::Peer;
use bac_requester::{AskFault, Ended};
use bac_text::{Status, no_memory};
use std::alloc::{AllocError, Global};
use std::cell::Cell;
use std::collections::VecDeque;
use std::io::Write;
use std::mem;

/// What a node says to an ask.
#[derive(Clone, Copy)]
pub(crate) enum Begun {
    /// It is under way: its ticket, and how long it is waited for.
    Accepted { ticket: u64, wait_limit: WaitLimit },
    /// It is refused.
    Refused(AskFault),
}

impl Begun {
    /// Whether the node has no invoke ID or no slot left for it.
    pub(crate) fn is_spent(&self) -> bool
        ensures { result ≡ begins_spent self.now }
    {
        match self {
            Begun::Accepted { .. } => false,
            Begun::Refused(fault) => is_spent(*fault),
        }
    }
}

/// A line of a list whose ask has not begun.
#[derive(Clone, Copy)]
pub(crate) struct Waiting {
    /// Its place among the lines, counted from 0.
    pub place: usize,
    /// Whom it is asked of.
    pub peer: Peer,
}

/// The ask of a line, which is under way.
#[derive(Clone, Copy)]
pub(crate) struct Flight {
    pub line: Waiting,
    /// The number of the node that was asked.
    pub node: u64,
    /// Its ticket at that node.
    pub ticket: u64,
    /// How long it is waited for.
    pub wait_limit: WaitLimit,
}

impl Flight {
    fn is_on(&self, node: u64) -> bool
        ensures { result ≡ is_on node self.now }
    {
        self.node == node
    }

    fn has_ticket(&self, node: u64, wanted: u64) -> bool
        ensures { result ≡ has_ticket node wanted self.now }
    {
        self.node == node && self.ticket == wanted
    }

    fn is_of(&self, peer: &Peer) -> bool
        ensures { result ≡ is_of peer.now self.now }
    {
        self.line.peer == *peer
    }
}

/// The asks of the lines of a list.
#[derive(Drop)]
pub(crate) struct Flights {
    /// The lines whose asks have not begun, in order.
    waiting: VecDeque<Waiting>,
    /// In the order in which they began.
    under_way: Vec<Flight>,
    /// How the ask of each line has ended, by its place; None where it has not, or that is printed.
    ends: Vec<Option<AskEnd>>,
    /// The time of day when it ended, where that can be read, by its place.
    times: Vec<Option<u64>>,
    /// The time of day of the asks that end next.
    time: Cell<Option<u64>>,
}

/// No time for each of so many lines.
fn no_times(alloc: Global, count: usize) -> Result<Vec<Option<u64>>, AllocError> {
    let mut times = Vec::new(alloc);
    for _ in 0..count {
        times.push(None)?;
    }
    Ok(times)
}

impl Flights {
    /// Those of these lines: all wait.
    pub(crate) fn new(alloc: Global, lines: &[LineQuestion]) -> Result<Flights, AllocError>
        ensures { IfOk result (λ f. IsNewSky lines.now (sky f)) }
    {
        let times = no_times(alloc, lines.len())?;
        let mut waiting = VecDeque::new(alloc);
        let mut ends = Vec::new(alloc);
        for (place, line) in lines.iter().enumerate() {
            let peer = line.question.peer;
            waiting.push_back(Waiting { place, peer })?;
            ends.push(None)?;
        }
        Ok(Flights {
            waiting,
            under_way: Vec::new(alloc),
            ends,
            times,
            time: Cell::new(None),
        })
    }

    /// The asks that end from now on end at this time of day, in milliseconds since 1970 began in UTC.
    pub(crate) fn come_at(&self, time: Option<u64>) {
        self.time.set(time);
    }

    /// The time of day when the ask of the line at that place ended.
    pub(crate) fn time_of(&self, place: usize) -> Option<u64> {
        match self.times.get(place) {
            Some(time) => *time,
            None => None,
        }
    }

    /// Whether none is under way.
    pub(crate) fn is_empty(&self) -> bool {
        self.under_way.is_empty()
    }

    /// Whether none of that node is under way.
    pub(crate) fn is_idle(&self, node: u64) -> bool
        ensures { result ≡ is_idle node self.now.under_way.items }
    {
        self.first_patience(node).is_none()
    }

    /// Whether there are fewer than so many under way, or none.
    pub(crate) fn has_room(&self, window: u64) -> bool
        ensures { IsTrue result ↔ (length self.now.under_way.items < max window 1) }
    {
        (self.under_way.len() as u64) < window.max(1)
    }

    /// How many are under way of which that peer is asked.
    fn count_of(&self, peer: &Peer) -> usize
        ensures { result ≡ count_by (is_of peer.now) self.now.under_way.items }
    {
        self.under_way.iter().filter(|ask| ask.is_of(peer)).count()
    }

    /// Whether fewer than so many asks of its peer are under way, or none.
    fn may_begin(&self, line: &Waiting, share: u64) -> bool
        ensures { result ≡ may_begin share self.now.under_way.items line.now }
    {
        (self.count_of(&line.peer) as u64) < share.max(1)
    }

    /// The place among those that wait of the first whose ask may begin, where so many asks of a peer may be under way.
    pub(crate) fn next_to_begin(&self, share: u64) -> Option<usize>
        ensures { result ≡ position (may_begin share self.now.under_way.items) self.now.waiting.items }
    {
        self.waiting
            .iter()
            .position(|line| self.may_begin(line, share))
    }

    /// The line at that place among those that wait.
    pub(crate) fn waiting_at(&self, at: usize) -> Waiting
        requires { at < length self.now.waiting.items }
        ensures { slice_get self.now.waiting.items at ≡ Some result }
    {
        self.waiting[at]
    }

    /// The ask of that line is under way at that node. Where memory is refused, `err` and the status say so.
    fn add<E: Write>(
        &mut self,
        at: usize,
        node: u64,
        ticket: u64,
        wait_limit: WaitLimit,
        err: &mut E,
    ) -> Result<(), Status>
        requires { at < length self.old.waiting.items }
        ensures added { IfOk result (λ _. AddsFlight at node ticket wait_limit (sky self.old) (sky self.new)) }
        ensures failed { IfErr result IsFailure }
    {
        let flight = Flight {
            line: self.waiting[at],
            node,
            ticket,
            wait_limit,
        };
        if self.under_way.push(flight).is_err() {
            return Err(no_memory(err));
        }
        self.waiting.remove(at);
        Ok(())
    }

    /// Notes how the ask of the line at that place among all has ended.
    fn set_end(&mut self, place: usize, end: AskEnd)
        ensures { sky self.new ≡ with_end place end (sky self.old) }
    {
        if place < self.ends.len() {
            self.ends[place] = Some(end);
        }
        if place < self.times.len() {
            self.times[place] = self.time.get();
        }
    }

    /// The ask of that line among those that wait has ended before it began.
    fn end_waiting(&mut self, at: usize, end: AskEnd)
        requires { at < length self.old.waiting.items }
        ensures { EndsWaiting at end (sky self.old) (sky self.new) }
    {
        let place = self.waiting[at].place;
        self.waiting.remove(at);
        self.set_end(place, end);
    }

    /// The node of that number was asked to begin the ask of that line among those that wait. Where memory is refused, `err` and the status say so.
    pub(crate) fn take_up<E: Write>(
        &mut self,
        at: usize,
        node: u64,
        begun: Begun,
        err: &mut E,
    ) -> Result<(), Status>
        requires { at < length self.old.waiting.items }
        ensures taken { IfOk result (λ _. IsTakenUp at node begun (sky self.old) (sky self.new)) }
        ensures failed { IfErr result IsFailure }
    {
        match begun {
            Begun::Accepted { ticket, wait_limit } => self.add(at, node, ticket, wait_limit, err),
            Begun::Refused(fault) => {
                self.end_waiting(at, AskEnd::Refused(fault));
                Ok(())
            }
        }
    }

    /// How long the first of that node that is under way is waited for.
    pub(crate) fn first_patience(&self, node: u64) -> Option<WaitLimit>
        ensures { result ≡ first_patience node self.now.under_way.items }
    {
        let first = self.under_way.iter().find(|ask| ask.is_on(node))?;
        Some(first.wait_limit)
    }

    /// The ask at that place among those that are under way is over.
    fn close(&mut self, at: usize, end: AskEnd)
        requires { at < length self.old.under_way.items }
        ensures { sky self.new ≡ closed at end (sky self.old) }
    {
        let flight = self.under_way.remove(at);
        self.set_end(flight.line.place, end);
    }

    /// The same, where there is a place.
    fn close_at(&mut self, place: Option<usize>, end: AskEnd)
        requires { IfSome place (λ at. at < length self.old.under_way.items) }
        ensures { sky self.new ≡ closed_at place end (sky self.old) }
    {
        if let Some(at) = place {
            self.close(at, end);
        }
    }

    /// The place of the first of that node.
    fn first_on(&self, node: u64) -> Option<usize>
        ensures place { result ≡ position (is_on node) self.now.under_way.items }
        ensures within { IfSome result (λ at. at < length self.now.under_way.items) }
    {
        self.under_way.iter().position(|ask| ask.is_on(node))
    }

    /// The place of the first of that node that has that ticket.
    fn place_of(&self, node: u64, ticket: u64) -> Option<usize>
        ensures place { result ≡ position (has_ticket node ticket) self.now.under_way.items }
        ensures within { IfSome result (λ at. at < length self.now.under_way.items) }
    {
        self.under_way
            .iter()
            .position(|ask| ask.has_ticket(node, ticket))
    }

    /// Notes how a ticket of that node ended.
    fn note(&mut self, node: u64, finish: Ended)
        ensures { sky self.new ≡ noted node finish (sky self.old) }
    {
        let place = self.place_of(node, finish.ticket);
        self.close_at(place, AskEnd::Ended(finish.ending));
    }

    fn note_each(&mut self, node: u64, finishes: Vec<Ended>)
        ensures { sky self.new ≡ all_noted node finishes.items (sky self.old) }
    {
        for finish in finishes {
            self.note(node, finish);
        }
    }

    /// Notes how tickets of that node ended in a step of a turn.
    fn note_step(&mut self, node: u64, step: Option<Outcome>)
        ensures { sky self.new ≡ all_noted node (ended_in step) (sky self.old) }
    {
        if let Some(outcome) = step {
            self.note_each(node, outcome.ended);
        }
    }

    /// Notes how tickets of that node ended in a turn of it. Where there was no time left for one, its first ask is waited for no longer.
    pub(crate) fn note_turn(&mut self, node: u64, turn: Option<Turn>)
        ensures { sky self.new ≡ turn_noted node turn (sky self.old) }
    {
        match turn {
            Some(turn) => {
                self.note_step(node, turn.heard);
                self.note_step(node, turn.ticked);
            }
            None => {
                let place = self.first_on(node);
                self.close_at(place, AskEnd::NoEnding);
            }
        }
    }

    /// How the ask of the line at that place among all has ended, where it has; it is kept no longer.
    pub(crate) fn take_end(&mut self, place: usize) -> Option<AskEnd>
        ensures { TakesEnd place result (sky self.old) (sky self.new) }
    {
        if place >= self.ends.len() {
            return None;
        }
        mem::replace(&mut self.ends[place], None)
    }
}
