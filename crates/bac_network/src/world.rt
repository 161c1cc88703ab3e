//! A world.
ghost use Rattle.std.specs.Prelude.{◌≤◌, ◌≡◌, ◌↔◌, IsTrue, IfErr, IfOk, OnErr, OnOk, MatchOption, None, Some, map, take};
ghost use Rattle.bac_world.specs.World.{stores_of};
ghost use Rattle.bac_journal.specs.Clocks.{parts_of};
ghost use Rattle.bac_journal.specs.Notes.{notes_view};
ghost use Rattle.bac_journal.specs.Views.{copy_view};
ghost use Rattle.bac_network.specs.Histories.{HasHistorySo, HasNoReuse, as_world};
ghost use Rattle.bac_network.specs.Laws.{HasRightLog, IsStrict};
ghost use Rattle.bac_network.specs.Runs.{KeepsSettings, RunsStrictly, RunsTo, StepsStrictly, StepsTo, StopsAtSo, TellsIn, TellsWhyNot, events_in};
ghost use Rattle.bac_network.specs.Views.{instant_after, instant_after_all, log_view};

use crate::are_alike;
use crate::event::Event;
use crate::fact::Fact;
use crate::fault::{RunFault, WorldFault};
use crate::network::Network;
use bac_journal::{Copy, Note};
use bac_node::Node;
use bac_requester::AskFault;
use bac_store::Store;
use std::alloc::Global;
use std::marker::Model;

/// Nodes in one simulated network, with one clock or clocks of their own. Beside them are the copies of the datagrams that they sent, and a log of
/// what was asked, performed and answered.
///
/// Whatever events happen, every accepted ask takes effect at most once, and exactly once where a service answer reached its client. The request
/// performed and the answer are its own, whole. Each store is that of its node's last start, after what was performed and changed there since, in the
/// log's order. A restart keeps the store, or the log has the new one. Strangers, peers at links of no node, may send any octets and be asked; the
/// log has what they had performed.
///
/// All nodes are strict, but for those that `with_rules` says let clients use an invoke ID again as soon as its transaction is over. Such a node may
/// perform a read more than once; its client gets the reply to one of these.
#[derive(Drop)]
pub struct World {
    pub(crate) alloc: Global,
    pub(crate) overtake: u8,
    pub(crate) window: u8,
    pub(crate) opening: Vec<Store>,
    pub(crate) reuses: Vec<bool>,
    pub(crate) network: Network,
}

impl Model for World {
    ghost use Rattle.bac_network.specs.Histories.{WorldView, IsKept, view_of};

    ghost Value = { WorldView };

    ghost view = { λ w. view_of w.overtake w.opening.items w.reuses.items w.network };

    ghost invariant = { λ w. IsKept w.window w.network.journal.links (view_of w.overtake w.opening.items w.reuses.items w.network) };
}

impl World {
    /// How many later copies of its transaction may overtake a copy that is delivered; a copy that more have overtaken is lost.
    pub fn overtake(&self) -> u8
        ensures { result ≡ self.now.overtake }
    {
        self.overtake
    }

    /// The nodes, numbered from 0.
    pub fn nodes(&self) -> &[Node]
        ensures { result.now ≡ self.now.nodes }
    {
        &self.network.nodes
    }

    /// The store of a node, or None where the world has no node of that number.
    pub fn store(&self, node: usize) -> Option<&Store>
        ensures { MatchOption result (stores_of self.now.nodes node ≡ None) (λ s. stores_of self.now.nodes node ≡ Some s.now) }
    {
        match self.network.nodes.get(node) {
            Some(node) => Some(node.store()),
            None => None,
        }
    }

    /// The stores that the nodes had when the world was made, in the nodes' order. They never change.
    pub fn opening(&self) -> &[Store]
        ensures { result.now ≡ self.now.opening }
    {
        &self.opening
    }

    /// Whether each node lets clients use an invoke ID again as soon as its transaction is over, by the nodes' numbers; one after the list's end does
    /// not. It never changes.
    pub fn reuses(&self) -> &[bool]
        ensures { result.now ≡ self.now.reuses }
    {
        &self.reuses
    }

    /// The present moment, in milliseconds since the world was made; where nodes have clocks of their own in millionths of one.
    pub fn now(&self) -> u64
        ensures { result ≡ self.now.time.moment }
    {
        self.network.journal.now()
    }

    /// How long a copy may be under way after its sending; after that it is lost. It is counted as `now` is.
    pub fn life(&self) -> u64
        ensures { result ≡ (as_world self.now).time.pace.life }
    {
        self.network.journal.life()
    }

    /// How many parts of a moment are a millisecond: 1, and 1,000,000 where nodes have clocks of their own.
    pub fn parts(&self) -> u64
        ensures is { result ≡ parts_of self.now.time.own }
        ensures some { 1 ≤ result }
    {
        self.network.journal.parts()
    }

    /// The log, oldest first; contracts see the newest fact first.
    pub fn log(&self) -> &[Fact]
        ensures { log_view result.now ≡ self.now.log }
    {
        &self.network.log
    }

    /// The copies of the datagrams that nodes sent, oldest first; they are numbered from 0.
    pub fn copies(&self) -> &[Copy]
        ensures { map copy_view result.now ≡ self.now.copies }
    {
        self.network.journal.copies()
    }

    /// The transaction and the ticket of each accepted ask, in the order of the asks' numbers, which begin at 0; contracts see the newest first.
    pub fn asks(&self) -> &[Note]
        ensures { notes_view result.now ≡ self.now.notes }
    {
        self.network.journal.notes()
    }

    /// A law of every world; the call does nothing. A run of a fresh world with the opening stores led to this one (`history`), and its log is right
    /// (`log`). By it every accepted ask was performed at most once, but for a read at a node that lets invoke IDs be used again (`once`). Every ask
    /// ended at most once, and was answered with a reply with which it was performed (`ended`). Each change that a node made in its own store had no
    /// fault for it as it then was (`permitted`). Performed requests, changes and restarts alone changed the stores (`stores`). Each peer that the log
    /// has as a stranger is at a link of no node (`strangers`).
    ///
    /// The rest is of worlds in which no node lets invoke IDs be used again (`without_reuse`). Every accepted ask was performed at most once, as it was
    /// asked, with the reply of its server's store as it then was (`log`). Where no node changed its own store or restarted, performed requests alone
    /// changed the stores (`requests_alone`). Where there is nothing of strangers, all of this holds of nodes alone (`among_nodes`). Where both is so,
    /// asks of nodes, performed requests and endings alone are in the log, which is right with the stores (`asks_alone`). What a node performed for one
    /// stranger under one invoke ID, between two of its restarts, is of several entries. They began more than 65,000 ms apart, by the node's clock
    /// (`apart`).
    pub fn is_once(&self)
        ensures history { HasHistorySo self.now }
        ensures log { HasRightLog self.now }
        ensures without_reuse { HasNoReuse self.now → IsStrict self.now }
    {
        // all of it follows from the invariant of the fields
        let _network = &self.network;
    }

    /// Makes an event happen. Returns the fault of an ask that was refused, which changes nothing, and otherwise None.
    ///
    /// The errors, after each of which the world is as before:
    /// - `NoSuchNode` exactly where the world has no node that the event names;
    /// - `NoSuchDatagram` exactly where it has no copy of that number;
    /// - `ClockEnd` exactly where the moment would pass 64 bits;
    /// - `BadChange` exactly where a change of a node's own store has that fault;
    /// - `NodeLink` exactly where the node of a stranger's event is there and the stranger's link is a node's;
    /// - `TooSoon` exactly where a node is there and may not begin now;
    /// - after these `NoMemory` where an allocation fails: never for noise, for a copy that is not deliverable, or for the clock.
    ///
    /// What is promised of worlds in which no node lets invoke IDs be used again is as for `is_once` (`without_reuse`).
    pub fn step(&mut self, event: &Event) -> Result<Option<AskFault>, WorldFault>
        ensures went { OnOk result (StepsTo self.old event.now self.new) }
        ensures told { IfOk result (λ told. TellsIn told self.old event.now self.new) }
        ensures faults { TellsWhyNot result self.old event.now }
        ensures passed { OnOk result (self.new.time ≡ instant_after event.now self.old.time) }
        ensures err { OnErr result (self.new ≡ self.old) }
        ensures settings { KeepsSettings self.old self.new }
        ensures log { HasRightLog self.new }
        ensures without_reuse { HasNoReuse self.old → StepsStrictly result self.old event.now self.new }
    {
        self.network.step(self.alloc, self.overtake, self.window, &self.reuses, event)
    }

    /// Makes events happen in their order, up to the first that fails, whose place and fault it returns; the events before it have happened.
    ///
    /// For every list of asks, deliveries, losses, repeats, reorderings, noise, ticks and clock steps (`requests_alone`), every accepted ask takes
    /// effect at most once. It takes effect exactly once where a service answer reached its client. The request performed and the answer are its own,
    /// whole. Each server's store is its opening store after the performed requests in their order. With changes and restarts of nodes too, the log
    /// is right with the stores (`log`). Strangers may send any octets and be asked in all of these: what they had performed is in the log, in its
    /// place, and counts as performed. The log has no peer at a node's link as a stranger (`strangers`). The time is what the events that happened
    /// made of it (`passed`). Where there is nothing of strangers, no change and no restart, the log has asks, performed requests and endings alone, and
    /// is right with the stores (`asks_alone`). All but `log` is of worlds in which no node lets invoke IDs be used again (`without_reuse`); where nodes
    /// do, these may perform a read more than once.
    pub fn run(&mut self, events: &[Event]) -> Result<(), RunFault>
        ensures went { OnOk result (RunsTo self.old events.now self.new) }
        ensures stopped { IfErr result (λ f. StopsAtSo f self.old (events_in self.old events.now) self.new) }
        ensures passed { OnOk result (self.new.time ≡ instant_after_all events.now self.old.time) }
        ensures passed_before { IfErr result (λ f. self.new.time ≡ instant_after_all (take f.place events.now) self.old.time) }
        ensures settings { KeepsSettings self.old self.new }
        ensures log { HasRightLog self.new }
        ensures without_reuse { HasNoReuse self.old → RunsStrictly result self.old events.now self.new }
    {
        // the law of every world, here and where the run ends
        self.is_once();
        for (place, event) in events.iter().enumerate() {
            if let Err(fault) = self.step(event) {
                return Err(RunFault { place, fault });
            }
        }
        self.is_once();
        Ok(())
    }

    /// Whether two worlds are the same. That is so if they have the same limit of overtaking, opening stores, rules, nodes with their stores and clocks,
    /// moment, log, copies and notes of asks. It takes no memory.
    pub fn same(&self, other: &World) -> bool
        ensures { IsTrue result ↔ (self.now ≡ other.now) }
    {
        if self.overtake != other.overtake {
            return false;
        }
        if !are_alike(&self.opening, &other.opening) {
            return false;
        }
        if !are_alike(&self.reuses, &other.reuses) {
            return false;
        }
        if !are_alike(&self.network.nodes, &other.network.nodes) {
            return false;
        }
        if !are_alike(&self.network.log, &other.network.log) {
            return false;
        }
        self.network.journal.same(&other.network.journal)
    }
}
