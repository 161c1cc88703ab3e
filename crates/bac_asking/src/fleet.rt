//! The nodes of a client that asks lines several at once: the one that asks, by its number, and those that leave.
ghost use Rattle.std.specs.Prelude.{◌≡◌, ◌<◌, ◌≤◌, false, length, slice_get, Some, IfErr, IfOk, IsTrue};
ghost use Rattle.std.specs.List.{remove};
ghost use Rattle.std.specs.Option.{option_map};
ghost use Rattle.bac_text.specs.Statuses.{IsFailure};
ghost use Rattle.bac_asking.specs.Fleets.{IsTurnAt, MOST_LEAVING, NEW_FLEET, next_fleet, number_of};

use bac_commands::link_fault;
use bac_driver::{BoundNode, Clock, Link, Turn, TurnFault, WaitLimit};
use bac_npdu::LinkAddress;
use bac_text::{Status, no_memory};
use std::alloc::Global;
use std::io::Write;
use std::marker::Model;

/// So many nodes leave at once at the most.
const MOST_LEAVING: usize = 64;

/// A node that had no invoke ID or no slot left while asks of it were under way: it is asked no more, and goes on until they are over.
#[derive(Drop)]
pub(crate) struct Leaving<L: Link> {
    number: u64,
    bound_node: BoundNode<L>,
}

impl<L: Link> Model for Leaving<L> {
    ghost use Rattle.bac_asking.specs.Fleets as fleets;

    ghost Value = { fleets.Leaving };

    ghost view = { λ l. record { number = l.number; bound_node = l.bound_node } };
}

/// The number of the node that asks, counted from 0, and the nodes that leave.
#[derive(Drop)]
pub(crate) struct Fleet<L: Link> {
    number: u64,
    leaving: Vec<Leaving<L>>,
}

impl<L: Link> Model for Fleet<L> {
    ghost use Rattle.bac_asking.specs.Fleets as fleets;

    ghost Value = { fleets.Fleet };

    ghost view = { λ f. record { number = f.number; leaving = f.leaving.items } };
}

impl<L: Link> Leaving<L> {
    fn new(number: u64, bound_node: BoundNode<L>) -> Leaving<L>
        ensures { result ≡ record { number = number; bound_node = bound_node } }
    {
        Leaving { number, bound_node }
    }

    fn number(&self) -> u64
        ensures { result ≡ number_of self.now }
    {
        self.number
    }

    /// The address of its link.
    fn link(&self) -> LinkAddress {
        self.bound_node.node().link()
    }

    /// Its node.
    pub(crate) fn bound_node(&self) -> &BoundNode<L> {
        &self.bound_node
    }
}

impl<L: Link> Fleet<L> {
    /// The first node asks, and none leaves.
    pub(crate) fn new(alloc: Global) -> Fleet<L>
        ensures { result ≡ NEW_FLEET }
    {
        Fleet {
            number: 0,
            leaving: Vec::new(alloc),
        }
    }

    /// The number of the node that asks.
    pub(crate) fn number(&self) -> u64
        ensures { result ≡ self.now.number }
    {
        self.number
    }

    /// How many leave.
    pub(crate) fn len(&self) -> usize
        ensures { result ≡ length self.now.leaving }
    {
        self.leaving.len()
    }

    /// Whether the node that asks may not leave: asks of it are under way, and as many leave as may.
    pub(crate) fn is_full(&self, is_idle: bool) -> bool
        ensures busy { IsTrue result → is_idle ≡ false }
        ensures full { IsTrue result → MOST_LEAVING ≤ length self.now.leaving }
        ensures room { result ≡ false → is_idle ≡ false → length self.now.leaving < MOST_LEAVING }
    {
        !is_idle && self.leaving.len() >= MOST_LEAVING
    }

    /// Makes room for one more that leaves. Where memory is refused, `err` and the status say so.
    pub(crate) fn make_room<E: Write>(&mut self, err: &mut E) -> Result<(), Status>
        ensures same { self.new ≡ self.old }
        ensures failed { IfErr result IsFailure }
    {
        if self.leaving.reserve(1).is_err() {
            return Err(no_memory(err));
        }
        Ok(())
    }

    /// The next node asks; the one before leaves, unless none of its asks is under way. Where memory is refused, or there is no further number, `err` and the
    /// status say so.
    pub(crate) fn advance<E: Write>(
        &mut self,
        is_idle: bool,
        before: BoundNode<L>,
        err: &mut E,
    ) -> Result<(), Status>
        ensures next { IfOk result (λ _. self.new ≡ next_fleet is_idle before self.old) }
        ensures failed { IfErr result IsFailure }
    {
        let Some(next) = self.number.checked_add(1) else {
            drop(before);
            return Err(link_fault(err));
        };
        if is_idle {
            drop(before);
        } else if let Err(refused) = self.leaving.push(Leaving::new(self.number, before)) {
            drop(refused);
            return Err(no_memory(err));
        }
        self.number = next;
        Ok(())
    }

    /// The number of the node at that place among those that leave.
    pub(crate) fn number_at(&self, at: usize) -> u64
        requires { at < length self.now.leaving }
        ensures { option_map number_of (slice_get self.now.leaving at) ≡ Some result }
    {
        let leaving = &self.leaving[at];
        leaving.number()
    }

    /// The address of its link.
    pub(crate) fn link_at(&self, at: usize) -> LinkAddress
        requires { at < length self.now.leaving }
    {
        let leaving = &self.leaving[at];
        leaving.link()
    }

    /// The node itself.
    pub(crate) fn bound_node_at(&self, at: usize) -> &BoundNode<L>
        requires { at < length self.now.leaving }
    {
        let leaving = &self.leaving[at];
        leaving.bound_node()
    }

    /// It takes one turn, as [`BoundNode::turn_before`].
    pub(crate) fn turn_at<C: Clock>(
        &mut self,
        at: usize,
        clock: &mut C,
        wait_limit: &WaitLimit,
    ) -> Result<Option<Turn>, TurnFault>
        requires { at < length self.old.leaving }
        ensures taken { IfOk result (λ t. IsTurnAt at wait_limit.now t (C.told clock.old) (C.told clock.new) self.old self.new) }
    {
        let leaving = &mut self.leaving[at];
        leaving.bound_node.turn_before(clock, wait_limit)
    }

    /// It is given up.
    pub(crate) fn remove(&mut self, at: usize)
        requires { at < length self.old.leaving }
        ensures { self.new ≡ record self.old { leaving = remove self.old.leaving at } }
    {
        self.leaving.remove(at);
    }

    /// Those that leave.
    pub(crate) fn leaving(&self) -> &[Leaving<L>] {
        &self.leaving
    }
}
