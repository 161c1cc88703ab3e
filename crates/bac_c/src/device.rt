//! What is behind a handle.
ghost use Rattle.std.specs.Prelude.{◌≡◌, ◌↔◌, ◌<◌, ◌≤◌, [], None, Some, IfErr, IfOk, IfSome, IsErrOf, MatchOption, OnErr, OnOk};
ghost use Rattle.bac_node.specs.Calls.{IsNotHeard};
ghost use Rattle.bac_node.specs.Waiting.{MovesAt, RestsUntil};
ghost use Rattle.bac_requester.specs.Timers.{LAST_MOMENT};
ghost use Rattle.bac_world.specs.Node.{NodeTick};
ghost use Rattle.bac_c.specs.Devices.{Heard, IsIdle, IsQuiet, KeepsSoMuch, Ran, Runs};
ghost use Rattle.bac_c.specs.Statuses.{fault_number, NOT_STARTED};

use crate::fault::Fault;
use crate::kept::Kept;
use bac_node::{Node, NodeFault, Outcome};
use bac_store::Object;
use bac_transaction::Rules;
use std::alloc::Global;

/// What is behind a handle: the objects and the kept cells that are listed for a node, and the node once it is started. Beside them are the rules by
/// which it serves, and what came of the last call that did something.
#[derive(Drop)]
pub struct Device {
    pub listed: Vec<Object>,
    pub kept: Kept,
    pub node: Option<Node>,
    /// The rules by which its node serves, as the settings of the start say; the strict ones before it.
    pub rules: Rules,
    pub outcome: Outcome,
}

/// Nothing is sent, performed, ended or dropped.
pub fn no_outcome(alloc: Global) -> Outcome
    ensures sends { result.sends.items ≡ [] }
    ensures effect { result.effect ≡ None }
    ensures ended { result.ended.items ≡ [] }
    ensures dropped { result.dropped ≡ None }
{
    Outcome {
        sends: Vec::new(alloc),
        effect: None,
        ended: Vec::new(alloc),
        dropped: None,
        turned_away: false,
    }
}

impl Device {
    /// No objects, no cells and no node.
    pub fn new(alloc: Global) -> Device
        ensures listed { result.listed.items ≡ [] }
        ensures kept { result.kept ≡ [] }
        ensures node { result.node ≡ None }
        ensures quiet { IsQuiet result }
    {
        Device {
            listed: Vec::new(alloc),
            kept: Kept::new(alloc),
            node: None,
            rules: Rules::strict(),
            outcome: no_outcome(alloc),
        }
    }

    /// A datagram comes from a link, at a moment in milliseconds, to a node of its rules.
    pub fn on(&mut self, now: u64, from: [u8; 6], octets: &[u8]) -> Result<(), Fault>
        ensures went { OnOk result (Heard now from octets.now self.old self.new) }
        ensures within { OnOk result (KeepsSoMuch self.old self.new) }
        ensures idle { IsErrOf result Fault.NotStarted ↔ IsIdle self.old }
        ensures early { IsErrOf result Fault.ClockBack ↔ Runs (λ n. now < n.latest) self.old }
        ensures dropped { IsErrOf result Fault.NoMemory → Runs (λ n. IsNotHeard n.link from octets.now → ⊥) self.old }
        ensures open { IsErrOf result Fault.NotOpen → ⊥ }
        ensures few { IfErr result (λ e. fault_number e ≤ NOT_STARTED) }
        ensures err { OnErr result (self.new ≡ self.old) }
    {
        let rules = self.rules;
        let Some(node) = &mut self.node else {
            return Err(Fault::NotStarted);
        };
        match node.hear(&rules, now, from, octets) {
            Ok(outcome) => {
                self.outcome = outcome;
                Ok(())
            }
            Err(NodeFault::ClockBack) => Err(Fault::ClockBack),
            Err(NodeFault::NoMemory) => Err(Fault::NoMemory),
        }
    }

    /// A tick, at a moment in milliseconds.
    pub fn tick(&mut self, now: u64) -> Result<(), Fault>
        ensures went { OnOk result (Ran (NodeTick now) self.old self.new) }
        ensures idle { IsErrOf result Fault.NotStarted ↔ IsIdle self.old }
        ensures early { IsErrOf result Fault.ClockBack ↔ Runs (λ n. now < n.latest) self.old }
        ensures open { IsErrOf result Fault.NotOpen → ⊥ }
        ensures few { IfErr result (λ e. fault_number e ≤ NOT_STARTED) }
        ensures err { OnErr result (self.new ≡ self.old) }
    {
        let Some(node) = &mut self.node else {
            return Err(Fault::NotStarted);
        };
        match node.tick(now) {
            Ok(outcome) => {
                self.outcome = outcome;
                Ok(())
            }
            Err(NodeFault::ClockBack) => Err(Fault::ClockBack),
            Err(NodeFault::NoMemory) => Err(Fault::NoMemory),
        }
    }

    /// The first moment at which a tick does anything, in milliseconds; None where there is no node, or nothing is due.
    pub fn next_due(&self) -> Option<u64>
        ensures rests { IfSome self.now.node (λ n. MatchOption result (RestsUntil LAST_MOMENT n) (λ due. RestsUntil due n)) }
        ensures moves { IfSome result (λ due. Runs (MovesAt due) self.now) }
    {
        match &self.node {
            Some(node) => node.next_due(),
            None => None,
        }
    }
}
