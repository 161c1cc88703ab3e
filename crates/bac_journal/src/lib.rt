//! Nodes in one simulated network, in code.
#![tactic(auto)]

mod arriving;
mod asks;
mod clocks;
mod comparing;
mod copies;
mod journal;
mod lives;
mod meaning;
mod noting;
mod sending;
mod transaction;

ghost use Rattle.bac_journal.specs.Entering.{RunsCanGoOn, RunsCanGoOnSo};

pub use clocks::Pace;
pub use copies::Copy;
pub use journal::Journal;
pub use meaning::is_meaningless;
pub use noting::Note;
pub use transaction::Transaction;

/// In each world that a run of a fresh one leads to, what comes of a node's call can enter the world: each datagram goes to a node, in a transaction,
/// each ending is an ask's, and what was performed is an ask's or a stranger's. A copy makes a node send at most W + 1 datagrams. This holds whichever nodes
/// let clients use an invoke ID again.
pub fn runs_can_go_on()
    ensures runs { RunsCanGoOn }
    ensures reusing { RunsCanGoOnSo }
{}
