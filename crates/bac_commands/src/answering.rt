//! What `bac answer` prints: the datagrams that a node with a store sends for one datagram.
ghost use Rattle.std.specs.Prelude.{◌≡◌, ℕ, IfOk};
ghost use Rattle.bac_npdu.specs.Peers.{PeerView};
ghost use Rattle.bac_service.specs.Values.{Request};
ghost use Rattle.bac_driver.specs.Nodes.{outcome_view, NodeOn};
ghost use Rattle.bac_commands.specs.Answers.{AreAnswers, AreAnswersOf, Asks, IsReplied};

mod printing;

use crate::fresh_node::node_with;
use bac_driver::{Node, NodeFault, Outcome};
use bac_npdu::LinkAddress;
use bac_store::{Store, house};
use bac_transaction::Datagram;
use bac_value::NoMemory;
pub use printing::answer_over;
use std::alloc::Global;

/// The link that a datagram comes from: 127.0.0.1, port 47,809.
pub const CLIENT: LinkAddress = [0x7F, 0, 0, 1, 0xBA, 0xC1];

/// The link of the node that answers: 127.0.0.1, port 47,808.
const SERVER: LinkAddress = [0x7F, 0, 0, 1, 0xBA, 0xC0];

/// The node hears a datagram at moment 0.
fn hears(node: &mut Node, octets: &[u8]) -> Result<Outcome, NoMemory>
    requires { node.old.latest ≡ 0 }
    ensures { IfOk result (λ o. NodeOn 0 CLIENT octets.now node.old node.new (outcome_view o)) }
{
    match node.on(0, CLIENT, octets) {
        Ok(outcome) => Ok(outcome),
        Err(NodeFault::NoMemory) => Err(NoMemory),
        // no moment is before 0
        Err(NodeFault::ClockBack) => unreachable!(),
    }
}

/// What a node with a store sends for a datagram.
fn sends(alloc: Global, store: Store, octets: &[u8]) -> Result<Vec<Datagram>, NoMemory>
    ensures { IfOk result (λ v. AreAnswersOf store octets.now v.items) }
{
    let mut node = node_with(alloc, SERVER, store)?;
    let outcome = hears(&mut node, octets)?;
    Ok(outcome.sends)
}

/// What a node with the house store sends for a datagram.
fn house_sends(alloc: Global, octets: &[u8]) -> Result<Vec<Datagram>, NoMemory>
    ensures { IfOk result (λ v. AreAnswers octets.now v.items) }
{
    let store = house(alloc)?;
    sends(alloc, store, octets)
}

/// The datagrams that a node with the house store sends, in order of sending, where a datagram comes to it from 127.0.0.1, port 47,809, at moment 0.
///
/// A request in one APDU of one of the four services (clauses 14.1, 14.2, 15.5 and 15.9) gets the store's reply, in one datagram.
/// An Err says that memory was refused.
pub fn answer_datagram(alloc: Global, octets: &[u8]) -> Result<Vec<Datagram>, NoMemory>
    ensures answers { IfOk result (λ v. AreAnswers octets.now v.items) }
    ensures reply { (peer : PeerView) (invoke_id choice : ℕ) (r : Request) → Asks octets.now peer invoke_id choice r
        → IfOk result (λ v. IsReplied peer invoke_id choice r v.items) }
{
    house_sends(alloc, octets)
}
