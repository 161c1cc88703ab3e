//! Of a node that was handed in the laws of repeats, retries and ticks have all that they suppose. These functions are proved, and do nothing.
ghost use Rattle.std.specs.Prelude.{◌≡◌, ◌⊎◌, ◌≤◌, ◌-◌, ℕ, List, Some};
ghost use Rattle.bac_apdu.specs.Apdu.{Limits as PlainLimits};
ghost use Rattle.bac_npdu.specs.Peers.{PeerView};
ghost use Rattle.bac_segment.specs.Window.{Outgoing};
ghost use Rattle.bac_service.specs.Values.{Request};
ghost use Rattle.bac_protocol.specs.Client.{ClientTransaction};
ghost use Rattle.bac_protocol.specs.Server.{Transfer};
ghost use Rattle.bac_protocol.specs.Service.{Octets};
ghost use Rattle.bac_protocol.specs.declared.times.TheConstants.{DEADLINE};
ghost use Rattle.bac_slots.specs.Slots.{value_at};
ghost use Rattle.bac_transaction.specs.Ends.{Accepted};
ghost use Rattle.bac_transaction.specs.Ends.TransactionSlot.{Open};
ghost use Rattle.bac_transaction.specs.Keys.{PeerKey, same_key};
ghost use Rattle.bac_transaction.specs.Sends.{Datagram as PlainDatagram};
ghost use Rattle.bac_world.specs.Counts.{IsNew, IsReply, IsReplyLeft, IsReplyNew, IsTicket};
ghost use Rattle.bac_world.specs.Node.{Node as PlainNode, NodeAsks, NodeOn, NodeTick, Outcome as PlainOutcome};
ghost use Rattle.bac_world.specs.Ticks.{IsDue, IsRepeated};

use super::*;
use bac_node::Node;
use bac_world::node::{repeats_fall, retries_fall, tick_repeats_what_is_due};

/// After an ask each open ticket was open before it, as it is, or is that of the ask, with all its repeats and retries.
fn tickets_after_an_ask(node: &Node)
    ensures { (now : ℕ) (peer : PeerView) (limits : PlainLimits) (r : Request) (new : PlainNode) (a : Accepted) (sends : List PlainDatagram)
        → NodeAsks now peer limits r node.now new a sends → (key : PeerKey) (number : ℕ) (next : ClientTransaction) → IsTicket new key number next
        → IsTicket node.now key number next ⊎ IsNew peer a key number next }
{
    node.keys_are_apart();
    repeats_fall();
}

/// After a datagram each reply in segments was there before it, with as many retries or more acknowledged, or is a new one, with all retries.
fn replies_after_a_datagram(node: &Node)
    ensures { (now : ℕ) (from octets : Octets) (new : PlainNode) (o : PlainOutcome) → NodeOn now from octets node.now new o
        → (key : PeerKey) (next : Outgoing) (transfer : Transfer) → IsReply new key next transfer
        → IsReplyLeft node.now key next ⊎ IsReplyNew now node.now key next }
{
    node.keys_are_apart();
    retries_fall();
}

/// A tick sends again what an open ticket waits for whose timer is due, once, and it stays open.
fn tickets_in_a_tick(node: &Node)
    ensures { (now : ℕ) (new : PlainNode) (o : PlainOutcome) → NodeTick now node.now new o → (key : PeerKey) (number : ℕ) (t : ClientTransaction)
        → value_at same_key key node.now.clients.slots ≡ Some (record { number = number; held = Open t }) → now - t.ask.first ≤ DEADLINE
        → IsDue now t t.phase → IsRepeated now node.now new o key number t }
{
    node.keys_are_apart();
    tick_repeats_what_is_due();
}

fn are_lawful(alloc: Global) -> Result<(), Fail> {
    let node = nodes::house_node(alloc, 1)?;
    tickets_after_an_ask(&node);
    replies_after_a_datagram(&node);
    tickets_in_a_tick(&node);
    Ok(())
}

#[test]
fn laws_of_a_node_handed_in(rt: HostRuntime) -> Result<(), Fail> {
    are_lawful(rt.alloc())
}
