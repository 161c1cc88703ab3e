//! A node's call among the nodes: it goes on, and all others stay.
ghost use Rattle.std.specs.Prelude.{◌≡◌, ◌↔◌, ◌<◌, ◌≤◌, IfOk, IfErr, OnErr, OnOk, IsErrOf, length, slice_get, Some};
ghost use Rattle.bac_apdu.specs.Views.{limits_view};
ghost use Rattle.bac_npdu.specs.Views.{peer_view};
ghost use Rattle.bac_service.specs.Views.{owned_request_view};
ghost use Rattle.bac_store.specs.Views.{change_view};
ghost use Rattle.bac_node.specs.Calls.{IsAsked, IsNotHeard, Refuses, ticked};
ghost use Rattle.bac_node.specs.Views.{outcome_view};
ghost use Rattle.bac_world.specs.Laws.{IsMeaningless};
ghost use Rattle.bac_world.specs.Node.{NodeTick, begun_again, restarted, store_after_restart, with_change};
ghost use Rattle.bac_world.specs.ReusingNodes.{NodeHears};
ghost use Rattle.bac_world.specs.World.{Copy};
ghost use Rattle.bac_network.specs.Clocks.{instant, told_at};
ghost use Rattle.bac_network.specs.Goings.{ArePunctual, Goes, IsBetween, IsHeardCopy, IsPunctual};
ghost use Rattle.bac_network.specs.Rules.{reuses_by};
ghost use Rattle.bac_network.specs.Calls.{MayChange};

use bac_apdu::Limits;
use bac_journal::Journal;
use bac_node::{Node, NodeFault, Outcome, hears_by_rules};
use bac_npdu::{LinkAddress, Peer};
use bac_requester::{AskFault, Asked};
use bac_service::OwnedRequest;
use bac_store::{Change, ChangeFault, Store};
use bac_transaction::Rules;
use bac_value::NoMemory;

/// Whether a node lets clients use an invoke ID again as soon as its transaction is over.
pub(crate) fn reuses_at(reuses: &[bool], node: usize) -> bool
    ensures { result ≡ reuses_by reuses.now node }
{
    match reuses.get(node) {
        Some(reuse) => *reuse,
        None => false,
    }
}

/// A node hears a datagram as one of a world does that lets clients use invoke IDs again or not; its memory has no bound.
fn hear_by_rule(
    node: &mut Node,
    reuse: bool,
    now: u64,
    from: LinkAddress,
    octets: &[u8],
) -> Result<Outcome, NodeFault>
    ensures went { IfOk result (λ o. NodeHears reuse now from octets.now node.old node.new (outcome_view o)) }
    ensures early { IsErrOf result NodeFault.ClockBack ↔ (now < node.old.latest) }
    ensures dropped { IsNotHeard node.old.link from octets.now → IsErrOf result NodeFault.NoMemory → ⊥ }
    ensures err { OnErr result (node.new ≡ node.old) }
{
    // by the rules of its setting it hears as such a node
    hears_by_rules();
    let rules = Rules::of(reuse);
    node.hear(&rules, now, from, octets)
}

/// A node hears a datagram from a link, at a moment that is not before its latest. It lets clients use invoke IDs again or not, and its memory has no
/// bound.
pub(crate) fn hear(
    nodes: &mut [Node],
    i: usize,
    reuse: bool,
    now: u64,
    from: LinkAddress,
    octets: &[u8],
) -> Result<Outcome, NoMemory>
    requires there { i < length nodes.old }
    requires punctual { IsPunctual nodes.old i now }
    ensures went { IfOk result (λ o. Goes nodes.old i (λ a b. NodeHears reuse now from octets.now a b (outcome_view o)) nodes.new) }
    ensures meant { IsMeaningless from octets.now → OnErr result ⊥ }
    ensures err { OnErr result (nodes.new ≡ nodes.old) }
{
    let node = &mut nodes[i];
    match hear_by_rule(node, reuse, now, from, octets) {
        Ok(outcome) => Ok(outcome),
        Err(NodeFault::NoMemory) => Err(NoMemory),
        // the moment is not before the node's latest one
        Err(NodeFault::ClockBack) => unreachable!(),
    }
}

/// A copy comes to its node; its number among the nodes, and what came of it.
pub(crate) fn hear_copy(
    nodes: &mut [Node],
    journal: &Journal,
    reuses: &[bool],
    number: usize,
) -> Result<(usize, Outcome), NoMemory>
    requires there { (c : Copy) × (slice_get journal.now.copies number ≡ Some c) × IsBetween nodes.old c }
    requires punctual { ArePunctual nodes.old (told_at (instant journal.now)) }
    ensures heard { IfOk result (λ r. IsHeardCopy (reuses_by reuses.now) nodes.old (told_at (instant journal.now)) journal.now.copies number r.0 (outcome_view r.1) nodes.new) }
    ensures err { OnErr result (nodes.new ≡ nodes.old) }
{
    let copy = &journal.copies()[number];
    let from = nodes[copy.from].link();
    let reuse = reuses_at(reuses, copy.to);
    let now = journal.told(copy.to);
    let outcome = hear(nodes, copy.to, reuse, now, from, &copy.octets)?;
    Ok((copy.to, outcome))
}

/// What comes of a node's tick at a moment that is not before its latest. Nothing changes.
pub(crate) fn due(node: &Node, now: u64) -> Result<Outcome, NoMemory>
    requires { node.now.latest ≤ now }
    ensures { IfOk result (λ o. NodeTick now node.now (ticked now node.now) (outcome_view o)) }
{
    match node.prepare_tick(now) {
        Ok(outcome) => Ok(outcome),
        Err(NodeFault::NoMemory) => Err(NoMemory),
        // the moment is not before the node's latest one
        Err(NodeFault::ClockBack) => unreachable!(),
    }
}

/// A node ticks, at a moment that is not before its latest. It takes no memory.
pub(crate) fn commit(nodes: &mut [Node], i: usize, now: u64)
    requires there { i < length nodes.old }
    requires punctual { IsPunctual nodes.old i now }
    ensures { Goes nodes.old i (λ a b. b ≡ ticked now a) nodes.new }
{
    let node = &mut nodes[i];
    node.commit_tick(now);
}

/// A node asks a peer.
pub(crate) fn ask(
    nodes: &mut [Node],
    i: usize,
    now: u64,
    peer: &Peer,
    limits: &Limits,
    request: &OwnedRequest,
) -> Result<Asked, AskFault>
    requires { i < length nodes.old }
    ensures asked { IfOk result (λ x. Goes nodes.old i
        (λ a b. IsAsked now (peer_view peer.now) (limits_view limits.now) (owned_request_view request.now) a b x) nodes.new) }
    ensures refused { IfErr result (λ e. Goes nodes.old i
        (λ a b. Refuses e now (peer_view peer.now) (limits_view limits.now) (owned_request_view request.now) a) nodes.new) }
    ensures err { OnErr result (nodes.new ≡ nodes.old) }
{
    let node = &mut nodes[i];
    node.ask(now, peer, limits, request)
}

/// A node makes a change of its own store that has no fault.
pub(crate) fn change_node(nodes: &mut [Node], i: usize, change: &Change) -> Result<(), NoMemory>
    requires there { i < length nodes.old }
    requires may { MayChange nodes.old i (change_view change.now) }
    ensures went { OnOk result (Goes nodes.old i (λ a b. b ≡ with_change (change_view change.now) a) nodes.new) }
    ensures err { OnErr result (nodes.new ≡ nodes.old) }
{
    let node = &mut nodes[i];
    match node.change(change) {
        Ok(()) => Ok(()),
        Err(ChangeFault::NoMemory) => Err(NoMemory),
        // the change has no other fault
        Err(_) => unreachable!(),
    }
}

/// Another program begins at a node's link, with the store that was there or another one.
pub(crate) fn replace_node(
    nodes: &mut [Node],
    i: usize,
    now: u64,
    first_id: u8,
    store: Option<Store>,
) -> Result<(), NoMemory>
    requires { i < length nodes.old }
    ensures went { OnOk result (Goes nodes.old i (λ a b. b ≡ begun_again now first_id (store_after_restart a.store store) a) nodes.new) }
    ensures err { OnErr result (nodes.new ≡ nodes.old) }
{
    let node = &mut nodes[i];
    node.begin_again(now, first_id, store)
}

/// A node restarts, with the store that it has or another one.
pub(crate) fn restart_node(
    nodes: &mut [Node],
    i: usize,
    now: u64,
    store: Option<Store>,
) -> Result<(), NoMemory>
    requires { i < length nodes.old }
    ensures went { OnOk result (Goes nodes.old i (λ a b. b ≡ restarted now (store_after_restart a.store store) a) nodes.new) }
    ensures err { OnErr result (nodes.new ≡ nodes.old) }
{
    let node = &mut nodes[i];
    node.restart(now, store)
}
