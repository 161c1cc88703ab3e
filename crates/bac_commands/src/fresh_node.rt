//! The node that each command makes.
ghost use Rattle.std.specs.Prelude.{◌≡◌, true, false, IfOk, IsErrOf};
ghost use Rattle.bac_driver.specs.Nodes.{large_slots_fit};
ghost use Rattle.bac_commands.specs.Houses.{asking_node, node_of, node_with, server_node};

use bac_apdu::Limits;
use bac_driver::{Config, NewNodeFault, Node};
use bac_npdu::LinkAddress;
use bac_store::Store;
use bac_value::NoMemory;
use std::alloc::Global;

/// APDUs of 1,476 octets, and any number of segments.
pub(crate) const LIMITS: Limits = Limits {
    max_apdu: 5,
    takes_segments: true,
    max_segments: 7,
};

/// How many slots each end of a node has where nothing else is said.
const SLOTS: usize = 64;

/// A node of that link with a store, windows of 32 segments, and so many slots at each end, which restarts at that moment, if there is one.
///
/// `BadSlots` where the slots are not 1 to 65,536; otherwise an Err says that memory was refused.
pub(crate) fn server_node(
    alloc: Global,
    slots: usize,
    restart: Option<u64>,
    link: LinkAddress,
    store: Store,
) -> Result<Node, NewNodeFault>
    ensures node { IfOk result (λ n. n ≡ server_node slots restart link store) }
    ensures slots { IsErrOf result NewNodeFault.BadSlots → large_slots_fit slots ≡ false }
    ensures window { IsErrOf result NewNodeFault.BadWindow → ⊥ }
{
    let config = Config {
        link,
        limits: LIMITS,
        window: 32,
        client_slots: slots,
        reply_slots: slots,
    };
    match restart {
        Some(now) => Node::restarted_with_large_tables(alloc, config, store, now),
        None => Node::with_large_tables(alloc, config, store),
    }
}

/// A node of that link with a store, windows of 32 segments, and so many slots at each end, 1 to 65,536.
pub(crate) fn node_of(
    alloc: Global,
    slots: usize,
    link: LinkAddress,
    store: Store,
) -> Result<Node, NoMemory>
    requires { large_slots_fit slots ≡ true }
    ensures { IfOk result (λ n. n ≡ node_of slots link store) }
{
    match server_node(alloc, slots, None, link, store) {
        Ok(node) => Ok(node),
        Err(NewNodeFault::NoMemory) => Err(NoMemory),
        // the slots are 1 to 65,536, and the window is right
        Err(NewNodeFault::BadSlots | NewNodeFault::BadWindow) => unreachable!(),
    }
}

/// A node of that link with a store, windows of 32 segments, and 64 slots at each end.
pub(crate) fn node_with(alloc: Global, link: LinkAddress, store: Store) -> Result<Node, NoMemory>
    ensures { IfOk result (λ n. n ≡ node_with link store) }
{
    node_of(alloc, SLOTS, link, store)
}

/// A node of that link with a store, windows of 32 segments, 65,536 slots for asks of its own and 256 for those of others.
pub(crate) fn asking_node(alloc: Global, link: LinkAddress, store: Store) -> Result<Node, NoMemory>
    ensures { IfOk result (λ n. n ≡ asking_node link store) }
{
    let config = Config {
        link,
        limits: LIMITS,
        window: 32,
        client_slots: 65_536,
        reply_slots: 256,
    };
    match Node::with_large_tables(alloc, config, store) {
        Ok(node) => Ok(node),
        Err(NewNodeFault::NoMemory) => Err(NoMemory),
        // both numbers of slots and the window are right
        Err(NewNodeFault::BadSlots | NewNodeFault::BadWindow) => unreachable!(),
    }
}
