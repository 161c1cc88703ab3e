//! The node of each command, on its link.
ghost use Rattle.std.specs.Prelude.{◌≡◌, false, IfOk, IsErrOf, Some};
ghost use Rattle.bac_transaction.specs.Given.{STRICTLY};
ghost use Rattle.bac_driver.specs.Nodes.{large_slots_fit};
ghost use Rattle.bac_commands.specs.Houses.{client_node, house_node, server_node};

use crate::fresh_node::{asking_node, node_with, server_node};
use bac_driver::{BoundNode, Link, MEMORY, NewNodeFault};
use bac_npdu::LinkAddress;
use bac_store::{Store, house};
use bac_transaction::Rules;
use bac_value::NoMemory;
use std::alloc::Global;

/// A node of that address that serves a store, on that link, with so many slots at each end, 1 to 65,536. Where a moment is given, in milliseconds, it restarts
/// then: it turns new requests away while no more than 65,000 ms have passed since. Its rules are the strict ones, and it
/// keeps no more than 64 MiB (`BoundNode::set_rules`).
///
/// `BadSlots` where there can't be so many slots, `NoMemory` where memory is refused.
pub fn bound_server<L: Link>(
    alloc: Global,
    link: L,
    address: LinkAddress,
    store: Store,
    slots: usize,
    restart: Option<u64>,
) -> Result<BoundNode<L>, NewNodeFault>
    ensures node { IfOk result (λ s. s.node ≡ server_node slots restart address store) }
    ensures failures { IfOk result (λ s. s.failures ≡ L.failures link) }
    ensures calls { IfOk result (λ s. s.calls ≡ L.calls link) }
    ensures rules { IfOk result (λ s. s.rules ≡ record STRICTLY { memory = Some 67108864 }) }
    ensures slots { IsErrOf result NewNodeFault.BadSlots → large_slots_fit slots ≡ false }
    ensures window { IsErrOf result NewNodeFault.BadWindow → ⊥ }
{
    let node = server_node(alloc, slots, restart, address, store)?;
    Ok(BoundNode::new(alloc, node, link, Rules::strict().within(MEMORY))?)
}

/// A node of that address with a house store of its own and 64 slots at each end, on that link. Its invoke IDs begin at `first_id`. An Err says that
/// memory was refused.
pub fn bound_house<L: Link>(
    alloc: Global,
    link: L,
    address: LinkAddress,
    first_id: u8,
) -> Result<BoundNode<L>, NoMemory>
    ensures node { IfOk result (λ s. s.node ≡ house_node first_id address) }
    ensures failures { IfOk result (λ s. s.failures ≡ L.failures link) }
    ensures calls { IfOk result (λ s. s.calls ≡ L.calls link) }
    ensures rules { IfOk result (λ s. s.rules ≡ record STRICTLY { memory = Some 67108864 }) }
{
    let store = house(alloc)?;
    let mut node = node_with(alloc, address, store)?;
    node.set_first_invoke_id(first_id);
    BoundNode::new(alloc, node, link, Rules::strict().within(MEMORY))
}

/// A node as of [`bound_house`] that asks for lists: it has 65,536 slots for asks of its own, and 256 for those of others. It begins at a moment, in
/// milliseconds: it may ask at once, and turns new requests away while no more than 65,000 ms have passed since. Make one once all is over that was sent from
/// there before.
pub fn bound_client<L: Link>(
    alloc: Global,
    link: L,
    address: LinkAddress,
    now: u64,
    first_id: u8,
) -> Result<BoundNode<L>, NoMemory>
    ensures node { IfOk result (λ s. s.node ≡ client_node now first_id address) }
    ensures failures { IfOk result (λ s. s.failures ≡ L.failures link) }
    ensures calls { IfOk result (λ s. s.calls ≡ L.calls link) }
    ensures rules { IfOk result (λ s. s.rules ≡ record STRICTLY { memory = Some 67108864 }) }
{
    let store = house(alloc)?;
    let mut node = asking_node(alloc, address, store)?;
    node.begin_again(now, first_id, None)?;
    BoundNode::new(alloc, node, link, Rules::strict().within(MEMORY))
}
