//! Worlds to which nothing has happened.
ghost use Rattle.std.specs.Prelude.{◌≡◌, ◌↔◌, ◌<◌, ◌+◌, ◌*◌, ◌≤◌, IfErr, IfOk, IfSome, IsTrue, None, OnOk, length};
ghost use Rattle.bac_node.specs.Fresh.{fresh_node, has_slots_within, window_fits};
ghost use Rattle.bac_journal.specs.Entering.{Every};
ghost use Rattle.bac_network.specs.Fresh.{fresh_world, greatest_window, links_of, nodes_of, opening_of, ruled_world};
ghost use Rattle.bac_network.specs.Fresh.{HasBadSlotsWithin, HasBadWindow, HaveSameLink, IsGood, IsRefusedFor, IsRefusedWithin, IsRight, IsRightWithin, IsTaken};

use crate::fault::NewWorldFault;
use crate::network::Network;
use crate::world::World;
use bac_journal::Journal;
use bac_node::{Config, NewNodeFault, Node};
use bac_npdu::LinkAddress;
use bac_store::Store;
use bac_value::NoMemory;
use std::alloc::Global;

/// Whether a node is to have that link.
fn is_linked(maker: &(Config, Store), link: LinkAddress) -> bool
    ensures { IsTrue result ↔ ((maker.now.0).link ≡ link) }
{
    maker.0.link == link
}

/// Whether one of the nodes before a place is to have that link.
fn is_taken(makers: &[(Config, Store)], place: usize, link: LinkAddress) -> bool
    requires { place ≤ length makers.now }
    ensures { IsTrue result ↔ IsTaken makers.now place link }
{
    for i in 0..place {
        if is_linked(&makers[i], link) {
            return true;
        }
    }
    false
}

/// Whether two of the nodes are to have one link.
fn have_same_link(makers: &[(Config, Store)]) -> bool
    ensures { IsTrue result ↔ HaveSameLink makers.now }
{
    for i in 0..makers.len() {
        if is_taken(makers, i, makers[i].0.link) {
            return true;
        }
    }
    false
}

/// How many slots each table of a node has at the most.
pub(crate) const MOST_SLOTS: usize = 1_024;

/// How many slots each table of a node with large tables has at the most.
const MOST_LARGE_SLOTS: usize = 65_536;

/// Whether both tables of a node have so many slots at the most, and at least one.
fn has_slots(most: usize, config: &Config) -> bool
    ensures { result ≡ has_slots_within most config.now }
{
    (1..=most).contains(&config.client_slots) && (1..=most).contains(&config.reply_slots)
}

/// Whether a node's window may be that.
fn window_fits(config: &Config) -> bool
    ensures { result ≡ window_fits config.now.window }
{
    config.window >= 1 && config.window <= 64
}

/// Whether a number of slots of one of the nodes is not 1 to that many.
fn has_bad_slots(most: usize, makers: &[(Config, Store)]) -> bool
    ensures { IsTrue result ↔ HasBadSlotsWithin most makers.now }
{
    for maker in makers {
        if !has_slots(most, &maker.0) {
            return true;
        }
    }
    false
}

/// Whether a window is not 1 to 64.
fn has_bad_window(makers: &[(Config, Store)]) -> bool
    ensures { IsTrue result ↔ HasBadWindow makers.now }
{
    for maker in makers {
        if !window_fits(&maker.0) {
            return true;
        }
    }
    false
}

/// The greatest of the windows, and 1 where there are no nodes.
pub(crate) fn greatest_window(makers: &[(Config, Store)]) -> u8
    ensures { result ≡ greatest_window makers.now }
{
    let mut greatest = 1;
    for maker in makers {
        greatest = greatest.max(maker.0.window);
    }
    greatest
}

/// The overtaking limit, or the first reason why a world is not made of these nodes, whose tables have so many slots at the most.
pub(crate) fn checked(
    most: usize,
    makers: &[(Config, Store)],
    overtake: u64,
) -> Result<u8, NewWorldFault>
    ensures same { IfOk result (λ limit. limit ≡ overtake) }
    ensures right { OnOk result (IsRightWithin most overtake makers.now) }
    ensures refused { IfErr result (λ e. IsRefusedWithin most e overtake makers.now) }
{
    if have_same_link(makers) {
        return Err(NewWorldFault::SameLink);
    }
    if has_bad_slots(most, makers) {
        return Err(NewWorldFault::BadSlots);
    }
    if has_bad_window(makers) {
        return Err(NewWorldFault::BadWindow);
    }
    match limit(overtake, greatest_window(makers)) {
        Some(limit) => Ok(limit),
        None => Err(NewWorldFault::BadBound),
    }
}

/// The overtaking limit, where it and twice the window are at most 255 together.
fn limit(overtake: u64, window: u8) -> Option<u8>
    ensures some { IfSome result (λ limit. (limit ≡ overtake) × (overtake + 2 * window ≤ 255)) }
    ensures none { result ≡ None → 255 < overtake + 2 * window }
{
    let room = 255_u64.checked_sub(u64::from(window) * 2)?;
    if overtake > room {
        return None;
    }
    // at most 255, so no bit is lost
    Some(overtake as u8)
}

/// A node that may have so many slots and that window.
fn node_made(alloc: Global, config: Config, store: Store) -> Result<Node, NoMemory>
    requires { IsGood (config, store) }
    ensures { IfOk result (λ n. n ≡ fresh_node config store) }
{
    match Node::with_large_tables(alloc, config, store) {
        Ok(node) => Ok(node),
        Err(NewNodeFault::NoMemory) => Err(NoMemory),
        // `checked` has refused such slots and windows
        Err(NewNodeFault::BadSlots) => unreachable!(),
        Err(NewNodeFault::BadWindow) => unreachable!(),
    }
}

/// The nodes.
pub(crate) fn nodes_made(alloc: Global, makers: Vec<(Config, Store)>) -> Result<Vec<Node>, NoMemory>
    requires { Every IsGood makers.items }
    ensures { IfOk result (λ nodes. nodes.items ≡ nodes_of makers.items) }
{
    let mut nodes = Vec::with_capacity(alloc, makers.len())?;
    for (config, store) in makers {
        nodes.push(node_made(alloc, config, store)?)?;
    }
    Ok(nodes)
}

/// The nodes' links.
pub(crate) fn links_of(
    alloc: Global,
    makers: &[(Config, Store)],
) -> Result<Vec<LinkAddress>, NoMemory>
    ensures { IfOk result (λ links. links.items ≡ links_of makers.now) }
{
    let mut links = Vec::with_capacity(alloc, makers.len())?;
    for maker in makers {
        links.push(maker.0.link)?;
    }
    Ok(links)
}

/// Copies of the nodes' stores.
pub(crate) fn stores_of(alloc: Global, makers: &[(Config, Store)]) -> Result<Vec<Store>, NoMemory>
    ensures { IfOk result (λ stores. stores.items ≡ opening_of makers.now) }
{
    let mut stores = Vec::with_capacity(alloc, makers.len())?;
    for maker in makers {
        stores.push(maker.1.copy(alloc)?)?;
    }
    Ok(stores)
}

impl World {
    /// A world to which nothing has happened: nodes with these configurations and stores, at moment 0. A copy is deliverable while at most `overtake` later
    /// copies of its transaction were sent. The opening stores are copies.
    ///
    /// It is refused for the first of these that holds: `SameLink`, two nodes have one link; `BadSlots`, a number of slots is not 1 to 1,024; `BadWindow`, a
    /// window is not 1 to 64; `BadBound`, `overtake` and twice the greatest window are more than 255 together; `NoMemory` comes last.
    pub fn new(
        alloc: Global,
        nodes: Vec<(Config, Store)>,
        overtake: u64,
    ) -> Result<World, NewWorldFault>
        ensures made { IfOk result (λ w. w ≡ fresh_world overtake nodes.items) }
        ensures right { OnOk result (IsRight overtake nodes.items) }
        ensures refused { IfErr result (λ e. IsRefusedFor e overtake nodes.items) }
    {
        World::made(alloc, nodes, overtake, MOST_SLOTS, Vec::new(alloc))
    }

    /// A world as one of `new`, whose nodes may have up to 65,536 slots in each table.
    ///
    /// It is refused as `new` refuses it, but `BadSlots` where a number of slots is not 1 to 65,536.
    pub fn with_large_tables(
        alloc: Global,
        nodes: Vec<(Config, Store)>,
        overtake: u64,
    ) -> Result<World, NewWorldFault>
        ensures made { IfOk result (λ w. w ≡ fresh_world overtake nodes.items) }
        ensures right { OnOk result (IsRightWithin 65536 overtake nodes.items) }
        ensures refused { IfErr result (λ e. IsRefusedWithin 65536 e overtake nodes.items) }
    {
        World::made(alloc, nodes, overtake, MOST_LARGE_SLOTS, Vec::new(alloc))
    }

    /// A world as one of `with_large_tables`, with rules for each node: one of which `reuses` says so, by its number, lets clients use an invoke ID again as
    /// soon as its transaction is over (clause 5.4). It performs each read anew, and shares its slots among addresses. A node after the list's end is strict, as
    /// all are in the other worlds. No node has a bound on the octets that it keeps.
    ///
    /// It is refused as `with_large_tables` refuses it.
    pub fn with_rules(
        alloc: Global,
        nodes: Vec<(Config, Store)>,
        overtake: u64,
        reuses: Vec<bool>,
    ) -> Result<World, NewWorldFault>
        ensures made { IfOk result (λ w. w ≡ ruled_world overtake reuses.items nodes.items) }
        ensures right { OnOk result (IsRightWithin 65536 overtake nodes.items) }
        ensures refused { IfErr result (λ e. IsRefusedWithin 65536 e overtake nodes.items) }
    {
        World::made(alloc, nodes, overtake, MOST_LARGE_SLOTS, reuses)
    }

    /// A world of these nodes, whose tables have so many slots at the most, or the first reason why not.
    fn made(
        alloc: Global,
        nodes: Vec<(Config, Store)>,
        overtake: u64,
        most: usize,
        reuses: Vec<bool>,
    ) -> Result<World, NewWorldFault>
        requires { most ≤ 65536 }
        ensures made { IfOk result (λ w. w ≡ ruled_world overtake reuses.items nodes.items) }
        ensures right { OnOk result (IsRightWithin most overtake nodes.items) }
        ensures refused { IfErr result (λ e. IsRefusedWithin most e overtake nodes.items) }
    {
        let limit = checked(most, &nodes, overtake)?;
        Ok(World::fresh(alloc, nodes, limit, most, reuses)?)
    }

    /// A world of nodes that are right, whose tables have so many slots at the most.
    fn fresh(
        alloc: Global,
        makers: Vec<(Config, Store)>,
        overtake: u8,
        most: usize,
        reuses: Vec<bool>,
    ) -> Result<World, NoMemory>
        requires right { IsRightWithin most overtake makers.items }
        requires most { most ≤ 65536 }
        ensures { IfOk result (λ w. w ≡ ruled_world overtake reuses.items makers.items) }
    {
        let window = greatest_window(&makers);
        let opening = stores_of(alloc, &makers)?;
        let journal = Journal::new(alloc, links_of(alloc, &makers)?)?;
        let nodes = nodes_made(alloc, makers)?;
        Ok(World {
            alloc,
            overtake,
            window,
            opening,
            reuses,
            network: Network {
                nodes,
                journal,
                log: Vec::new(alloc),
            },
        })
    }
}
