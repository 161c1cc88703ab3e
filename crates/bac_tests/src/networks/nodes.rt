//! A node with 64 slots at each end.
use super::link;
use bac_apdu::Limits;
use bac_node::{Config, NewNodeFault, Node};
use bac_store::house;
use std::alloc::Global;

/// A node of that link with the house store, which takes APDUs of 1,476 octets and any number of segments.
pub(super) fn house_node(alloc: Global, number: u8) -> Result<Node, NewNodeFault> {
    let config = Config {
        link: link(number),
        limits: Limits {
            max_apdu: 5,
            takes_segments: true,
            max_segments: 7,
        },
        window: 32,
        client_slots: 64,
        reply_slots: 64,
    };
    Node::new(alloc, config, house(alloc)?)
}
