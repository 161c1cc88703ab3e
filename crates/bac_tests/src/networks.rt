//! What rows of text can't say of nodes, worlds and scripts; all else is in the rows of bac_node_rows. It is worlds that are made up from numbers,
//! ends whose moments go back, a link that notes its calls, sockets, refused memory, failing files, and laws. Here is what the tests share.
use bac_npdu::LinkAddress;
use bac_rows::holds;
use bac_value::NoMemory;
use std::alloc::Global;
use std::test::Fail;

mod alone;
mod chance;
mod failing;
mod following;
mod generated;
mod laws;
mod links;
mod memory;
mod nodes;
mod rules;
mod schedules;
mod sleeping;
mod turns;
mod worlds;

/// The link of the node with that number.
fn link(number: u8) -> LinkAddress {
    [10, 0, 0, number, 0xBA, 0xC0]
}

/// What a script printed, what it complained of, and its exit status.
#[derive(Drop)]
struct Printed {
    out: Vec<u8>,
    err: Vec<u8>,
    status: u8,
}
