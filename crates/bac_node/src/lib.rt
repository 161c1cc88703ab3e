//! A BACnet node without input or output: its client's end, its server's end and its store.
//!
//! bac_driver runs one on a socket, bac_network many in one process, and bac_c gives it to C. [`Node`] says which calls to make, and when. Each call does exactly
//! what bac_world's definitions of a node say. All memory is allocated before anything changes.
#![tactic(auto)]

mod cause;
mod config;
mod ends;
mod fault;
mod law;
mod memory;
mod node;
mod outcome;
mod reading;

pub use cause::Cause;
pub use config::Config;
pub use fault::{NewNodeFault, NodeFault};
pub use law::{capacities_stay, hears_by_rules};
pub use memory::MEMORY;
pub use node::Node;
pub use outcome::Outcome;

// in the fields of `Outcome`
pub use bac_responder::{Act, Effect};
