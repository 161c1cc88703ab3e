//! The system that `bac` runs on: its files, sockets, clocks and databases, and what a command line needs of a machine.
#![tactic(auto)]

mod built;
mod client_key;
mod host_side;
mod lasting;
mod machine;
mod replacing;
mod since_boot;
mod system;

pub use machine::Machine;
pub use since_boot::SinceBoot;
pub use system::System;
