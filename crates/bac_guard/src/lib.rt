//! Which sources a node hears, and how much it sends to one address. Programs make a [`Guard`] of their settings, and put the [`Guarded`] link that
//! it gives over the link of a node.
#![tactic(auto)]

mod address;
mod block;
mod bucket;
mod budget;
mod fault;
mod guard;
mod guarded;
mod laws;
mod meter;
mod sources;
mod sources_reading;
#[cfg(test)]
mod tests;

pub use budget::Budget;
pub use fault::{BlockFlaw, SourcesFault};
pub use guard::Guard;
pub use guarded::Guarded;
pub use laws::{what_an_address_is_sent_is_bounded, what_is_sent_is_bounded};
pub use sources::Sources;
pub use sources_reading::read_sources;
