//! Worlds in code: nodes in one simulated network, with a log of what was asked, performed, answered, changed and restarted.
//!
//! All nodes of a world have one clock ([`World::new`]), or each has its own ([`World::with_clocks`]). Strangers may send any octets
//! to nodes, and be asked. Every run of a world is a run of bac_world's definitions, so each accepted ask takes effect at most once in it. [`World::step`] and [`World::run`] make events happen; [`straight`] asks, and delivers
//! each copy that arises once, in order of sending. The functions that compare ([`World::same`], [`same_change`], [`same_ending`], [`are_alike`]) return true
//! exactly where contracts see no difference, and take no memory.
#![tactic(auto)]

mod asking;
mod asking_strangers;
mod beginning;
mod changing;
mod clocks;
mod comparing_changes;
mod comparing_endings;
mod comparing_strangers;
mod delivering;
mod ended;
mod entering;
mod event;
mod fact;
mod fault;
mod going;
mod lists;
mod logging;
mod making;
mod network;
mod noise;
mod parts;
mod restarting;
mod running;
mod straight_laws;
mod stranger_logs;
mod strangers;
mod ticking;
mod world;

pub use bac_journal::{Copy, Note, Pace, Transaction};
pub use comparing_changes::same_change;
pub use comparing_endings::same_ending;
pub use event::Event;
pub use fact::Fact;
pub use fault::{NewClocksFault, NewWorldFault, PaceFault, RunFault, WorldFault};
pub use lists::{Alike, are_alike};
pub use running::{StraightRun, straight};
pub use straight_laws::{log_tells, loop_goes_on, open_until_ended};
pub use stranger_logs::logs_of_strangers;
pub use world::World;

// `World::new` takes it for each node
pub use bac_node::Config;
