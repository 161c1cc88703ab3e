//! Nodes in one simulated network, and straight runs.
pub use bac_network::{
    Copy, Event, Fact, NewClocksFault, NewWorldFault, Note, Pace, PaceFault, RunFault, StraightRun,
    Transaction, World, WorldFault, straight,
};
