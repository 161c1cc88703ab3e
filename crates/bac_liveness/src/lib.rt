//! What must come of an ask, whatever is lost, repeated or reordered: it ends, and it is answered where enough gets through; where nothing is lost, repeated or
//! reordered, a straight run answers it. And what the tables of nodes hold in every world that a run reached.
//!
//! `machines` has the laws of both ends' machines (bac_protocol), `worlds`, `node`, `straight` and `tables` those of nodes and worlds (bac_world), and the rest
//! computed runs. The definitions are in `specs/`. The functions here have no body: each carries a law as its contract.
#![tactic(auto)]

pub mod examples;
pub mod failures;
pub mod machines;
pub mod node;
pub mod reusing;
pub mod straight;
pub mod tables;
pub mod world_examples;
pub mod worlds;
