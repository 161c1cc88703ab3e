//! A node on its link, beside a clock: [`Station`].
use bac_driver::{BoundNode, Clock, Link};
use std::alloc::Global;

/// A node on its link, the clock at whose moments it acts, and the allocator of what it needs.
#[derive(Drop)]
pub struct Station<L: Link, C: Clock> {
    pub alloc: Global,
    pub bound_node: BoundNode<L>,
    pub clock: C,
}
