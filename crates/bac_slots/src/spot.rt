//! Where a number is in blocks.
/// A block, and a place in it. One place is behind the numbers of the block.
#[derive(Clone, Copy)]
pub(crate) struct Spot {
    pub(crate) block: usize,
    pub(crate) at: usize,
}
