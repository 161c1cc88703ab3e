//! What a command line runs on: [`Environment`].
use std::alloc::Global;

/// What a command line runs on: the allocator, the files that it can name, and the machine, with its links and clocks.
#[derive(Drop)]
pub struct Environment<'e, F, M> {
    pub alloc: Global,
    pub files: &'e F,
    pub machine: &'e M,
}
