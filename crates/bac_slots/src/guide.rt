//! Where to look for a key in an index.
ghost use Rattle.std.specs.Prelude.{◌+◌, ◌≤◌, length};
ghost use Rattle.bac_slots.specs.Slots.{digits};

use crate::slot_table::Count;
use std::alloc::{AllocError, Global};
use std::cmp::Ordering;

/// Copies of the first keys of blocks. They say where to look first: the keys of the slots that are found there decide, so no answer depends on them.
#[derive(Drop)]
pub(crate) struct Guide<K> {
    /// The first key of each block of the index.
    firsts: Vec<K>,
}

impl<K: Ord> Guide<K> {
    /// The last block whose first key is not greater than a key; the first block where there is none. Comparisons are counted.
    pub(crate) fn block_of(&self, key: &K, compared: &mut Count) -> usize
        ensures { compared.new.comparisons ≤ compared.old.comparisons + digits (length self.now.firsts.items) }
    {
        let mut block = 0;
        let mut count = self.firsts.len();
        while count > 1 {
            let half = count / 2;
            let middle = block + half;
            compared.add(1);
            let is_after = self.firsts[middle].cmp(key) == Ordering::Greater;
            block = if is_after { block } else { middle };
            count -= half;
        }
        block
    }
}

impl<K: Ord + Copy + Drop> Guide<K> {
    /// No keys, with room for those of so many blocks. Returns an `Err` if the allocation fails.
    pub(crate) fn new(alloc: Global, blocks: usize) -> Result<Self, AllocError> {
        Ok(Guide {
            firsts: Vec::with_capacity(alloc, blocks)?,
        })
    }

    /// A block has another first key, or there is one block more, which is the last.
    pub(crate) fn set(&mut self, block: usize, first: K) {
        if block < self.firsts.len() {
            self.firsts[block] = first;
        } else {
            self.open(block, first);
        }
    }

    /// There is one block more, before this one. Where there is no room for its key, nothing changes.
    pub(crate) fn open(&mut self, block: usize, first: K) {
        let len = self.firsts.len();
        if block > len || len >= self.firsts.capacity() {
            return;
        }
        match self.firsts.insert(block, first) {
            Ok(()) => {}
            Err(_) => {}
        }
    }

    /// A block left.
    pub(crate) fn close(&mut self, block: usize) {
        if block < self.firsts.len() {
            self.firsts.remove(block);
        }
    }

    /// No block is known.
    pub(crate) fn clear(&mut self) {
        self.firsts.clear();
    }
}
