//! Tables of slots: what a search compares, and how far a sweep looks.
use super::holds;
use bac_slots::{Count, IndexSlots, PlainSlots, SlotTable};
use std::alloc::Global;
use std::test::Fail;

mod counted_key;
mod searching;
mod sweeping;

// Whether a key that is absent is put, at moment 0.
fn is_put<K: Ord + Copy + Drop, T: Drop, S: SlotTable<K, T>>(
    table: &mut S,
    key: K,
    value: T,
) -> bool {
    table.get(&key).is_none() && table.put(key, 0, value).is_ok()
}
