//! Counting the slots whose value passes a test, and removing the others.
ghost use Rattle.std.specs.Prelude.{◌≡◌, ◌<◌, Bool, true, false, filter, count_by, length, MatchOption, Some, nat_lt, slice_get};
ghost use Rattle.bac_slots.specs.declared.slot.Slot.{Slot};
ghost use Rattle.bac_slots.specs.Slots.{without, Ascends, YoungPass};

use crate::slot_table::SlotTable;

/// A test on values.
pub trait Test<T> {
    ghost passes: { Self → T → Bool };

    /// Whether the value passes the test.
    fn passes(&self, value: &T) -> bool
        ensures { result ≡ passes self.now value.now };
}

/// Removes each slot whose value fails the test; the others are unchanged and stay in order.
pub fn sweep<K: Ord + Copy + Drop, T: Drop, S: SlotTable<K, T>, P: Test<T>>(table: &mut S, test: &P)
    ensures slots { S.slots table.new ≡ filter (λ s. P.passes test.now s.value) (S.slots table.old) }
    ensures same { S.capacity table.new ≡ S.capacity table.old }
{
    let total = table.len();
    for n in (0..total).rev() {
        let Some(key) = failing_at(table, n, test) else {
            continue;
        };
        take_out(table, &key);
    }
}

/// Does the same as `sweep`, but looks only at slots that began at the bound or before. The caller guarantees that slots are in the
/// order in which they began, and that values that began after the bound pass.
pub fn sweep_oldest<K: Ord + Copy + Drop, T: Drop, S: SlotTable<K, T>, P: Test<T>>(
    table: &mut S,
    test: &P,
    bound: u64,
)
    requires ascending { Ascends (S.slots table.old) }
    requires young { YoungPass (P.passes test.now) bound (S.slots table.old) }
    ensures slots { S.slots table.new ≡ filter (λ s. P.passes test.now s.value) (S.slots table.old) }
    ensures same { S.capacity table.new ≡ S.capacity table.old }
{
    let mut kept = 0;
    while kept < table.len() {
        if is_young(table, kept, bound) {
            return;
        }
        let Some(key) = failing_at(table, kept, test) else {
            kept += 1;
            continue;
        };
        take_out(table, &key);
    }
}

/// Whether a slot is free, or would be after a sweep. If the table is full it looks from the oldest slot on, up to the first that fails
/// the test or began after the bound. The caller guarantees that slots are in order, and that values that began after the bound pass.
pub fn has_room_once_swept<K: Ord + Copy + Drop, T, S: SlotTable<K, T>, P: Test<T>>(
    table: &S,
    test: &P,
    bound: u64,
) -> bool
    requires ascending { Ascends (S.slots table.now) }
    requires young { YoungPass (P.passes test.now) bound (S.slots table.now) }
    ensures { result ≡ nat_lt (count_by (λ s. P.passes test.now s.value) (S.slots table.now)) (S.capacity table.now) }
{
    table.len() < table.room() || has_failing(table, test, bound)
}

// Whether a slot has a value that fails the test.
fn has_failing<K: Ord + Copy + Drop, T, S: SlotTable<K, T>, P: Test<T>>(
    table: &S,
    test: &P,
    bound: u64,
) -> bool
    requires ascending { Ascends (S.slots table.now) }
    requires young { YoungPass (P.passes test.now) bound (S.slots table.now) }
    ensures { result ≡ nat_lt (count_by (λ s. P.passes test.now s.value) (S.slots table.now)) (length (S.slots table.now)) }
{
    for n in 0..table.len() {
        if is_young(table, n, bound) {
            return false;
        }
        let Some(_key) = failing_at(table, n, test) else {
            continue;
        };
        return true;
    }
    false
}

// Whether the n-th slot in order of insertion began after the bound, or does not exist.
fn is_young<K: Ord + Copy + Drop, T, S: SlotTable<K, T>>(table: &S, n: usize, bound: u64) -> bool
    ensures { MatchOption (slice_get (S.slots table.now) n) (result ≡ true) (λ s. result ≡ nat_lt bound s.begin) }
{
    let Some(slot) = table.by_age(n) else {
        return true;
    };
    bound < slot.1
}

/// How many slots have a value that passes the test: as many as a sweep leaves.
pub fn count_passing<K: Ord + Copy + Drop, T, S: SlotTable<K, T>, P: Test<T>>(
    table: &S,
    test: &P,
) -> usize
    ensures { result ≡ count_by (λ s. P.passes test.now s.value) (S.slots table.now) }
{
    let total = table.len();
    let mut failing = 0;
    for n in 0..total {
        let Some(_key) = failing_at(table, n, test) else {
            continue;
        };
        failing += 1;
    }
    total - failing
}

// The key of the n-th slot in order of insertion, if its value fails the test.
fn failing_at<K: Ord + Copy + Drop, T, S: SlotTable<K, T>, P: Test<T>>(
    table: &S,
    n: usize,
    test: &P,
) -> Option<K>
    ensures { MatchOption result ((s : Slot K T) → slice_get (S.slots table.now) n ≡ Some s → P.passes test.now s.value ≡ true)
        (λ k. (s : Slot K T) × (slice_get (S.slots table.now) n ≡ Some s) × (s.key ≡ k) × (P.passes test.now s.value ≡ false)) }
{
    let Some(slot) = table.by_age(n) else {
        return None;
    };
    if test.passes(slot.2) {
        None
    } else {
        Some(slot.0)
    }
}

fn take_out<K: Ord + Copy + Drop, T: Drop, S: SlotTable<K, T>>(table: &mut S, key: &K)
    ensures slots { S.slots table.new ≡ without K.eq key.now (S.slots table.old) }
    ensures same { S.capacity table.new ≡ S.capacity table.old }
{
    let _ = table.remove(key);
}
