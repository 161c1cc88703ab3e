//! Ticks: time passes for all values of a table.
ghost use Rattle.std.specs.Prelude.{◌≡◌, ◌+◌, map, MatchOption, Some, slice_get};
ghost use Rattle.bac_slots.specs.declared.slot.Slot.{Slot};
ghost use Rattle.bac_slots.specs.Slots.{value_at, with_value};
ghost use Rattle.bac_slots.specs.Ages.{AreQuiet, IsAged, changed, first_due, ticked_in};

use crate::SlotTable;
use crate::aged::{Aged, Ticks};
use crate::aged_table::AgedTable;

/// The key of the n-th slot in order of insertion, if a tick at this moment has something to do for its value.
fn due_key_at<E, K: Ord + Copy, V: Aged<E>, S: SlotTable<K, V>>(
    table: &S,
    now: u64,
    n: usize,
) -> Option<K>
    ensures { MatchOption result ((s : Slot K V) → slice_get (S.slots table.now) n ≡ Some s → V.IsQuiet now (now + 1) s.value)
        (λ k. (s : Slot K V) × (slice_get (S.slots table.now) n ≡ Some s) × (s.key ≡ k)) }
{
    V::ages();
    let Some((key, _, value)) = table.by_age(n) else {
        return None;
    };
    if now < value.due(now) {
        return None;
    }
    Some(key)
}

/// Applies a tick to the value of a key, in its slot.
fn tick_at<E, K: Ord + Copy, C, V: Ticks<E, K, C>, S: SlotTable<K, V>>(
    table: &mut S,
    settings: &C,
    now: u64,
    key: &K,
)
    ensures slots { (v : V) → value_at K.eq key.now (S.slots table.old) ≡ Some v
        → S.slots table.new ≡ with_value K.eq key.now (V.ticked settings.now now key.now v) (S.slots table.old) }
    ensures same { S.capacity table.new ≡ S.capacity table.old }
{
    let Some(slot) = table.get_mut(key) else {
        return;
    };
    slot.tick(settings, now, key);
}

/// Applies a tick to each value; those for which it has nothing to do are not touched.
fn tick_each<E, K: Ord + Copy, C, V: Ticks<E, K, C>, S: SlotTable<K, V>>(
    table: &mut S,
    settings: &C,
    now: u64,
)
    ensures slots { S.slots table.new ≡ map (changed (ticked_in V.ticked settings.now now)) (S.slots table.old) }
    ensures same { S.capacity table.new ≡ S.capacity table.old }
{
    V::ticks();
    for n in 0..table.len() {
        let Some(key) = due_key_at(table, now, n) else {
            continue;
        };
        tick_at(table, settings, now, &key);
    }
}

/// The first moment, at or after a given one, at which a tick can have something to do for the n-th slot in order of insertion.
fn due_at<E, K: Ord + Copy, V: Aged<E>, S: SlotTable<K, V>>(table: &S, from: u64, n: usize) -> u64
    ensures due { MatchOption (slice_get (S.slots table.now) n) (result ≡ 18446744073709551615) (λ s. result ≡ V.due_of from s.value) }
    ensures quiet { (s : Slot K V) → slice_get (S.slots table.now) n ≡ Some s → V.IsQuiet from result s.value }
{
    match table.by_age(n) {
        Some((_, _, value)) => value.due(from),
        None => u64::MAX,
    }
}

/// The first moment, at or after a given one, at which a tick has something to do for any slot; the greatest moment if there is none.
/// It looks at each slot.
pub fn first_due<E, K: Ord + Copy, V: Aged<E>, S: SlotTable<K, V>>(table: &S, from: u64) -> u64
    ensures due { result ≡ first_due (V.due_of from) (S.slots table.now) }
    ensures quiet { AreQuiet V.IsQuiet from result (S.slots table.now) }
{
    V::ages();
    let mut due = u64::MAX;
    for n in 0..table.len() {
        due = due.min(due_at(table, from, n));
    }
    due
}

/// Applies a tick to all values. It does not allocate. After the latest tick and before the first due moment it looks at no slot.
pub fn tick<E, K: Ord + Copy, C, V: Ticks<E, K, C>, S: SlotTable<K, V>>(
    aged: &mut AgedTable<E, S>,
    settings: &C,
    now: u64,
)
    requires { IsAged K V V.began V.IsQuiet aged.old.ages (S.slots aged.old.table) }
    ensures slots { S.slots aged.new.table ≡ map (changed (ticked_in V.ticked settings.now now)) (S.slots aged.old.table) }
    ensures same { S.capacity aged.new.table ≡ S.capacity aged.old.table }
    ensures aged { IsAged K V V.began V.IsQuiet aged.new.ages (S.slots aged.new.table) }
    ensures known { aged.new.ages.latest ≡ aged.old.ages.latest }
{
    V::ticks();
    if aged.ages.is_quiet(now) {
        return;
    }
    tick_each(&mut aged.table, settings, now);
    aged.ages.from = now;
    aged.ages.due = first_due(&aged.table, now);
}
