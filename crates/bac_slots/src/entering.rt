//! Adding a value, and removing those that are no longer alive.
ghost use Rattle.std.specs.Prelude.{◌≡◌, ◌+◌, ◌-◌, ◌<◌, ◌≤◌, ◌∷◌, [], ◌++◌, Some, None, MatchOption, filter, count_by, length, nat_lt};
ghost use Rattle.bac_slots.specs.Slots.{keep, value_at};
ghost use Rattle.bac_slots.specs.Ages.{AreInOrderIf, IsAged};

use crate::aged::Aged;
use crate::aged_table::AgedTable;
use crate::{
    SlotTable, Test, count_passing, has_room_once_swept, sweep, sweep_oldest, sweeping_slots,
};
use std::marker::PhantomData;

/// The test whether a value is alive at this moment.
#[derive(Drop)]
struct AliveAt<E> {
    moment: u64,
    end: PhantomData<E>,
}

impl<E, V: Aged<E>> Test<V> for AliveAt<E> {
    ghost passes = { λ t v. V.lives t.moment v };

    fn passes(&self, value: &V) -> bool {
        value.is_alive(self.moment)
    }
}

/// A value with this lifetime that began after this moment is alive.
fn last_dead(life: u64, now: u64) -> u64
    ensures { result ≡ now - (life + 1) }
{
    now.saturating_sub(life).saturating_sub(1)
}

/// How many values are alive at a moment.
pub fn count_alive<E, K: Ord + Copy + Drop, V: Aged<E>, S: SlotTable<K, V>>(
    aged: &AgedTable<E, S>,
    now: u64,
) -> usize
    ensures { result ≡ count_by (λ s. V.lives now s.value) (S.slots aged.now.table) }
{
    let alive: AliveAt<E> = AliveAt {
        moment: now,
        end: PhantomData,
    };
    count_passing(&aged.table, &alive)
}

/// Whether there is a slot without a live value. If slots are in order, only the oldest is looked at, and only if all slots are used.
pub fn has_room<E, K: Ord + Copy + Drop, V: Aged<E>, S: SlotTable<K, V>>(
    aged: &AgedTable<E, S>,
    now: u64,
) -> bool
    requires { IsAged K V V.began V.IsQuiet aged.now.ages (S.slots aged.now.table) }
    ensures { result ≡ nat_lt (count_by (λ s. V.lives now s.value) (S.slots aged.now.table)) (S.capacity aged.now.table) }
{
    V::ages();
    let alive: AliveAt<E> = AliveAt {
        moment: now,
        end: PhantomData,
    };
    match aged.ages.latest {
        Some(_) => has_room_once_swept(&aged.table, &alive, last_dead(V::LIFE, now)),
        None => count_alive(aged, now) < aged.table.room(),
    }
}

/// Removes the values that are not alive. If slots are in order, the young ones are not looked at.
fn sweep_dead<E, K: Ord + Copy + Drop, V: Aged<E>, S: SlotTable<K, V>>(
    table: &mut S,
    latest: Option<u64>,
    now: u64,
)
    requires { AreInOrderIf V.began latest (S.slots table.old) }
    ensures slots { S.slots table.new ≡ filter (λ s. V.lives now s.value) (S.slots table.old) }
    ensures same { S.capacity table.new ≡ S.capacity table.old }
{
    V::ages();
    let alive: AliveAt<E> = AliveAt {
        moment: now,
        end: PhantomData,
    };
    match latest {
        Some(_) => sweep_oldest(table, &alive, last_dead(V::LIFE, now)),
        None => sweep(table, &alive),
    }
}

/// Removes the values that are not alive; the others stay in order. If slots are in order, the young ones are not looked at. It takes no memory.
pub fn remove_dead<E, K: Ord + Copy + Drop, V: Aged<E>, S: SlotTable<K, V>>(
    aged: &mut AgedTable<E, S>,
    now: u64,
)
    requires aged { IsAged K V V.began V.IsQuiet aged.old.ages (S.slots aged.old.table) }
    ensures slots { S.slots aged.new.table ≡ filter (λ s. V.lives now s.value) (S.slots aged.old.table) }
    ensures same { S.capacity aged.new.table ≡ S.capacity aged.old.table }
    ensures ages { aged.new.ages ≡ aged.old.ages }
    ensures aged { IsAged K V V.began V.IsQuiet aged.new.ages (S.slots aged.new.table) }
{
    sweep_dead(&mut aged.table, aged.ages.latest, now);
}

/// Adds a value in a new slot.
fn put<K: Ord + Copy + Drop, V, S: SlotTable<K, V>>(table: &mut S, key: K, now: u64, value: V)
    requires absent { value_at K.eq key (S.slots table.old) ≡ None }
    requires room { length (S.slots table.old) < S.capacity table.old }
    ensures slots { S.slots table.new ≡ S.slots table.old ++ record { key = key; begin = now; value = value } ∷ [] }
    ensures same { S.capacity table.new ≡ S.capacity table.old }
{
    match table.put(key, now, value) {
        Ok(()) => {}
        Err(_) => unreachable!(),
    }
}

/// Removes the values that are not alive, and adds one that begins now, as the last. As long as moments never go back, slots stay in order.
pub fn enter<E, K: Ord + Copy + Drop, V: Aged<E>, S: SlotTable<K, V>>(
    aged: &mut AgedTable<E, S>,
    key: K,
    now: u64,
    value: V,
)
    requires aged { IsAged K V V.began V.IsQuiet aged.old.ages (S.slots aged.old.table) }
    requires begins { V.began value ≡ now }
    requires absent { keep (V.lives now) (value_at K.eq key (S.slots aged.old.table)) ≡ None }
    requires room { count_by (λ s. V.lives now s.value) (S.slots aged.old.table) < S.capacity aged.old.table }
    ensures slots { S.slots aged.new.table ≡ filter (λ s. V.lives now s.value) (S.slots aged.old.table) ++ record { key = key; begin = now; value = value } ∷ [] }
    ensures same { S.capacity aged.new.table ≡ S.capacity aged.old.table }
    ensures aged { IsAged K V V.began V.IsQuiet aged.new.ages (S.slots aged.new.table) }
    ensures known { MatchOption aged.old.ages.latest (aged.new.ages.latest ≡ None) (λ l. l ≤ now → aged.new.ages.latest ≡ Some now) }
{
    V::ages();
    // the key is absent after the sweep, and how many slots are left
    sweeping_slots::<K, V>();
    let _len = aged.table.len();
    let due = value.due(aged.ages.from);
    sweep_dead(&mut aged.table, aged.ages.latest, now);
    put(&mut aged.table, key, now, value);
    aged.ages.comes_due(due);
    aged.ages.comes(now);
}
