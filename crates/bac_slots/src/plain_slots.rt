//! A table that scans a vector.
ghost use Rattle.std.specs.Prelude.{◌≡◌, ℕ, ◌+◌, ◌<◌, ◌≤◌, List, [], ◌∷◌, ◌++◌, length, Some, None, IfOk, slice_get, position, MatchOption};
ghost use Rattle.bac_slots.specs.Slots.{rank, is_less, value_at, IsAt};

use crate::slot::Slot;
use crate::slot_table::{Count, SlotTable};
use std::alloc::{AllocError, Global};
use std::cmp::Ordering;
use std::marker::Model;

/// A table that scans a vector: each call compares every key.
#[derive(Drop)]
pub struct PlainSlots<K: Ord, T> {
    slots: Vec<Slot<K, T>>,
    capacity: usize,
}

impl<K: Ord, T> Model for PlainSlots<K, T> {
    ghost use Rattle.std.specs.Prelude.{◌≡◌, ℕ, ◌≤◌, List, length, vec_capacity};
    ghost use Rattle.bac_slots.specs.declared.slot.Slot.{Slot};
    ghost use Rattle.bac_slots.specs.Slots.{IsDistinct};

    ghost Value = { List (Slot K T) × ℕ };

    ghost view = { λ p. (p.slots.items, p.capacity) };

    ghost invariant = { λ p. (p.capacity ≤ vec_capacity p.slots) × (length p.slots.items ≤ p.capacity) × IsDistinct K.eq p.slots.items };
}

impl<K: Ord + Copy + Drop, T: Drop> SlotTable<K, T> for PlainSlots<K, T> {
    ghost slots = { λ p. p.0 };

    ghost capacity = { λ p. p.1 };

    fn new(alloc: Global, room: usize) -> Result<Self, AllocError> {
        Ok(PlainSlots {
            slots: Vec::with_capacity(alloc, room)?,
            capacity: room,
        })
    }

    fn len(&self) -> usize {
        self.slots.len()
    }

    fn room(&self) -> usize {
        self.capacity
    }

    fn find(&self, key: &K, count: &mut Count) -> Option<usize> {
        count.add(self.slots.len() as u64);
        let Some(_at) = place(&self.slots, key) else {
            return None;
        };
        count.add(self.slots.len() as u64);
        Some(rank_of(&self.slots, key))
    }

    fn rank(&self, key: &K) -> usize {
        rank_of(&self.slots, key)
    }

    fn at(&self, n: usize) -> Option<(K, u64, &T)> {
        for slot in &self.slots {
            if rank_of(&self.slots, &slot.key) == n {
                return Some((slot.key, slot.begin, &slot.value));
            }
        }
        None
    }

    fn by_age(&self, n: usize) -> Option<(K, u64, &T)> {
        let slot = self.slots.get(n)?;
        Some((slot.key, slot.begin, &slot.value))
    }

    fn seek(&mut self, _key: &K) {}

    fn get(&self, key: &K) -> Option<&T> {
        let Some(at) = place(&self.slots, key) else {
            return None;
        };
        Some(&self.slots[at].value)
    }

    fn get_mut(&mut self, key: &K) -> Option<&mut T> {
        let Some(at) = place(&self.slots, key) else {
            return None;
        };
        Some(&mut self.slots[at].value)
    }

    fn put(&mut self, key: K, begin: u64, value: T) -> Result<(), (K, T)> {
        if self.slots.len() >= self.capacity {
            return Err((key, value));
        }
        match self.slots.push(Slot { key, begin, value }) {
            Ok(()) => Ok(()),
            Err(_) => unreachable!(),
        }
    }

    fn set(&mut self, key: &K, value: T) -> Option<T> {
        let Some(at) = place(&self.slots, key) else {
            return None;
        };
        let slot = &mut self.slots[at];
        Some(std::mem::replace(&mut slot.value, value))
    }

    fn remove(&mut self, key: &K) -> Option<T> {
        let Some(at) = place(&self.slots, key) else {
            return None;
        };
        let Slot {
            key: _,
            begin: _,
            value,
        } = self.slots.remove(at);
        Some(value)
    }
}

/// How many slots have a lesser key.
fn rank_of<K: Ord, T>(slots: &Vec<Slot<K, T>>, key: &K) -> usize
    ensures { result ≡ rank K.cmp key.now slots.now.items }
{
    slots.iter().filter(|s| is_less(s.key.cmp(key))).count()
}

/// The place of the key in order of insertion.
fn place<K: Ord, T>(slots: &Vec<Slot<K, T>>, key: &K) -> Option<usize>
    ensures { MatchOption result (value_at K.eq key.now slots.now.items ≡ None) (λ n. (n < length slots.now.items) × IsAt K.eq key.now n slots.now.items) }
{
    let at = position_of(slots, key);
    at
}

fn position_of<K: Ord, T>(slots: &Vec<Slot<K, T>>, key: &K) -> Option<usize>
    ensures { result ≡ position (λ s. K.eq s.key key.now) slots.now.items }
{
    slots.iter().position(|s| s.key == *key)
}

fn is_less(order: Ordering) -> bool
    ensures { result ≡ is_less order }
{
    match order {
        Ordering::Less => true,
        _ => false,
    }
}
