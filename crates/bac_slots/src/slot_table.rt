//! The trait of tables of slots, seen as the list of slots in order of insertion.
ghost use Rattle.std.specs.Borrow.{LendsSo, sem};
ghost use Rattle.std.specs.Option.{option_copied_mut};
ghost use Rattle.std.specs.Prelude.{◌≡◌, ◌≢◌, ℕ, ◌+◌, ◌<◌, ◌≤◌, List, [], ◌∷◌, ◌++◌, length, Some, None, MatchOption, MatchResult, IfOk, slice_get, min};
ghost use Rattle.bac_slots.specs.declared.slot.Slot.{Slot};
ghost use Rattle.bac_slots.specs.Slots.{value_at, with_value, without, nth_by_key, rank, IsDistinct};

use std::alloc::{AllocError, Global};

/// How many keys were compared; the count saturates.
#[derive(Clone, Copy, Debug, PartialEq, Eq)]
pub struct Count {
    pub comparisons: u64,
}

impl Count {
    /// Adds to the count.
    pub fn add(&mut self, more: u64)
        ensures sum { self.new.comparisons ≡ min (self.old.comparisons + more) u64.MAX }
        ensures grows { self.old.comparisons ≤ self.new.comparisons }
    {
        self.comparisons = self.comparisons.saturating_add(more);
    }
}

/// A table of slots with distinct keys. `new` allocates all its memory.
pub trait SlotTable<K: Ord + Copy, T> {
    ghost slots: { Self → List (Slot K T) };

    ghost capacity: { Self → ℕ };

    /// An empty table for up to `capacity` slots. Returns an `Err` if the allocation fails.
    fn new(alloc: Global, room: usize) -> Result<Self, AllocError>
        ensures { IfOk result (λ t. (slots t ≡ []) × (capacity t ≡ room)) };

    /// How many slots are in use.
    fn len(&self) -> usize
        ensures number { result ≡ length (slots self.now) }
        ensures within { result ≤ capacity self.now }
        ensures distinct { IsDistinct K.eq (slots self.now) };

    /// The capacity.
    fn room(&self) -> usize
        ensures { result ≡ capacity self.now };

    /// The place of the key in key order, from 0 on, or None if it is absent. Comparisons are counted.
    fn find(&self, key: &K, count: &mut Count) -> Option<usize>
        ensures counted { count.old.comparisons ≤ count.new.comparisons }
        ensures place { MatchOption result (value_at K.eq key.now (slots self.now) ≡ None)
            (λ n. (value_at K.eq key.now (slots self.now) ≢ None) × (n ≡ rank K.cmp key.now (slots self.now))) };

    /// How many slots have a lesser key, whether the key is present or not: this is the place in key order of a present key.
    fn rank(&self, key: &K) -> usize
        ensures { result ≡ rank K.cmp key.now (slots self.now) };

    /// The n-th slot in key order, from 0 on: its key, the moment at which it began, and its value.
    fn at(&self, n: usize) -> Option<(K, u64, &T)>
        ensures { MatchOption result (nth_by_key K.cmp n (slots self.now) ≡ None)
            (λ x. nth_by_key K.cmp n (slots self.now) ≡ Some (record { key = x.0; begin = x.1; value = x.2.now })) };

    /// The n-th slot in order of insertion, from 0 on.
    fn by_age(&self, n: usize) -> Option<(K, u64, &T)>
        ensures { MatchOption result (slice_get (slots self.now) n ≡ None)
            (λ x. slice_get (slots self.now) n ≡ Some (record { key = x.0; begin = x.1; value = x.2.now })) };

    /// Looks a key up, so that the next calls for the same key need few comparisons. Nothing else changes, and a table may do nothing: call it before several
    /// calls for one key.
    fn seek(&mut self, key: &K)
        ensures slots { slots self.new ≡ slots self.old }
        ensures same { capacity self.new ≡ capacity self.old };

    /// The value of a key; None if the key is absent.
    fn get(&self, key: &K) -> Option<&T>
        ensures { MatchOption result (value_at K.eq key.now (slots self.now) ≡ None) (λ x. value_at K.eq key.now (slots self.now) ≡ Some x.now) };

    /// The value of a key, borrowed to be changed in place. Returns None, with nothing changed, if the key is absent.
    fn get_mut(&mut self, key: &K) -> Option<&mut T>
        ensures* writes_back { sem 𝓛 (LendsSo Self.row T.row self.entry result
            (λ t w. (slots t ≡ with_value K.eq key.now w (slots self.old)) × (capacity t ≡ capacity self.old))
            (λ t. (slots t ≡ slots self.old) × (capacity t ≡ capacity self.old))) }
        ensures value { option_copied_mut result ≡ value_at K.eq key.now (slots self.old) };

    /// Adds a slot with an absent key as the last. Returns key and value exactly if the table is full.
    fn put(&mut self, key: K, begin: u64, value: T) -> Result<(), (K, T)>
        requires { value_at K.eq key (slots self.old) ≡ None }
        ensures slots { MatchResult result
            (λ _. (length (slots self.old) < capacity self.old) × (slots self.new ≡ slots self.old ++ record { key = key; begin = begin; value = value } ∷ []))
            (λ e. (e ≡ (key, value)) × (length (slots self.old) ≡ capacity self.old) × (slots self.new ≡ slots self.old)) }
        ensures same { capacity self.new ≡ capacity self.old };

    /// Sets the value of a key and returns the old one. If the key is absent, the value is dropped.
    fn set(&mut self, key: &K, value: T) -> Option<T>
    where
        T: Drop,
        ensures value { result ≡ value_at K.eq key.now (slots self.old) }
        ensures slots { slots self.new ≡ with_value K.eq key.now value (slots self.old) }
        ensures same { capacity self.new ≡ capacity self.old };

    /// Removes a slot and returns its value. Returns None, with nothing changed, if the key is absent.
    fn remove(&mut self, key: &K) -> Option<T>
        ensures value { result ≡ value_at K.eq key.now (slots self.old) }
        ensures slots { slots self.new ≡ without K.eq key.now (slots self.old) }
        ensures same { capacity self.new ≡ capacity self.old };
}
