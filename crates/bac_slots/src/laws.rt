//! Laws of lists of slots: empty functions whose contracts are the laws.
ghost use Rattle.std.specs.Prelude.{◌≡◌, ℕ, ◌+◌, ◌≤◌, Bool, true, false, List, [], ◌∷◌, ◌++◌, length, map, filter, count_by, Some, None, slice_get};
ghost use Rattle.std.specs.declared.cmp.Ordering.TheVariants.{Less};
ghost use Rattle.bac_slots.specs.declared.slot.Slot.{Slot};
ghost use Rattle.bac_slots.specs.Slots.{value_at, with_value, without, rank, nth_by_key, in_order, keep, EachSlot, Ascends, IsDistinct};

/// Sorted by key, the slots are as many, have strictly ascending keys and the same values; the n-th slot by key is the n-th of them.
pub fn slots_in_order<K: Ord, T>()
    ensures nth { (slots : List (Slot K T)) (n : ℕ) → IsDistinct K.eq slots → nth_by_key K.cmp n slots ≡ slice_get (in_order K.cmp slots) n }
    ensures ascending { (slots : List (Slot K T)) (n : ℕ) (s t : Slot K T) → IsDistinct K.eq slots → slice_get (in_order K.cmp slots) n ≡ Some s
        → slice_get (in_order K.cmp slots) (n + 1) ≡ Some t → K.cmp s.key t.key ≡ Less }
    ensures length { (slots : List (Slot K T)) → length (in_order K.cmp slots) ≡ length slots }
    ensures values { (slots : List (Slot K T)) (key : K) → IsDistinct K.eq slots → value_at K.eq key (in_order K.cmp slots) ≡ value_at K.eq key slots }
{}

/// A key that is present is in the slot whose place in key order is the rank of the key, and in no other slot. If a key is present,
/// the rank of the next key is one greater.
pub fn ranks_of_keys<K: Ord, T>()
    ensures present { (slots : List (Slot K T)) (key : K) (v : T) → IsDistinct K.eq slots → value_at K.eq key slots ≡ Some v
        → (s : Slot K T) × (nth_by_key K.cmp (rank K.cmp key slots) slots ≡ Some s) × (K.eq s.key key ≡ true) × (s.value ≡ v) }
    ensures here { (slots : List (Slot K T)) (key : K) (n : ℕ) (s : Slot K T) → IsDistinct K.eq slots → nth_by_key K.cmp n slots ≡ Some s
        → K.eq s.key key ≡ true → value_at K.eq key slots ≡ Some s.value }
    ensures other { (slots : List (Slot K T)) (key : K) (s : Slot K T) → IsDistinct K.eq slots
        → nth_by_key K.cmp (rank K.cmp key slots) slots ≡ Some s → K.eq s.key key ≡ false → value_at K.eq key slots ≡ None }
    ensures past { (slots : List (Slot K T)) (key : K) → IsDistinct K.eq slots → nth_by_key K.cmp (rank K.cmp key slots) slots ≡ None
        → value_at K.eq key slots ≡ None }
    ensures next { (slots : List (Slot K T)) (key after : K) (v : T) → IsDistinct K.eq slots → value_at K.eq key slots ≡ Some v
        → K.cmp key after ≡ Less → ((k : K) → K.cmp key k ≡ Less → K.cmp k after ≡ Less → ⊥)
        → rank K.cmp after slots ≡ rank K.cmp key slots + 1 }
{}

/// Setting a value keeps the keys in their places; the new value is found there, and nothing changes at other keys.
pub fn setting_a_value<K: Ord, T>()
    ensures keys { (slots : List (Slot K T)) (key : K) (v : T) → map (λ s. s.key) (with_value K.eq key v slots) ≡ map (λ s. s.key) slots }
    ensures length { (slots : List (Slot K T)) (key : K) (v : T) → length (with_value K.eq key v slots) ≡ length slots }
    ensures distinct { (slots : List (Slot K T)) (key : K) (v : T) → IsDistinct K.eq slots → IsDistinct K.eq (with_value K.eq key v slots) }
    ensures found { (slots : List (Slot K T)) (key : K) (old v : T) → value_at K.eq key slots ≡ Some old
        → value_at K.eq key (with_value K.eq key v slots) ≡ Some v }
    ensures others { (slots : List (Slot K T)) (key other : K) (v : T) → K.eq key other ≡ false
        → value_at K.eq other (with_value K.eq key v slots) ≡ value_at K.eq other slots }
{}

/// Setting a value twice is the same as setting it once; setting the value that is there changes nothing.
pub fn setting_again<K: Ord, T>()
    ensures twice { (slots : List (Slot K T)) (key : K) (a b : T) → with_value K.eq key b (with_value K.eq key a slots) ≡ with_value K.eq key b slots }
    ensures back { (slots : List (Slot K T)) (key : K) (v : T) → value_at K.eq key slots ≡ Some v → with_value K.eq key v slots ≡ slots }
{}

/// A slot that is added with an absent key is found, and nothing changes at other keys.
pub fn putting_a_slot<K: Ord, T>()
    ensures distinct { (slots : List (Slot K T)) (x : Slot K T) → IsDistinct K.eq slots → value_at K.eq x.key slots ≡ None → IsDistinct K.eq (slots ++ x ∷ []) }
    ensures found { (slots : List (Slot K T)) (x : Slot K T) → value_at K.eq x.key slots ≡ None → value_at K.eq x.key (slots ++ x ∷ []) ≡ Some x.value }
    ensures others { (slots : List (Slot K T)) (x : Slot K T) (other : K) → K.eq x.key other ≡ false
        → value_at K.eq other (slots ++ x ∷ []) ≡ value_at K.eq other slots }
{}

/// After a slot is removed its key is absent, and nothing changes at other keys.
pub fn removing_a_slot<K: Ord, T>()
    ensures distinct { (slots : List (Slot K T)) (key : K) → IsDistinct K.eq slots → IsDistinct K.eq (without K.eq key slots) }
    ensures absent { (slots : List (Slot K T)) (key : K) → IsDistinct K.eq slots → value_at K.eq key (without K.eq key slots) ≡ None }
    ensures others { (slots : List (Slot K T)) (key other : K) → K.eq key other ≡ false
        → value_at K.eq other (without K.eq key slots) ≡ value_at K.eq other slots }
    ensures length { (slots : List (Slot K T)) (key : K) (v : T) → value_at K.eq key slots ≡ Some v → length (without K.eq key slots) + 1 ≡ length slots }
{}

/// After a sweep there are as many slots as have a value that passes; each key has its old value if that passes.
pub fn sweeping_slots<K: Ord, T>()
    ensures distinct { (slots : List (Slot K T)) (test : T → Bool) → IsDistinct K.eq slots → IsDistinct K.eq (filter (λ s. test s.value) slots) }
    ensures values { (slots : List (Slot K T)) (test : T → Bool) (key : K) → IsDistinct K.eq slots
        → value_at K.eq key (filter (λ s. test s.value) slots) ≡ keep test (value_at K.eq key slots) }
    ensures length { (slots : List (Slot K T)) (test : T → Bool) → length (filter (λ s. test s.value) slots) ≡ count_by (λ s. test s.value) slots }
{}

/// Slots in the order in which they began stay so if one is added that began before none of them, if one is set or removed, and
/// after a sweep.
pub fn ascending_slots<K: Ord, T>()
    ensures put { (slots : List (Slot K T)) (x : Slot K T) → Ascends slots → EachSlot (λ s. s.begin ≤ x.begin) slots → Ascends (slots ++ x ∷ []) }
    ensures set { (slots : List (Slot K T)) (key : K) (v : T) → Ascends slots → Ascends (with_value K.eq key v slots) }
    ensures removed { (slots : List (Slot K T)) (key : K) → Ascends slots → Ascends (without K.eq key slots) }
    ensures swept { (slots : List (Slot K T)) (test : T → Bool) → Ascends slots → Ascends (filter (λ s. test s.value) slots) }
{}
