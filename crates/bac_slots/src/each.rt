//! A fact about each value of a table.
ghost use Rattle.std.specs.Prelude.{◌≡◌, Some, slice_get};
ghost use Rattle.bac_slots.specs.declared.slot.Slot.{Slot};
ghost use Rattle.bac_slots.specs.Slots.{EachSlot};

use crate::SlotTable;

/// A fact that is true of every value of a type.
pub trait SlotFact<V> {
    // The fact.
    ghost Holds: { V → Type 0 };

    /// States the fact for a value. It changes nothing.
    fn holds(&self, value: &V)
        ensures { Holds value.now };
}

// States the fact for the n-th slot in order of insertion.
fn holds_at<K: Ord + Copy, V, S: SlotTable<K, V>, F: SlotFact<V>>(table: &S, n: usize, fact: &F)
    ensures { (s : Slot K V) → slice_get (S.slots table.now) n ≡ Some s → F.Holds s.value }
{
    let Some((_, _, value)) = table.by_age(n) else {
        return;
    };
    fact.holds(value);
}

/// States the fact for each slot. It passes over the table, and changes nothing.
pub fn each_slot<K: Ord + Copy, V, S: SlotTable<K, V>, F: SlotFact<V>>(table: &S, fact: &F)
    ensures { EachSlot (λ s. F.Holds s.value) (S.slots table.now) }
{
    for n in 0..table.len() {
        holds_at(table, n, fact);
    }
}
