//! Comparison of tables as contracts see them.
ghost use Rattle.std.specs.Prelude.{◌≡◌, ◌↔◌, IsTrue, map, slice_get};
ghost use Rattle.std.specs.Option.{option_map};
ghost use Rattle.bac_slots.specs.Slots.{slot_seen};

use crate::slot_table::SlotTable;

/// A value that can be compared with another as contracts see both.
pub trait Same {
    // The abstract value, as contracts see it.
    ghost Seen: { Type 0 };

    ghost seen: { Self → Seen };

    /// Whether the abstract values are equal.
    fn same(&self, other: &Self) -> bool
        ensures { IsTrue result ↔ (seen self.now ≡ seen other.now) };
}

/// Whether two tables have the same slots, in the same order of insertion, and the same capacity.
pub fn same_tables<K: Ord + Copy + Drop + Same, T: Same, S: SlotTable<K, T>>(
    one: &S,
    other: &S,
) -> bool
    ensures { IsTrue result ↔ ((map (slot_seen K.seen T.seen) (S.slots one.now) ≡ map (slot_seen K.seen T.seen) (S.slots other.now))
        × (S.capacity one.now ≡ S.capacity other.now)) }
{
    if one.room() != other.room() {
        return false;
    }
    if one.len() != other.len() {
        return false;
    }
    for n in 0..one.len() {
        if !same_at(one, other, n) {
            return false;
        }
    }
    true
}

fn same_at<K: Ord + Copy + Drop + Same, T: Same, S: SlotTable<K, T>>(
    one: &S,
    other: &S,
    n: usize,
) -> bool
    ensures { IsTrue result ↔ (option_map (slot_seen K.seen T.seen) (slice_get (S.slots one.now) n)
        ≡ option_map (slot_seen K.seen T.seen) (slice_get (S.slots other.now) n)) }
{
    let Some((key, begin, value)) = one.by_age(n) else {
        return other.by_age(n).is_none();
    };
    let Some((other_key, other_begin, other_value)) = other.by_age(n) else {
        return false;
    };
    key.same(&other_key) && begin == other_begin && value.same(other_value)
}
