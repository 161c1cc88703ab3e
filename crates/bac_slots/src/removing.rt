//! Removing a value while it is alive.
ghost use Rattle.std.specs.Prelude.{◌≡◌, ◌<◌, None, Some, length};
ghost use Rattle.bac_slots.specs.Slots.{value_at, without};
ghost use Rattle.bac_slots.specs.Ages.{IsAged};

use crate::aged::Aged;
use crate::aged_table::AgedTable;
use crate::{SlotTable, removing_a_slot};

/// Removes the value of a key, whether it is alive or not; the others stay in order, and at least one slot is free if the key was present. If the key is
/// absent nothing changes.
pub fn remove<E, K: Ord + Copy + Drop, V: Aged<E>, S: SlotTable<K, V>>(
    aged: &mut AgedTable<E, S>,
    key: &K,
)
    requires aged { IsAged K V V.began V.IsQuiet aged.old.ages (S.slots aged.old.table) }
    ensures slots { S.slots aged.new.table ≡ without K.eq key.now (S.slots aged.old.table) }
    ensures absent { value_at K.eq key.now (S.slots aged.new.table) ≡ None }
    ensures same { S.capacity aged.new.table ≡ S.capacity aged.old.table }
    ensures ages { aged.new.ages ≡ aged.old.ages }
    ensures aged { IsAged K V V.began V.IsQuiet aged.new.ages (S.slots aged.new.table) }
{
    // that keys are distinct, and the key is absent then
    let _len = aged.table.len();
    removing_a_slot::<K, V>();
    let _ = aged.table.remove(key);
}
