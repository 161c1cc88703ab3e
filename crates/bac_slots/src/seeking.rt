//! Looking a key up before several calls for it.
ghost use Rattle.std.specs.Prelude.{◌≡◌};
ghost use Rattle.bac_slots.specs.Ages.{IsAged};

use crate::SlotTable;
use crate::aged::Aged;
use crate::aged_table::AgedTable;

/// Looks a key up, so that the next calls for the same key need few comparisons. Nothing else changes.
pub fn seek<E, K: Ord + Copy + Drop, V: Aged<E>, S: SlotTable<K, V>>(
    aged: &mut AgedTable<E, S>,
    key: &K,
)
    requires aged { IsAged K V V.began V.IsQuiet aged.old.ages (S.slots aged.old.table) }
    ensures slots { S.slots aged.new.table ≡ S.slots aged.old.table }
    ensures same { S.capacity aged.new.table ≡ S.capacity aged.old.table }
    ensures ages { aged.new.ages ≡ aged.old.ages }
    ensures aged { IsAged K V V.began V.IsQuiet aged.new.ages (S.slots aged.new.table) }
{
    aged.table.seek(key);
}
