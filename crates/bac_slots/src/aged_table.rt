//! A table together with what is known of the ages of its slots.
ghost use Rattle.std.specs.Prelude.{◌≡◌, [], IfOk, Some};
ghost use Rattle.bac_slots.specs.Ages.{IsAged};

use crate::SlotTable;
use crate::aged::Aged;
use crate::ages::Ages;
use std::alloc::{AllocError, Global};
use std::marker::PhantomData;

/// A table of slots whose values age by the rules of the end E, together with what is known of their ages.
#[derive(Drop)]
pub struct AgedTable<E, S> {
    /// The slots, in the order in which their values were added.
    pub table: S,
    /// What is known of their ages.
    pub ages: Ages,
    /// The end whose rules apply.
    pub end: PhantomData<E>,
}

/// An empty table for up to `capacity` slots. Returns an `Err` if the allocation fails. Nothing allocates for slots later.
pub fn empty_table<E, K: Ord + Copy, V: Aged<E>, S: SlotTable<K, V>>(
    alloc: Global,
    room: usize,
) -> Result<AgedTable<E, S>, AllocError>
    ensures slots { IfOk result (λ t. (S.slots t.table ≡ []) × (S.capacity t.table ≡ room)) }
    ensures known { IfOk result (λ t. t.ages.latest ≡ Some 0) }
    ensures aged { IfOk result (λ t. IsAged K V V.began V.IsQuiet t.ages (S.slots t.table)) }
{
    let table = S::new(alloc, room)?;
    Ok(AgedTable {
        table,
        ages: Ages {
            from: 0,
            due: u64::MAX,
            latest: Some(0),
        },
        end: PhantomData,
    })
}
