//! When a slot of the reply table gets free. `Responder::next_free` calls it; all here is private to the crate.
ghost use Rattle.std.specs.Prelude.{◌≡◌, ◌≤◌, MatchOption, slice_get};
ghost use Rattle.bac_slots.specs.Ages.{first_due as first_of};
ghost use Rattle.bac_responder.specs.Freeing.{dies};
ghost use Rattle.bac_responder.specs.Timers.{LAST_MOMENT};

use crate::ServerTransaction;
use bac_protocol::times::KEEP;
use bac_slots::SlotTable;
use bac_transaction::PeerKey;

/// The first moment at which the n-th slot in order of insertion has no live entry; the last moment of all where it is not in use.
fn dead_from<S: SlotTable<PeerKey, ServerTransaction>>(table: &S, n: usize) -> u64
    ensures slot { MatchOption (slice_get (S.slots table.now) n) (result ≡ LAST_MOMENT) (λ s. result ≡ dies s.value) }
    ensures most { result ≤ LAST_MOMENT }
{
    match table.by_age(n) {
        None => u64::MAX,
        // an entry is live at its last moment too
        Some((_, _, entry)) => entry.begin().saturating_add(KEEP + 1),
    }
}

/// The first moment at which one of the slots that are in use has no live entry; the last moment of all where none is. It looks at each of them.
pub(crate) fn first_dead<S: SlotTable<PeerKey, ServerTransaction>>(table: &S) -> u64
    ensures { result ≡ first_of dies (S.slots table.now) }
{
    let mut first = u64::MAX;
    for n in 0..table.len() {
        first = first.min(dead_from(table, n));
    }
    first
}
