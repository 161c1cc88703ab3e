//! When a tick of the table has something to do: the first timer that is due, and the first entry whose life ends.
ghost use Rattle.std.specs.Prelude.{◌≡◌, ◌<◌, MatchOption, slice_get};
ghost use Rattle.bac_slots.specs.Ages.{AreQuiet, first_due as first_of};
ghost use Rattle.bac_responder.specs.Aging.{AreAged};
ghost use Rattle.bac_responder.specs.Timers.{IsQuiet, LAST_MOMENT, due_of, life_end};

use crate::ServerTransaction;
use crate::aging::ServerAging;
use bac_slots::{AgedTable, SlotTable, first_due};
use bac_transaction::PeerKey;

/// The first moment at which a timer is due, looked at from a moment on; the last moment of all where none is due while its entry lives. Where a timer may run
/// it looks at each slot, otherwise at none.
pub(crate) fn first_timer<S: SlotTable<PeerKey, ServerTransaction>>(
    aged: &AgedTable<ServerAging, S>,
    from: u64,
) -> u64
    requires { AreAged aged.now.ages (S.slots aged.now.table) }
    ensures quiet { AreQuiet IsQuiet from result (S.slots aged.now.table) }
    ensures first { result < LAST_MOMENT → first_of (due_of from) (S.slots aged.now.table) ≡ result }
{
    if aged.ages.is_quiet_from(from) {
        return u64::MAX;
    }
    first_due(&aged.table, from)
}

/// When the life of the n-th entry in order of insertion ends; the last moment of all where there is none.
fn end_at<S: SlotTable<PeerKey, ServerTransaction>>(table: &S, n: usize) -> u64
    ensures { MatchOption (slice_get (S.slots table.now) n) (result ≡ LAST_MOMENT) (λ s. result ≡ life_end s.value) }
{
    match table.by_age(n) {
        Some((_, _, entry)) => entry.life_end(),
        None => u64::MAX,
    }
}

/// The first moment at which the life of any entry ends, looking at each slot.
fn first_end_of_all<S: SlotTable<PeerKey, ServerTransaction>>(table: &S) -> u64
    ensures { result ≡ first_of life_end (S.slots table.now) }
{
    let mut end = u64::MAX;
    for n in 0..table.len() {
        end = end.min(end_at(table, n));
    }
    end
}

/// The first moment at which the life of any entry ends; the last moment of all where there is none. If slots are in order, only the oldest is looked at.
pub(crate) fn first_end<S: SlotTable<PeerKey, ServerTransaction>>(
    aged: &AgedTable<ServerAging, S>,
) -> u64
    requires { AreAged aged.now.ages (S.slots aged.now.table) }
    ensures { result ≡ first_of life_end (S.slots aged.now.table) }
{
    match aged.ages.latest {
        // moments never went back, so the oldest entry ends first
        Some(_) => end_at(&aged.table, 0),
        None => first_end_of_all(&aged.table),
    }
}
