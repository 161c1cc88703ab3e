//! What a tick of the table sends.
ghost use Rattle.std.specs.Prelude.{◌≡◌, ℕ, [], IfOk, None};
ghost use Rattle.bac_transaction.specs.Ends.{server_tick_sends, responder_tick};
ghost use Rattle.bac_transaction.specs.Sends.{Pairwise, IsSent};
ghost use Rattle.bac_transaction.specs.Views.{peer_key_view, settings_view};
ghost use Rattle.bac_responder.specs.Views.{end_of};

use crate::ServerTransaction;
use bac_slots::{SlotTable, slots_in_order};
use bac_transaction::{Context, Datagram, PeerKey, Settings};
use bac_value::NoMemory;
use std::alloc::Global;

/// What a tick of one slot sends.
fn slot_sends(
    alloc: Global,
    settings: &Settings,
    now: u64,
    key: &PeerKey,
    entry: &ServerTransaction,
) -> Result<Vec<Datagram>, NoMemory>
    ensures { (begin : ℕ) → IfOk result (λ v. Pairwise IsSent (server_tick_sends (settings_view settings.now) now
        (record { key = peer_key_view key.now; begin = begin; value = entry.now })) v.items) }
{
    let context = Context {
        settings: *settings,
        key: *key,
        moment: now,
    };
    entry.prepare_tick(alloc, &context)
}

/// What all entries send at a tick, in ascending order of their keys.
pub(crate) fn prepare<S: SlotTable<PeerKey, ServerTransaction>>(
    alloc: Global,
    settings: &Settings,
    table: &S,
    now: u64,
) -> Result<Vec<Datagram>, NoMemory>
    ensures { IfOk result (λ v. Pairwise IsSent
        (responder_tick (settings_view settings.now) now (end_of (S.slots table.now) (S.capacity table.now) None)).sends v.items) }
{
    let mut sends = Vec::new(alloc);
    // the n-th by key is the n-th in order
    slots_in_order::<PeerKey, ServerTransaction>();
    for n in 0..table.len() {
        let Some((key, _, entry)) = table.at(n) else {
            continue;
        };
        let mut more = slot_sends(alloc, settings, now, &key, entry)?;
        sends.append(&mut more)?;
    }
    Ok(sends)
}

/// Nothing is sent.
pub(crate) fn nothing_due(alloc: Global) -> Vec<Datagram>
    ensures { result.items ≡ [] }
{
    Vec::new(alloc)
}
