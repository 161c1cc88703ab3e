//! A tick of the client's end: what its transactions send and end, in ascending order of keys. Nothing changes here.
//!
//! `Requester::prepare_tick` calls [`prepare`]; `bac_slots` makes the change, by `Client::tick`. All here is private to the crate.
ghost use Rattle.std.specs.Prelude.{◌≡◌, ℕ, ◌++◌, IfOk, OnOk, map};
ghost use Rattle.std.specs.Option.{option_map};
ghost use Rattle.bac_transaction.specs.Ends.{requester_tick};
ghost use Rattle.bac_transaction.specs.Views.{peer_key_view, settings_view};
ghost use Rattle.bac_requester.specs.Reactions.{IsReaction, IsTickOfSlot, endings_with};
ghost use Rattle.bac_requester.specs.TransactionViews.{ending_view};
ghost use Rattle.bac_requester.specs.Views.{end_of, ended_view};

use crate::client::Client;
use crate::reaction::{Ended, Reaction, nothing};
use crate::transaction_slot::TransactionSlot;
use crate::transition;
use crate::transition::Transition;
use bac_slots::{SlotTable, slots_in_order};
use bac_transaction::{Context, PeerKey, Settings};
use bac_value::NoMemory;
use std::alloc::Global;

/// What a tick of one slot sends, and how it ends its transaction.
fn slot_tick(
    alloc: Global,
    settings: &Settings,
    now: u64,
    key: &PeerKey,
    client: &Client,
) -> Result<Transition, NoMemory>
    ensures { (begin : ℕ) → IfOk result (λ x. IsTickOfSlot (settings_view settings.now) now
        (record { key = peer_key_view key.now; begin = begin; value = client.now }) x.sends.items
        (endings_with client.now.number (option_map ending_view x.ending))) }
{
    let TransactionSlot::Open(transaction) = &client.held else {
        return Ok(transition::nothing(alloc));
    };
    let context = Context {
        settings: *settings,
        key: *key,
        moment: now,
    };
    transaction.prepare_tick(alloc, &context)
}

/// Appends what the transaction of a ticket sends, and its ending, if it has one.
fn append(reaction: &mut Reaction, ticket: u64, transition: Transition) -> Result<(), NoMemory>
    ensures sends { OnOk result (reaction.new.sends.items ≡ reaction.old.sends.items ++ transition.sends.items) }
    ensures ended { OnOk result (map ended_view reaction.new.ended.items
        ≡ map ended_view reaction.old.ended.items ++ endings_with ticket (option_map ending_view transition.ending)) }
{
    let Transition { mut sends, ending } = transition;
    reaction.sends.append(&mut sends)?;
    let Some(ending) = ending else {
        return Ok(());
    };
    reaction.ended.push(Ended { ticket, ending })?;
    Ok(())
}

/// What a tick sends and ends, in ascending order of keys.
pub(crate) fn prepare<S: SlotTable<PeerKey, Client>>(
    alloc: Global,
    settings: &Settings,
    table: &S,
    now: u64,
) -> Result<Reaction, NoMemory>
    ensures { IfOk result (IsReaction (requester_tick (settings_view settings.now) now (end_of (S.slots table.now) (S.capacity table.now) 0 0 0))) }
{
    let mut reaction = nothing(alloc);
    // the n-th by key is the n-th in order
    slots_in_order::<PeerKey, Client>();
    for n in 0..table.len() {
        let Some((key, _, client)) = table.at(n) else {
            continue;
        };
        let transition = slot_tick(alloc, settings, now, &key, client)?;
        append(&mut reaction, client.number, transition)?;
    }
    Ok(reaction)
}
