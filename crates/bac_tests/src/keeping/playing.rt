//! Rounds of requests: each is performed and noted, then all of a round are kept.
ghost use Rattle.std.specs.Prelude.{◌≡◌, OnOk};

use bac_keep::{KeepFault, Keeper, note_request};
use bac_service::read_request;
use bac_store::Store;
use std::alloc::Global;

/// A request: its service choice, and its service data.
#[derive(Clone, Copy)]
pub(super) struct Asked {
    pub(super) choice: u8,
    pub(super) data: &'static [u8],
}

/// The requests of a round.
#[derive(Clone, Copy)]
pub(super) struct Round {
    pub(super) requests: &'static [Asked],
}

/// Performs a request, and notes it.
fn perform<K: Keeper>(
    alloc: Global,
    keeper: &mut K,
    store: &mut Store,
    asked: Asked,
) -> Result<(), KeepFault>
    requires open { K.IsHonest keeper.old → K.IsOpen keeper.old }
    requires same { K.IsHonest keeper.old → K.noted keeper.old ≡ store.old }
    ensures open { OnOk result (K.IsHonest keeper.new → K.IsOpen keeper.new) }
    ensures same { OnOk result (K.IsHonest keeper.new → K.noted keeper.new ≡ store.new) }
{
    let Ok(request) = read_request(asked.choice, asked.data) else {
        return Err(KeepFault::BadRow);
    };
    let reply = store.perform(alloc, &request)?;
    note_request(keeper, request, reply.as_reply(), store)?;
    Ok(())
}

/// Performs the requests of a round, and keeps them.
fn keep_round<K: Keeper>(
    alloc: Global,
    keeper: &mut K,
    store: &mut Store,
    round: Round,
) -> Result<(), KeepFault>
    requires open { K.IsHonest keeper.old → K.IsOpen keeper.old }
    requires same { K.IsHonest keeper.old → K.noted keeper.old ≡ store.old }
    ensures open { OnOk result (K.IsHonest keeper.new → K.IsOpen keeper.new) }
    ensures same { OnOk result (K.IsHonest keeper.new → K.noted keeper.new ≡ store.new) }
{
    for at in 0..round.requests.len() {
        perform(alloc, keeper, store, round.requests[at])?;
    }
    keeper.keep()?;
    Ok(())
}

/// Takes rounds up to the first that is not kept. Returns how many were.
pub(super) fn keep_rounds<K: Keeper>(
    alloc: Global,
    keeper: &mut K,
    store: &mut Store,
    rounds: &[Round],
) -> usize
    requires open { K.IsHonest keeper.old → K.IsOpen keeper.old }
    requires same { K.IsHonest keeper.old → K.noted keeper.old ≡ store.old }
{
    for at in 0..rounds.len() {
        if keep_round(alloc, keeper, store, rounds[at]).is_err() {
            return at;
        }
    }
    rounds.len()
}

/// Performs the requests of some rounds on a store.
pub(super) fn perform_rounds(
    alloc: Global,
    store: &mut Store,
    rounds: &[Round],
) -> Result<(), KeepFault> {
    for round in rounds {
        for asked in round.requests {
            let Ok(request) = read_request(asked.choice, asked.data) else {
                return Err(KeepFault::BadRow);
            };
            store.perform(alloc, &request)?;
        }
    }
    Ok(())
}
