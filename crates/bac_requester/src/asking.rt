//! An ask: the invoke ID that it takes, the slot that it needs, and the first sending.
//!
//! `Requester::ask` calls [`free_id`], [`has_no_slot`] and [`begin`]. [`Asked`] is public; the rest may change with `requester`.
ghost use Rattle.std.specs.Prelude.{◌≡◌, ℕ, ◌+◌, ◌-◌, ◌<◌, ◌&&◌, ◌||◌, IfOk, Some, None, false, length, nat_le, nat_lt, not};
ghost use Rattle.bac_npdu.specs.Views.{peer_view};
ghost use Rattle.bac_slots.specs.Slots.{rank};
ghost use Rattle.bac_slots.specs.Ages.{IsKnownBy};
ghost use Rattle.bac_transaction.specs.Ends.{asks_for, has_no_slot, is_held, is_id_held, least_around, least_not};
ghost use Rattle.bac_transaction.specs.Views.{code_key_cmp, code_same_key, settings_view, slots_view};
ghost use Rattle.bac_service.specs.Spellings.{request_spelling};
ghost use Rattle.bac_service.specs.Values.{choice_of};
ghost use Rattle.bac_service.specs.Views.{request_view};
ghost use Rattle.bac_requester.specs.Fits.{IsWayFor};
ghost use Rattle.bac_requester.specs.Transitions.{IsBegun};
ghost use Rattle.bac_requester.specs.Requests.{ask_at, request_by};
ghost use Rattle.bac_requester.specs.Aging.{AreAged};
ghost use Rattle.bac_requester.specs.Reactions.{Asks};
ghost use Rattle.bac_requester.specs.Views.{end_of};

use crate::client::{Client, ClientRules};
use crate::outgoing_request::{OutgoingRequest, RequestWay};
use crate::transaction::ClientTransaction;
use bac_npdu::Peer;
use bac_service::{Request, write_request};
use bac_slots::{AgedTable, SlotTable, has_room, ranks_of_keys};
use bac_transaction::{Context, Datagram, PeerKey};
use bac_value::NoMemory;
use std::alloc::Global;

/// An accepted ask. The caller sends the datagrams, in order, and waits for the [`Ended`](crate::Ended) with its ticket.
#[derive(Drop)]
pub struct Asked {
    /// The ticket of the new transaction: how many asks were accepted before it.
    pub ticket: u64,
    /// Its invoke ID, which no other transaction with that peer holds.
    pub invoke_id: u8,
    /// The datagrams to send: the whole request, or the first window of its segments.
    pub sends: Vec<Datagram>,
}

/// Whether a slot has that key and is held.
fn is_held_as(found: &PeerKey, client: &Client, key: &PeerKey, now: u64) -> bool
    ensures { result ≡ (code_same_key found.now key.now && is_held now client.now.held) }
{
    found == key && client.is_held(now)
}

/// Whether a slot that is held has that invoke ID for the peer. `place` is the rank of that key in the order of the keys: only the slot there can
/// have it.
fn is_id_held<S: SlotTable<PeerKey, Client>>(
    table: &S,
    place: usize,
    peer: &Peer,
    invoke_id: u8,
    now: u64,
) -> bool
    requires { place ≡ rank code_key_cmp (record { peer = peer.now; invoke_id = invoke_id }) (S.slots table.now) }
    ensures { result ≡ is_id_held now (slots_view (S.slots table.now)) (peer_view peer.now) invoke_id }
{
    // what stands at the rank of a key, where keys are distinct
    ranks_of_keys::<PeerKey, Client>();
    // no two slots have one key
    let _slots = table.len();
    let key = PeerKey {
        peer: *peer,
        invoke_id,
    };
    match table.at(place) {
        Some((found, _, client)) => is_held_as(&found, client, &key, now),
        None => false,
    }
}

/// The least invoke ID from one on that is not held for the peer. The peer's slots stand side by side in the order of the keys: the first place is looked
/// up, and those that are held are walked over.
fn least_id_from<S: SlotTable<PeerKey, Client>>(
    table: &S,
    peer: &Peer,
    from: u8,
    now: u64,
) -> Option<u8>
    ensures { result ≡ least_not (is_id_held now (slots_view (S.slots table.now)) (peer_view peer.now)) (256 - from) from }
{
    // no two slots have one key, so behind a key that is there the rank of the next one is one more
    ranks_of_keys::<PeerKey, Client>();
    let _slots = table.len();
    let first = PeerKey {
        peer: *peer,
        invoke_id: from,
    };
    let mut place = table.rank(&first);
    for n in u16::from(from)..256 {
        // below 256, so no bit is lost
        let invoke_id = n as u8;
        if !is_id_held(table, place, peer, invoke_id, now) {
            return Some(invoke_id);
        }
        // its slot is here, so that of the next key is the next
        place += 1;
    }
    None
}

/// The least invoke ID from the first one on that is not held for the peer; where all are held up to 255, the least of all.
pub(crate) fn free_id<S: SlotTable<PeerKey, Client>>(
    table: &S,
    peer: &Peer,
    first_id: u8,
    now: u64,
) -> Option<u8>
    ensures { result ≡ least_around (is_id_held now (slots_view (S.slots table.now)) (peer_view peer.now)) first_id }
{
    match least_id_from(table, peer, first_id, now) {
        Some(invoke_id) => Some(invoke_id),
        None => least_id_from(table, peer, 0, now),
    }
}

/// Whether all slots are held, or there is no further ticket.
pub(crate) fn has_no_slot<S: SlotTable<PeerKey, Client>>(
    aged: &AgedTable<ClientRules, S>,
    asked: u64,
    now: u64,
) -> bool
    requires { AreAged aged.now.ages (S.slots aged.now.table) }
    ensures { (asks_from first_id : ℕ) → result ≡ has_no_slot now (end_of (S.slots aged.now.table) (S.capacity aged.now.table) asked asks_from first_id) }
{
    !has_room(aged, now) || asked == u64::MAX
}

/// Writes the service data of a request, and sends it for the first time.
pub(crate) fn begin(
    alloc: Global,
    context: &Context,
    way: RequestWay,
    request: Request<'_>,
) -> Result<(ClientTransaction, Vec<Datagram>), NoMemory>
    requires { IsWayFor way (length (request_spelling (request_view request))) }
    ensures { IfOk result (λ begun. IsBegun context.now (ask_at context.now.moment
        (request_by (choice_of (request_view request.entry)) (request_spelling (request_view request.entry)) way)) begun.0 begun.1.items) }
{
    let mut service = Vec::new(alloc);
    write_request(request, &mut service)?;
    let outgoing = OutgoingRequest::new(request.choice(), way, service);
    ClientTransaction::begin(alloc, context, outgoing)
}
