//! Whether an IP address has a share in the slots of the reply table, and how many of them it holds. `hearing` and `Responder` ask where slots are shared.
ghost use Rattle.std.specs.Prelude.{◌≡◌, ◌-◌, ◌*◌, ℕ, Option, Some, bytes_eq, count_by, min, nat_le, slice_get};
ghost use Rattle.bac_slots.specs.declared.slot.Slot.{Slot};
ghost use Rattle.bac_transaction.specs.Sharing.{address_of, has_share};
ghost use Rattle.bac_responder.specs.Sharing.{is_held};
ghost use Rattle.bac_responder.specs.Views.{end_of};

use crate::ServerTransaction;
use crate::aging::ServerAging;
use bac_npdu::LinkAddress;
use bac_slots::{AgedTable, SlotTable, count_alive};
use bac_transaction::PeerKey;

/// How many live entries an address may hold for each slot that stays free.
const MOST_HELD: usize = 15;

/// Whether two links have one IP address, whatever their ports.
fn is_same_address(link: &LinkAddress, other: &LinkAddress) -> bool
    ensures { result ≡ bytes_eq (address_of link.now) (address_of other.now) }
{
    let [a, b, c, d, _, _] = *link;
    let [e, f, g, h, _, _] = *other;
    [a, b, c, d] == [e, f, g, h]
}

/// Whether the n-th slot in order of insertion has a live entry of a peer at the address of a link.
fn is_held_at<S: SlotTable<PeerKey, ServerTransaction>>(
    table: &S,
    n: usize,
    now: u64,
    link: &LinkAddress,
) -> bool
    ensures { (s : Slot PeerKey ServerTransaction) → slice_get (S.slots table.now) n ≡ Some s → result ≡ is_held now link.now s }
{
    let Some((key, _, entry)) = table.by_age(n) else {
        return false;
    };
    is_same_address(&key.peer.link, link) && entry.is_live(now)
}

/// Whether at most so many slots have one. It looks at each key, the oldest first, until there are more.
pub(crate) fn holds_at_most<S: SlotTable<PeerKey, ServerTransaction>>(
    table: &S,
    now: u64,
    link: &LinkAddress,
    most: usize,
) -> bool
    ensures { result ≡ nat_le (count_by (is_held now link.now) (S.slots table.now)) most }
{
    let mut held = 0;
    for n in 0..table.len() {
        if is_held_at(table, n, now, link) {
            if held >= most {
                return false;
            }
            held += 1;
        }
    }
    true
}

/// How many live entries are at most 15 for each slot that stays free once one more of so many free slots is taken.
fn share_of(free: usize) -> usize
    ensures { result ≡ min (15 * (free - 1)) 18446744073709551615 }
{
    free.saturating_sub(1).saturating_mul(MOST_HELD)
}

/// Whether so many live entries are at most 15 for each slot that stays free once one more of so many free slots is taken.
fn is_share(held: usize, free: usize) -> bool
    ensures { result ≡ nat_le held (15 * (free - 1)) }
{
    held <= share_of(free)
}

/// Whether the address of a link has a share in the slots: it holds at most 15 live entries for each slot that stays free once one more begins. While fewer than
/// 15/16 of the slots are in use, no slot is looked at.
#[tactic(auto, using(crate::proofs::Shares::surely_shares, crate::proofs::Shares::shares_as_counted))]
pub(crate) fn has_share<S: SlotTable<PeerKey, ServerTransaction>>(
    aged: &AgedTable<ServerAging, S>,
    now: u64,
    link: &LinkAddress,
) -> bool
    ensures { (restart : Option ℕ) → result ≡ has_share now (address_of link.now) (end_of (S.slots aged.now.table) (S.capacity aged.now.table) restart) }
{
    let used = aged.table.len();
    let room = aged.table.room();
    // no address holds more live entries than there are slots in use
    if is_share(used, room - used) {
        return true;
    }
    let most = share_of(room - count_alive(aged, now));
    holds_at_most(&aged.table, now, link, most)
}
