//! The open transactions: a table in the order in which they began.
ghost use Rattle.std.specs.Prelude.{◌≡◌, ◌<◌, [], ◌∷◌, ◌++◌, None, length};
ghost use Rattle.std.specs.Option.{option_map};
ghost use Rattle.bac_slots.specs.Slots.{value_at, without};
ghost use Rattle.bac_explain.specs.Keys.{same_key};
ghost use Rattle.bac_explain.specs.KeyViews.{key_view};
ghost use Rattle.bac_explain.specs.Tables.{closed_at, full_out, is_oldest_over, oldest_out, over_out, room_for};
ghost use Rattle.bac_explain.specs.Closings.{closed_view};
ghost use Rattle.bac_explain.specs.Views.{first_key, slots_view, transaction_view};

use crate::key::TransactionKey;
use crate::transaction::Transaction;
use bac_slots::{IndexSlots, SlotTable, removing_a_slot};

/// The greatest number of open transactions (own).
pub const OPEN_LIMIT: usize = 16_384;

/// The transactions that are open.
pub(crate) type OpenTable = IndexSlots<TransactionKey, Transaction>;

/// A transaction that awaits nothing more.
#[derive(Debug, Drop)]
pub struct Closed {
    pub key: TransactionKey,
    pub transaction: Transaction,
}

/// The transaction with this key.
#[tactic(auto, using(crate::proofs::Seen::found_seen))]
pub(crate) fn find<'a>(table: &'a OpenTable, key: &TransactionKey) -> Option<&'a Transaction>
    ensures { option_map (λ t. transaction_view t.now) result ≡ value_at same_key (key_view key.now) (slots_view table.now.0) }
{
    table.get(key)
}

/// Removes the transaction with this key.
#[tactic(auto, using(crate::proofs::Seen::closed_none, crate::proofs::Seen::closed_some, crate::proofs::Seen::taken_seen, crate::proofs::Seen::none_seen))]
fn take_out(table: &mut OpenTable, key: &TransactionKey) -> Option<Closed>
    ensures closed { option_map closed_view result ≡ closed_at (key_view key.now) (slots_view table.old.0) }
    ensures slots { slots_view table.new.0 ≡ without same_key (key_view key.now) (slots_view table.old.0) }
    ensures absent { value_at same_key (key_view key.now) (slots_view table.new.0) ≡ None }
    ensures same { table.new.1 ≡ table.old.1 }
{
    removing_a_slot::<TransactionKey, Transaction>();
    let _len = table.len();
    match table.remove(key) {
        Some(transaction) => Some(Closed {
            key: *key,
            transaction,
        }),
        None => None,
    }
}

/// The key of the transaction that began first.
fn oldest_key(table: &OpenTable) -> Option<TransactionKey>
    ensures { result ≡ first_key table.now.0 }
{
    match table.by_age(0) {
        Some((key, _, _)) => Some(key),
        None => None,
    }
}

/// Removes the transaction that began first.
pub(crate) fn take_oldest(table: &mut OpenTable) -> Option<Closed>
    ensures closed { option_map closed_view result ≡ (oldest_out (slots_view table.old.0)).0 }
    ensures slots { slots_view table.new.0 ≡ (oldest_out (slots_view table.old.0)).1 }
    ensures same { table.new.1 ≡ table.old.1 }
{
    match oldest_key(table) {
        Some(key) => take_out(table, &key),
        None => None,
    }
}

/// Whether the transaction that began first awaits nothing more.
fn is_oldest_over(table: &OpenTable, now: u64) -> bool
    ensures { result ≡ is_oldest_over now (slots_view table.now.0) }
{
    match table.by_age(0) {
        Some((_, _, transaction)) => !transaction.is_awaited(now),
        None => false,
    }
}

/// Removes the transaction that began first, if it awaits nothing more.
pub(crate) fn take_over(table: &mut OpenTable, now: u64) -> Option<Closed>
    ensures closed { option_map closed_view result ≡ (over_out now (slots_view table.old.0)).0 }
    ensures slots { slots_view table.new.0 ≡ (over_out now (slots_view table.old.0)).1 }
    ensures same { table.new.1 ≡ table.old.1 }
{
    if !is_oldest_over(table, now) {
        return None;
    }
    take_oldest(table)
}

/// Removes the oldest transaction if the table has no room for another one.
fn take_if_full(table: &mut OpenTable) -> Option<Closed>
    ensures closed { option_map closed_view result ≡ (full_out (slots_view table.old.0)).0 }
    ensures slots { slots_view table.new.0 ≡ (full_out (slots_view table.old.0)).1 }
    ensures same { table.new.1 ≡ table.old.1 }
{
    if table.len() < OPEN_LIMIT {
        return None;
    }
    take_oldest(table)
}

/// Makes room for a transaction with this key: one with the same key is closed, or the oldest if too many are open.
fn make_room(table: &mut OpenTable, key: &TransactionKey) -> Option<Closed>
    requires { table.old.1 ≡ OPEN_LIMIT }
    ensures closed { option_map closed_view result ≡ (room_for (key_view key.now) (slots_view table.old.0)).0 }
    ensures slots { slots_view table.new.0 ≡ (room_for (key_view key.now) (slots_view table.old.0)).1 }
    ensures absent { value_at same_key (key_view key.now) (slots_view table.new.0) ≡ None }
    ensures room { length (slots_view table.new.0) < OPEN_LIMIT }
    ensures same { table.new.1 ≡ OPEN_LIMIT }
{
    let _len = table.len();
    match take_out(table, key) {
        Some(closed) => Some(closed),
        None => take_if_full(table),
    }
}

/// Adds a transaction with this key, as the last.
pub(crate) fn enter(
    table: &mut OpenTable,
    key: TransactionKey,
    now: u64,
    transaction: Transaction,
) -> Option<Closed>
    requires { table.old.1 ≡ OPEN_LIMIT }
    ensures closed { option_map closed_view result ≡ (room_for (key_view key) (slots_view table.old.0)).0 }
    ensures slots { slots_view table.new.0 ≡ (room_for (key_view key) (slots_view table.old.0)).1
        ++ record { key = key_view key; begin = now; value = transaction_view transaction } ∷ [] }
    ensures same { table.new.1 ≡ OPEN_LIMIT }
{
    let closed = make_room(table, &key);
    match table.put(key, now, transaction) {
        Ok(()) => closed,
        Err(_) => unreachable!(),
    }
}
