//! An APDU comes for the client's end: its slot is looked up, and the open transaction in it goes on.
//!
//! `Requester::on` calls [`requester_on_apdu`]. All here is private to the crate.
ghost use Rattle.std.specs.Prelude.{◌≡◌, ℕ, [], IsErr};
ghost use Rattle.bac_apdu.specs.Views.{apdu_view};
ghost use Rattle.bac_transaction.specs.Views.{peer_key_view, settings_view};
ghost use Rattle.bac_requester.specs.Aging.{AreAged};
ghost use Rattle.bac_requester.specs.Reactions.{HasNoneOpen, IsClosed, OnApdu, OnApduInSlot, turn_at_key};
ghost use Rattle.bac_requester.specs.Views.{end_of};

use crate::client::{Client, ClientRules};
use crate::reaction::{Ended, Reaction, nothing};
use crate::transaction_slot::TransactionSlot;
use crate::transition::Transition;
use bac_apdu::Apdu;
use bac_slots::{Aged, AgedTable, SlotTable};
use bac_transaction::{Context, PeerKey};
use bac_value::NoMemory;
use std::alloc::Global;

impl Client {
    /// An APDU comes for the slot's transaction (clause 5.4.4). One that has ended ignores it, and allocates nothing. An open one first gets room to report its
    /// ending, and then goes on in its place. After `NoMemory` the slot is as before.
    fn on_apdu(
        &mut self,
        alloc: Global,
        context: &Context,
        room: &mut Vec<Ended>,
        apdu: &Apdu<'_>,
    ) -> Result<Reaction, NoMemory>
        requires { room.old.items ≡ [] }
        ensures reacts { OnApduInSlot context.now (apdu_view apdu.now) self.old result self.new }
        ensures closed { IsClosed self.old.held → IsErr result → ⊥ }
        ensures room { room.new.items ≡ [] }
    {
        let TransactionSlot::Open(transaction) = &mut self.held else {
            return Ok(nothing(alloc));
        };
        // first, so that an ending can be reported once the transaction has gone on
        room.reserve_exact(1)?;
        let Transition { sends, ending } = transaction.on_apdu(alloc, context, apdu)?;
        let Some(ending) = ending else {
            return Ok(Reaction {
                sends,
                ended: Vec::new(alloc),
            });
        };
        let first = transaction.first();
        self.held = TransactionSlot::Closed { first };
        // the vector with the room goes out; the next open transaction reserves anew
        let mut ended = std::mem::replace(room, Vec::new(alloc));
        ended.push_reserved(Ended {
            ticket: self.number,
            ending,
        });
        Ok(Reaction { sends, ended })
    }
}

/// An APDU comes for a key. Where no transaction is open for it, it is ignored, and nothing is allocated. `room` has room for one ending once a transaction
/// was open. After `NoMemory` the slots are as before.
pub(crate) fn requester_on_apdu<S: SlotTable<PeerKey, Client>>(
    alloc: Global,
    context: &Context,
    aged: &mut AgedTable<ClientRules, S>,
    room: &mut Vec<Ended>,
    apdu: &Apdu<'_>,
) -> Result<Reaction, NoMemory>
    requires aged { AreAged aged.old.ages (S.slots aged.old.table) }
    requires room { room.old.items ≡ [] }
    ensures turn { (asked asks_from first_id : ℕ) → OnApdu (turn_at_key (settings_view context.now.settings) context.now.moment (peer_key_view context.now.key)
        (apdu_view apdu.now) (end_of (S.slots aged.old.table) (S.capacity aged.old.table) asked asks_from first_id)) (end_of (S.slots aged.old.table)
        (S.capacity aged.old.table) asked asks_from first_id) result (end_of (S.slots aged.new.table) (S.capacity aged.new.table) asked asks_from first_id) }
    ensures none_open { (asked asks_from first_id : ℕ) → HasNoneOpen (end_of (S.slots aged.old.table) (S.capacity aged.old.table) asked asks_from first_id)
        (peer_key_view context.now.key) → IsErr result → ⊥ }
    ensures aged { AreAged aged.new.ages (S.slots aged.new.table) }
    ensures known { aged.new.ages.latest ≡ aged.old.ages.latest }
    ensures room { room.new.items ≡ [] }
{
    let from = aged.ages.from;
    let Some(slot) = aged.table.get_mut(&context.key) else {
        return Ok(nothing(alloc));
    };
    let reaction = slot.on_apdu(alloc, context, room, apdu)?;
    // its timer may now run out before all others
    let due = slot.due(from);
    aged.ages.comes_due(due);
    Ok(reaction)
}
