//! An APDU comes for one transaction, by the rules of its end: its entry goes on, or ends, or none is live. `Responder::on` calls `on_apdu`.
ghost use Rattle.std.specs.Prelude.{◌≡◌, ◌&&◌, ◌||◌, not, true, false, None};
ghost use Rattle.bac_apdu.specs.Views.{apdu_view};
ghost use Rattle.bac_slots.specs.Slots.{value_at};
ghost use Rattle.bac_slots.specs.Ages.{IsKnownBy};
ghost use Rattle.bac_protocol.specs.Server.{is_none_live, live_on_apdu};
ghost use Rattle.bac_protocol.specs.Serving.{begins_request, ends_entry, entry_left};
ghost use Rattle.bac_transaction.specs.Ends.{is_free};
ghost use Rattle.bac_transaction.specs.Sharing.{address_of, has_share, may_begin};
ghost use Rattle.bac_transaction.specs.Views.{code_same_key, context_view, peer_key_view, peer_of, rules_view, settings_view};
ghost use Rattle.bac_transaction.specs.Services.{service_of};
ghost use Rattle.bac_responder.specs.Aging.{AreAged};
ghost use Rattle.bac_responder.specs.Hearing.{GoesOn, HeedsRoom, HeedsRoomAt, Hears, code_slots_left};
ghost use Rattle.bac_responder.specs.Kept.{grows_none};
ghost use Rattle.bac_responder.specs.TransactionViews.{performed_view};
ghost use Rattle.bac_responder.specs.Turns.{acted_of};
ghost use Rattle.bac_responder.specs.Views.{acted_view, end_of};

use crate::aging::ServerAging;
use crate::beginning::{Begun, Space, idle_by};
use crate::ending::begins_request;
use crate::served::{Act, Served};
use crate::sharing::has_share;
use crate::{Performed, ServerTransaction};
use bac_apdu::Apdu;
use bac_protocol::times::KEEP;
use bac_slots::{AgedTable, SlotTable, enter, has_room, remove, removing_a_slot};
use bac_store::Store;
use bac_transaction::{Context, PeerKey, Rules, is_waiting};
use bac_value::NoMemory;
use std::alloc::Global;

/// What an APDU's transaction is told, and what its end is.
#[derive(Clone, Copy)]
pub(crate) struct Told {
    pub(crate) context: Context,
    pub(crate) rules: Rules,
    pub(crate) restart: Option<u64>,
    /// Whether memory has room for whatever the APDU makes of the end.
    pub(crate) room: bool,
}

/// What was sent, what was performed for that transaction, and whether it was turned away.
fn served(key: PeerKey, performed: Performed, turned_away: bool) -> Served
    ensures sends { result.sends.items ≡ performed.sends.items }
    ensures act { acted_view result.act ≡ acted_of (peer_key_view key) (performed_view performed.effect) }
    ensures away { result.turned_away ≡ turned_away }
{
    let Performed { sends, effect } = performed;
    match effect {
        None => Served {
            sends,
            act: None,
            turned_away,
        },
        Some(effect) => Served {
            sends,
            act: Some(Act { key, effect }),
            turned_away,
        },
    }
}

impl ServerTransaction {
    /// An APDU comes for the entry, which must be live and not end. None where memory has no room for what it adds.
    fn goes_on(
        &mut self,
        alloc: Global,
        told: &Told,
        apdu: &Apdu<'_>,
        store: &mut Store,
    ) -> Result<Option<Performed>, NoMemory>
        ensures does { GoesOn (live_on_apdu (context_view told.now.context) (service_of store.old) self.old self.old.state (apdu_view apdu.now))
            (peer_of told.now.context) self.old self.new store.old result store.new }
        ensures room { HeedsRoom told.now.room (grows_none self.old.state (apdu_view apdu.now)) result }
    {
        if !told.room && !self.state.grows_none(apdu) {
            return Ok(None);
        }
        let performed = self.on_apdu(alloc, &told.context, apdu, store)?;
        Ok(Some(performed))
    }
}

/// Whether an APDU begins a request, a slot has no live entry, and the end does not wait after a restart. For any other APDU no entry is looked at.
fn has_slot<S: SlotTable<PeerKey, ServerTransaction>>(
    aged: &AgedTable<ServerAging, S>,
    restart: Option<u64>,
    now: u64,
    apdu: &Apdu<'_>,
) -> bool
    requires { AreAged aged.now.ages (S.slots aged.now.table) }
    ensures { result ≡ (begins_request (apdu_view apdu.now) && is_free now (end_of (S.slots aged.now.table) (S.capacity aged.now.table) restart)) }
{
    begins_request(apdu) && has_room(aged, now) && !is_waiting(restart, KEEP, now)
}

/// Whether slots are not shared, or the address of the key has a share.
#[tactic(auto, using(crate::proofs::Shares::asked, crate::proofs::Shares::not_asked))]
fn has_share_if_shared<S: SlotTable<PeerKey, ServerTransaction>>(
    aged: &AgedTable<ServerAging, S>,
    told: &Told,
) -> bool
    ensures { result ≡ (not (rules_view told.now.rules).share || (false || has_share told.now.context.moment (address_of (peer_key_view told.now.context.key).peer.link)
        (end_of (S.slots aged.now.table) (S.capacity aged.now.table) told.now.restart))) }
{
    if told.rules.shares() {
        has_share(aged, told.context.moment, &told.context.key.peer.link)
    } else {
        true
    }
}

/// Whether an APDU begins a request that finds a free slot, as `has_slot` says, and where slots are shared, the address of the key has a share.
#[tactic(auto, using(crate::proofs::Shares::in_turn))]
fn has_place<S: SlotTable<PeerKey, ServerTransaction>>(
    aged: &AgedTable<ServerAging, S>,
    told: &Told,
    apdu: &Apdu<'_>,
) -> bool
    requires { AreAged aged.now.ages (S.slots aged.now.table) }
    ensures { result ≡ (begins_request (apdu_view apdu.now) && may_begin (rules_view told.now.rules).share false told.now.context.moment
        (peer_key_view told.now.context.key) (end_of (S.slots aged.now.table) (S.capacity aged.now.table) told.now.restart)) }
{
    let is_there = has_slot(aged, told.restart, told.context.moment, apdu);
    is_there && has_share_if_shared(aged, told)
}

/// Whether an APDU begins a request that finds a place, as `has_place` says. If the entry of its key ends, its own slot becomes free for it.
fn has_place_left<S: SlotTable<PeerKey, ServerTransaction>>(
    aged: &AgedTable<ServerAging, S>,
    told: &Told,
    ends: bool,
    apdu: &Apdu<'_>,
) -> bool
    requires aged { AreAged aged.now.ages (S.slots aged.now.table) }
    requires ends { ends ≡ ends_entry (rules_view told.now.rules).machine told.now.context.moment (value_at code_same_key told.now.context.key (S.slots aged.now.table))
        (apdu_view apdu.now) }
    ensures { result ≡ (begins_request (apdu_view apdu.now) && may_begin (rules_view told.now.rules).share ends told.now.context.moment
        (peer_key_view told.now.context.key)
        (end_of (code_slots_left ends told.now.context.key (S.slots aged.now.table)) (S.capacity aged.now.table) told.now.restart)) }
{
    if !ends {
        return has_place(aged, told, apdu);
    }
    // its own slot gets free: no more entries are live than there are slots
    let _len = aged.table.len();
    removing_a_slot::<PeerKey, ServerTransaction>();
    begins_request(apdu) && !is_waiting(told.restart, KEEP, told.context.moment)
}

/// The entry of the key ends, if it does.
fn end_entry<S: SlotTable<PeerKey, ServerTransaction>>(
    aged: &mut AgedTable<ServerAging, S>,
    key: &PeerKey,
    ends: bool,
)
    requires aged { AreAged aged.old.ages (S.slots aged.old.table) }
    ensures slots { S.slots aged.new.table ≡ code_slots_left ends key.now (S.slots aged.old.table) }
    ensures absent { ends ≡ true → value_at code_same_key key.now (S.slots aged.new.table) ≡ None }
    ensures same { S.capacity aged.new.table ≡ S.capacity aged.old.table }
    ensures ages { aged.new.ages ≡ aged.old.ages }
    ensures aged { AreAged aged.new.ages (S.slots aged.new.table) }
{
    if ends {
        remove(aged, key);
    }
}

/// No entry of the key is live, or the APDU ends the one that is. None where memory has no room.
fn begin<S: SlotTable<PeerKey, ServerTransaction>>(
    alloc: Global,
    told: &Told,
    aged: &mut AgedTable<ServerAging, S>,
    ends: bool,
    apdu: &Apdu<'_>,
    store: &mut Store,
) -> Result<Option<Served>, NoMemory>
    requires ends { ends ≡ ends_entry (rules_view told.now.rules).machine told.now.context.moment (value_at code_same_key told.now.context.key (S.slots aged.old.table))
        (apdu_view apdu.now) }
    requires none { is_none_live told.now.context.moment (entry_left (rules_view told.now.rules).machine told.now.context.moment
        (value_at code_same_key told.now.context.key (S.slots aged.old.table)) (apdu_view apdu.now)) ≡ true }
    requires aged { AreAged aged.old.ages (S.slots aged.old.table) }
    ensures hears { Hears (rules_view told.now.rules) (settings_view told.now.context.settings) told.now.context.moment (peer_key_view told.now.context.key) (apdu_view apdu.now)
        (end_of (S.slots aged.old.table) (S.capacity aged.old.table) told.now.restart) store.old result
        (end_of (S.slots aged.new.table) (S.capacity aged.new.table) told.now.restart) store.new }
    ensures aged { AreAged aged.new.ages (S.slots aged.new.table) }
    ensures known { IsKnownBy told.now.context.moment aged.old.ages.latest → IsKnownBy told.now.context.moment aged.new.ages.latest }
    ensures room { HeedsRoomAt told.now.room (rules_view told.now.rules) (settings_view told.now.context.settings) told.now.context.moment
        (peer_key_view told.now.context.key) (apdu_view apdu.now) (end_of (S.slots aged.old.table) (S.capacity aged.old.table) told.now.restart) store.old result }
{
    let key = told.context.key;
    let space = Space {
        free: has_place_left(aged, told, ends, apdu),
        room: told.room,
    };
    let begun = idle_by(alloc, &told.context, told.rules.reads, space, apdu, store)?;
    let Some(
        Begun {
            performed,
            entry,
            turned_away,
        },
    ) = begun
    else {
        return Ok(None);
    };
    // nothing fails from here on: the old entry goes, and the new one takes its place
    end_entry(aged, &key, ends);
    match entry {
        None => Ok(Some(served(key, performed, turned_away))),
        Some(transaction) => {
            enter(aged, key, told.context.moment, transaction);
            Ok(Some(served(key, performed, turned_away)))
        }
    }
}

/// An APDU comes for the told key. Its entry is looked up once; one that is live and does not end goes on in its slot. None where memory has no room.
pub(crate) fn on_apdu<S: SlotTable<PeerKey, ServerTransaction>>(
    alloc: Global,
    told: &Told,
    aged: &mut AgedTable<ServerAging, S>,
    apdu: &Apdu<'_>,
    store: &mut Store,
) -> Result<Option<Served>, NoMemory>
    requires aged { AreAged aged.old.ages (S.slots aged.old.table) }
    ensures hears { Hears (rules_view told.now.rules) (settings_view told.now.context.settings) told.now.context.moment (peer_key_view told.now.context.key) (apdu_view apdu.now)
        (end_of (S.slots aged.old.table) (S.capacity aged.old.table) told.now.restart) store.old result
        (end_of (S.slots aged.new.table) (S.capacity aged.new.table) told.now.restart) store.new }
    ensures aged { AreAged aged.new.ages (S.slots aged.new.table) }
    ensures known { IsKnownBy told.now.context.moment aged.old.ages.latest → IsKnownBy told.now.context.moment aged.new.ages.latest }
    ensures room { HeedsRoomAt told.now.room (rules_view told.now.rules) (settings_view told.now.context.settings) told.now.context.moment
        (peer_key_view told.now.context.key) (apdu_view apdu.now) (end_of (S.slots aged.old.table) (S.capacity aged.old.table) told.now.restart) store.old result }
{
    let now = told.context.moment;
    // that no two entries have one key
    let _entries = aged.table.len();
    let from = aged.ages.from;
    let Some(slot) = aged.table.get_mut(&told.context.key) else {
        return begin(alloc, told, aged, false, apdu, store);
    };
    if !slot.is_live(now) {
        return begin(alloc, told, aged, false, apdu, store);
    }
    if slot.is_ended(&told.rules, now, apdu) {
        return begin(alloc, told, aged, true, apdu, store);
    }
    match slot.goes_on(alloc, told, apdu, store) {
        Ok(Some(performed)) => {
            // its timer may now run out before all others
            let due = slot.due(from);
            aged.ages.comes_due(due);
            Ok(Some(served(told.context.key, performed, false)))
        }
        Ok(None) => Ok(None),
        Err(_) => Err(NoMemory),
    }
}
