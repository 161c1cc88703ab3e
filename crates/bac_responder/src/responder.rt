//! The server's end: the calls that bac_node makes. Their contracts are what crates above rest on.
ghost use Rattle.std.specs.Prelude.{◌≡◌, ◌≢◌, ℕ, ◌<◌, ◌≤◌, ◌↔◌, [], None, Some, count_by, max, true, IfOk, IsTrue, OnOk};
ghost use Rattle.std.specs.Option.{option_map};
ghost use Rattle.bac_apdu.specs.Views.{apdu_view};
ghost use Rattle.bac_npdu.specs.Peers.{PeerView};
ghost use Rattle.bac_npdu.specs.Views.{peer_view};
ghost use Rattle.bac_slots.specs.Slots.{value_at};
ghost use Rattle.bac_protocol.specs.Context.{Settings as Set};
ghost use Rattle.bac_protocol.specs.declared.times.TheConstants.{KEEP as KEPT_FOR};
ghost use Rattle.bac_transaction.specs.Ends.{first_after, is_slot_live, key_of, responder_tick};
ghost use Rattle.bac_transaction.specs.Tables.{AreLive, IsOrderlyServer};
ghost use Rattle.bac_transaction.specs.Sends.{Pairwise, IsSent};
ghost use Rattle.bac_transaction.specs.Keys.{same_key};
ghost use Rattle.bac_transaction.specs.Views.{peer_key_view, rules_view, settings_view};
ghost use Rattle.bac_responder.specs.Timers.{LAST_MOMENT};
ghost use Rattle.bac_responder.specs.Short.{AreRequestsShort};
ghost use Rattle.bac_transaction.specs.Services.{service_of};
ghost use Rattle.bac_transaction.specs.Sharing.{address_of, has_share};
ghost use Rattle.bac_responder.specs.Hearing.{Hears};
ghost use Rattle.bac_responder.specs.Kept.{IsSharedBy, IsWithin, NeedsRoom, StaysWithin, growth, holds_another, kept_octets, most_of_one};

use crate::ServerTransaction;
use crate::aging::{ServerAging, ShortRequests};
use crate::freeing::first_dead;
use crate::hearing::{Told, on_apdu};
use crate::keeping::{
    count_octets, fits, given_back, is_none_live, key_octets, most_of_one, moved, service_len,
    without,
};
use crate::moments::{first_end, first_timer};
use crate::served::Served;
use crate::sharing::{has_share, holds_at_most};
use crate::ticking::{nothing_due, prepare};
use bac_apdu::Apdu;
use bac_npdu::{LinkAddress, Peer};
use bac_slots::{
    AgedTable, SlotTable, count_alive, each_slot, empty_table, remove_dead, same_tables, seek, tick,
};
use bac_store::Store;
use bac_transaction::{Context, Datagram, PeerKey, Rules, Settings, invoke_id_of};
use bac_value::NoMemory;
use std::alloc::Global;
use std::marker::Model;

/// How long no entries are counted again once there was no room, in milliseconds.
const PAUSE: u64 = 1_000;

/// What a server's end is told beside each APDU.
#[derive(Clone, Copy, Debug, PartialEq, Eq)]
pub struct Serving {
    pub settings: Settings,
    pub rules: Rules,
}

/// The server's end of a node: the reply table.
#[derive(Drop)]
pub struct Responder<S: SlotTable<PeerKey, ServerTransaction> + Drop> {
    aged: AgedTable<ServerAging, S>,
    restart: Option<u64>,
    // how many octets the entries keep at the most; None where that is not known
    kept: Option<usize>,
    // the moment from which on entries may be counted again
    counts_from: u64,
}

impl<S: SlotTable<PeerKey, ServerTransaction> + Drop> Model for Responder<S> {
    ghost use Rattle.bac_transaction.specs.Ends.{ServerEnd};

    ghost Value = { ServerEnd };

    ghost use Rattle.bac_responder.specs.Aging.{AreAged};
    ghost use Rattle.bac_responder.specs.Views.{end_of};

    ghost view = { λ r. end_of (S.slots r.aged.table) (S.capacity r.aged.table) r.restart };

    ghost use Rattle.std.specs.Prelude.{◌≤◌, IfSome};
    ghost use Rattle.bac_transaction.specs.Views.{slots_view};
    ghost use Rattle.bac_responder.specs.Kept.{kept_octets};

    ghost invariant = { λ r. AreAged r.aged.ages (S.slots r.aged.table) × IfSome r.kept (λ k. kept_octets (slots_view (S.slots r.aged.table)) ≤ k) };
}

impl<S: SlotTable<PeerKey, ServerTransaction> + Drop> Responder<S> {
    /// A server's end without entries, with room for so many slots; an Err where their allocation fails. Nothing takes memory for slots later.
    ///
    /// Where its node restarts at a moment, in milliseconds, it has lost its entries. It then turns each request away while no more than 65,000 ms
    /// have passed since (own rule of this profile). So long one that it performed before may still come again.
    pub fn new(alloc: Global, slots: usize, restart: Option<u64>) -> Result<Responder<S>, NoMemory>
        ensures { IfOk result (λ r. r ≡ record { slots = []; capacity = slots; serves_from = first_after KEPT_FOR restart }) }
    {
        let aged = empty_table(alloc, slots)?;
        Ok(Responder {
            aged,
            restart,
            kept: Some(0),
            counts_from: 0,
        })
    }

    /// How many entries are live. No two entries have one key, and there are no more of them than slots, whether they are live or not.
    pub fn live(&self, now: u64) -> usize
        ensures number { result ≡ count_by (is_slot_live now) self.now.slots }
        ensures within { result ≤ self.now.capacity }
        ensures orderly { IsOrderlyServer self.now }
    {
        // no two entries have one key, and there are no more than the table has room for
        let _len = self.aged.table.len();
        count_alive(&self.aged, now)
    }

    /// The first moment, in milliseconds, looked at from a moment on, at which a timer is due (clause 5.4.5) or an entry is not live any more. It is
    /// the last moment of all where there is none. A tick before it does nothing; at it, or at the moment looked from if that is later, one does
    /// something. Where a timer may run it looks at each slot, otherwise at the oldest one, as long as the moments of requests never went back.
    pub fn next_due(&self, from: u64) -> u64
        ensures rests { (settings : Set) (moment : ℕ) → from ≤ moment → moment < result
            → responder_tick settings moment self.now ≡ record { end = self.now; sends = []; act = None } }
        ensures moves { (settings : Set) → result < LAST_MOMENT → (responder_tick settings (max from result) self.now).end ≢ self.now }
    {
        first_timer(&self.aged, from).min(first_end(&self.aged))
    }

    /// The first moment, in milliseconds, looked at from a moment on, at which a slot has no live entry; the last moment of all where there is none
    /// before. So long a request that needs a slot is turned away. It looks at each slot where all are in use, otherwise at none.
    pub fn next_free(&self, from: u64) -> u64
        ensures from { from ≤ result }
        ensures full { (moment : ℕ) → from ≤ moment → moment < result → self.now.capacity ≤ count_by (is_slot_live moment) self.now.slots }
        ensures free { result < LAST_MOMENT → count_by (is_slot_live result) self.now.slots < self.now.capacity }
    {
        if self.aged.table.len() < self.aged.table.room() {
            return from;
        }
        from.max(first_dead(&self.aged.table))
    }

    /// Whether the IP address of a link has a share in the slots: it holds at most 15 live entries for each slot that stays free once one more begins. Where slots
    /// are shared, a new request that finds a free slot is turned away if it has none, unless it ends an entry.
    pub fn has_share(&self, now: u64, link: &LinkAddress) -> bool
        ensures { result ≡ has_share now (address_of link.now) self.now }
    {
        has_share(&self.aged, now, link)
    }

    /// How many slots it was made with.
    pub fn capacity(&self) -> usize
        ensures { result ≡ self.now.capacity }
    {
        self.aged.table.room()
    }

    /// The moment at which the entry of a key began, in milliseconds, whether it is live or not; None where it has none.
    pub fn begin_of(&self, key: &PeerKey) -> Option<u64>
        ensures { result ≡ option_map (λ e. e.begin) (value_at same_key (peer_key_view key.now) self.now.slots) }
    {
        match self.aged.table.get(key) {
            Some(entry) => Some(entry.begin()),
            None => None,
        }
    }

    /// A law of each server's end: no entry, live or not, keeps more than 65,535 octets of a request, or more than 65,535 segments. It goes over the table,
    /// and changes nothing.
    pub fn reassemblies_are_short(&self)
        ensures { AreRequestsShort self.now.slots }
    {
        each_slot(&self.aged.table, &ShortRequests);
    }

    /// Whether both have as many slots, with the same entries in the same order of putting, and the same restart.
    pub fn same(&self, other: &Responder<S>) -> bool
        ensures { IsTrue result ↔ (self.now ≡ other.now) }
    {
        self.restart == other.restart && same_tables(&self.aged.table, &other.aged.table)
    }

    /// Whether the address of a key holds another live entry. It looks at each key, the oldest first, until it finds one.
    fn holds_another(&self, now: u64, key: &PeerKey) -> bool
        ensures { result ≡ holds_another now (peer_key_view key.now) self.now }
    {
        let own = if is_none_live(&self.aged.table, key, now) {
            0
        } else {
            1
        };
        !holds_at_most(&self.aged.table, now, &key.peer.link, own)
    }

    /// Whether what the entries keep surely stays within so many octets, or does not grow, whatever an APDU makes of them. It looks at no entry.
    fn surely_has_room(&self, apdu: &Apdu<'_>, room: usize) -> bool
        ensures within { IsTrue result → (now : ℕ) (peer : PeerView) → StaysWithin (Some room) now peer (apdu_view apdu.now) self.now }
        ensures needless { growth (apdu_view apdu.now) ≡ 0 → IsTrue result }
    {
        // that no two entries have one key
        let _entries = self.aged.table.len();
        match service_len(apdu) {
            None => true,
            Some(len) => fits(self.kept, len, room),
        }
    }

    /// Whether what the entries keep stays within so many octets, or does not grow, whatever an APDU makes of them. What contracts see of the end does not change.
    fn has_room_for(&mut self, now: u64, key: &PeerKey, apdu: &Apdu<'_>, room: usize) -> bool
        requires { peer_key_view key.now ≡ key_of (peer_view key.now.peer) (apdu_view apdu.now) }
        ensures same { self.new ≡ self.old }
        ensures within { IsTrue result → StaysWithin (Some room) now (peer_view key.now.peer) (apdu_view apdu.now) self.old }
        ensures needless { growth (apdu_view apdu.now) ≡ 0 → IsTrue result }
    {
        // that no two entries have one key
        let _entries = self.aged.table.len();
        let Some(len) = service_len(apdu) else {
            return true;
        };
        if fits(self.kept, len, room) {
            return true;
        }
        if now < self.counts_from {
            return false;
        }
        // what is known is only a bound: count what is there
        self.kept = count_octets(&self.aged.table, false, now);
        if fits(self.kept, len, room) {
            return true;
        }
        // the new entry takes the place of those that are not live
        if is_none_live(&self.aged.table, key, now)
            && fits(count_octets(&self.aged.table, true, now), len, room)
        {
            return true;
        }
        // a flood of requests must not cost a walk over the table each
        self.counts_from = now.saturating_add(PAUSE);
        false
    }

    /// Whether there is room for an APDU where memory is shared: within its first 15/16 for an address that holds another live entry.
    fn has_shared_room(&mut self, memory: usize, now: u64, key: &PeerKey, apdu: &Apdu<'_>) -> bool
        requires { peer_key_view key.now ≡ key_of (peer_view key.now.peer) (apdu_view apdu.now) }
        ensures same { self.new ≡ self.old }
        ensures within { IsTrue result → StaysWithin (Some memory) now (peer_view key.now.peer) (apdu_view apdu.now) self.old }
        ensures shared { IsTrue result → holds_another now (peer_key_view key.now) self.old ≡ true
            → StaysWithin (Some (most_of_one memory)) now (peer_view key.now.peer) (apdu_view apdu.now) self.old }
        ensures needless { growth (apdu_view apdu.now) ≡ 0 → IsTrue result }
    {
        let most = most_of_one(memory);
        if self.surely_has_room(apdu, most) {
            return true;
        }
        if self.holds_another(now, key) {
            self.has_room_for(now, key, apdu, most)
        } else {
            self.has_room_for(now, key, apdu, memory)
        }
    }

    /// Whether there is room for an APDU within the bound on memory, as `has_room_for` says, or where it is shared, as `has_shared_room` does; true where there is
    /// no bound.
    fn has_room(&mut self, rules: &Rules, now: u64, key: &PeerKey, apdu: &Apdu<'_>) -> bool
        requires { peer_key_view key.now ≡ key_of (peer_view key.now.peer) (apdu_view apdu.now) }
        ensures same { self.new ≡ self.old }
        ensures within { IsTrue result → StaysWithin rules.now.memory now (peer_view key.now.peer) (apdu_view apdu.now) self.old }
        ensures shared { IsTrue result → (rules_view rules.now).share ≡ true → holds_another now (peer_key_view key.now) self.old ≡ true
            → StaysWithin (option_map most_of_one rules.now.memory) now (peer_view key.now.peer) (apdu_view apdu.now) self.old }
        ensures needless { growth (apdu_view apdu.now) ≡ 0 → IsTrue result }
        ensures bound { rules.now.memory ≡ None → IsTrue result }
    {
        match rules.memory {
            None => true,
            Some(memory) if rules.shares() => self.has_shared_room(memory, now, key, apdu),
            Some(memory) => self.has_room_for(now, key, apdu, memory),
        }
    }

    /// An APDU comes from a peer, at that moment in milliseconds. Call it for each APDU that a client can send, and then send all of `sends`, in
    /// their order. `act` is the request that was performed, if any; the store has changed by it already. Call it with the same rules for all APDUs.
    ///
    /// A new request is performed, or begins to be received, where a slot is free. A copy of one with a live entry is answered from the entry, and
    /// not performed again. A live entry is never evicted. Where no slot is free, or while the end waits after a restart, a new request is turned
    /// away, with an Abort of reason 0. So it is where slots are shared and the IP address of the peer has no share: it holds more than 15 live entries
    /// for each slot that would stay free. A request that ends an entry takes its slot in any case.
    ///
    /// Where reads are performed anew, the entry of a read that came without segments ends with its reply in segments. The SegmentACK that finishes
    /// the reply ends it, and an Abort of its client. Another entry is over once its reply of one APDU was sent, its reply in segments was
    /// acknowledged or aborted by its client, or its request was given up. Such an entry ends when a read comes without segments (ReadProperty,
    /// AtomicReadFile), or another request than the kept one: without segments, or segment 0 of it. The request is then performed, or begins to be
    /// received; the kept one still gets the kept reply. Where no entry of its peer and invoke ID goes on, a read whose reply is one APDU is
    /// performed. It needs no slot, no entry is kept of it, and it is not turned away.
    ///
    /// An entry that is over ends also, whatever request begins, where it began more than `remember` milliseconds ago: an equal one is then performed again.
    ///
    /// `memory` bounds the octets of service data that entries keep: of requests and replies, and of the segments of requests that are received, each
    /// with four more. None is returned where memory has no room, and nothing is done: drop the APDU as where memory ran out. A request is taken to
    /// need room for its own octets, and for the longest reply and the place of a segment, 65,539 octets; any other APDU needs none. Nor does a
    /// request with a live entry that goes on, unless it is a segment where segments are received. Nor does a read without segments whose reply is
    /// one APDU, where reads are performed anew. Entries that are not live count, but not where the request takes their place. Entries are counted
    /// one by one only where there seems to be no room, and once there was none, not again for 1,000 ms.
    ///
    /// Where slots are shared, so is memory: only a request whose IP address, whatever the port, holds no live entry but that of its own key gets the last
    /// sixteenth of `memory`. Keys are looked at only where there seems to be no room without it.
    ///
    /// An Err says that an allocation failed. The server's end and the store are then as before, and the same APDU can be handed in again.
    pub fn on(
        &mut self,
        alloc: Global,
        serving: &Serving,
        now: u64,
        peer: &Peer,
        apdu: &Apdu<'_>,
        store: &mut Store,
    ) -> Result<Option<Served>, NoMemory>
        ensures hears { Hears (rules_view serving.now.rules) (settings_view serving.now.settings) now (key_of (peer_view peer.now) (apdu_view apdu.now)) (apdu_view apdu.now)
            self.old store.old result self.new store.new }
        ensures within { OnOk result (IsWithin serving.now.rules.memory store.old self.old self.new) }
        ensures shared { OnOk result (IsSharedBy (rules_view serving.now.rules) serving.now.rules.memory store.old now (key_of (peer_view peer.now) (apdu_view apdu.now))
            self.old self.new) }
        ensures needless { IfOk result (λ o. o ≡ None → NeedsRoom (rules_view serving.now.rules) serving.now.rules.memory (settings_view serving.now.settings) now
            (service_of store.old) (peer_view peer.now) (apdu_view apdu.now) self.old) }
    {
        let key = PeerKey {
            peer: *peer,
            invoke_id: invoke_id_of(apdu),
        };
        let room = self.has_room(&serving.rules, now, &key, apdu);
        let told = Told {
            context: Context {
                settings: serving.settings,
                key,
                moment: now,
            },
            rules: serving.rules,
            restart: self.restart,
            room,
        };
        // the calls below ask for this key again
        seek(&mut self.aged, &key);
        // that no two entries have one key
        let _entries = self.aged.table.len();
        let before = key_octets(&self.aged.table, &key);
        let served = on_apdu(alloc, &told, &mut self.aged, apdu, store)?;
        self.kept = moved(self.kept, before, key_octets(&self.aged.table, &key));
        Ok(served)
    }

    /// What a tick sends, in ascending order of peer and invoke ID: the windows of replies that no SegmentACK came for in 2,000 ms, while a retry is left.
    /// Call `commit_tick` next, with the same settings and moment, and then send these. An Err says that an allocation failed, and nothing has changed. Before
    /// the first moment at which anything can be due no slot is looked at.
    pub fn prepare_tick(
        &self,
        alloc: Global,
        settings: &Settings,
        now: u64,
    ) -> Result<Vec<Datagram>, NoMemory>
        ensures { IfOk result (λ v. Pairwise IsSent (responder_tick (settings_view settings.now) now self.now).sends v.items) }
    {
        if self.aged.ages.is_quiet(now) {
            return Ok(nothing_due(alloc));
        }
        prepare(alloc, settings, &self.aged.table, now)
    }

    /// Time goes on for all entries, up to that moment in milliseconds, and those that are not live any more are dropped, with all that they kept.
    /// Call it after `prepare_tick`, at `next_due` or as often as suits. It takes no memory. Before the first moment at which a timer can be due it
    /// looks at those that it drops, and one more. That holds as long as the moments of requests never went back.
    pub fn commit_tick(&mut self, settings: &Settings, now: u64)
        ensures ticked { self.new ≡ (responder_tick (settings_view settings.now) now self.old).end }
        ensures live { AreLive now self.new.slots }
        ensures kept { kept_octets self.new.slots ≤ kept_octets self.old.slots }
    {
        tick(&mut self.aged, settings, now);
        let given_back = given_back(&self.aged.table, now);
        remove_dead(&mut self.aged, now);
        self.kept = without(self.kept, given_back);
    }
}
