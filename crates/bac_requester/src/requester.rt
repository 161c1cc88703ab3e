//! The client's end: [`Requester`], the table of a node's own transactions.
//!
//! bac_node makes one for each node and calls it for each ask, APDU and tick; nothing else needs to. The methods and their contracts are the interface. The
//! fields may change.
ghost use Rattle.std.specs.Prelude.{◌≡◌, ◌≢◌, ℕ, ◌<◌, ◌≤◌, ◌↔◌, [], IfOk, IsErr, IsTrue, count_by};
ghost use Rattle.bac_apdu.specs.Views.{apdu_view, limits_view};
ghost use Rattle.bac_npdu.specs.Views.{peer_view};
ghost use Rattle.bac_service.specs.Requests.{SpellsRequest};
ghost use Rattle.bac_service.specs.Services.{reads_reply};
ghost use Rattle.bac_service.specs.Spellings.{request_spelling};
ghost use Rattle.bac_service.specs.Values.{choice_of};
ghost use Rattle.bac_service.specs.Views.{owned_request_view};
ghost use Rattle.bac_protocol.specs.Context.{Settings as Set};
ghost use Rattle.bac_protocol.specs.declared.times.TheConstants.{REST as REST_TIME};
ghost use Rattle.bac_transaction.specs.Ends.{CannotGo, first_after, requester_ask, key_of, requester_on_apdu, requester_tick, is_slot_held};
ghost use Rattle.bac_transaction.specs.Tables.{IsOrderlyClient};
ghost use Rattle.bac_transaction.specs.Ends.AskOutcome.{Refused};
ghost use Rattle.bac_transaction.specs.Views.{settings_view};
ghost use Rattle.bac_requester.specs.Timers.{LAST_MOMENT};
ghost use Rattle.bac_requester.specs.TransactionViews.{fault_view};
ghost use Rattle.bac_requester.specs.Short.{AreRepliesShort};
ghost use Rattle.bac_requester.specs.Reactions.{Asks, HasNoneOpen, IsReaction, OnApdu, Refuses};

use crate::ask_fault::AskFault;
use crate::asking::{Asked, begin, free_id, has_no_slot};
use crate::client::{Client, ClientRules, ShortReplies};
use crate::outgoing_request::{RequestFault, RequestWay};
use crate::reaction::{Ended, Reaction, nothing};
use crate::requester_on_apdu::requester_on_apdu;
use crate::requester_tick::prepare;
use crate::transaction_slot::TransactionSlot;
use bac_apdu::{Apdu, Limits};
use bac_npdu::Peer;
use bac_protocol::times::REST;
use bac_service::{OwnedRequest, request_len};
use bac_slots::{
    AgedTable, SlotTable, count_alive, each_slot, empty_table, enter, first_due, same_tables, tick,
};
use bac_transaction::{Context, PeerKey, Settings, invoke_id_of, is_waiting};
use bac_value::NoMemory;
use std::alloc::Global;
use std::marker::Model;

/// The client's end of a node: its transactions, in a table that is allocated once.
#[derive(Drop)]
pub struct Requester<S: SlotTable<PeerKey, Client> + Drop> {
    alloc: Global,
    aged: AgedTable<ClientRules, S>,
    // how many asks were accepted
    asked: u64,
    restart: Option<u64>,
    first_id: u8,
    // always empty; it has room for the next ending once a transaction goes on, so that no ending is lost
    room: Vec<Ended>,
}

impl<S: SlotTable<PeerKey, Client> + Drop> Model for Requester<S> {
    ghost use Rattle.bac_transaction.specs.Ends as ends;

    ghost Value = { ends.ClientEnd };

    ghost use Rattle.bac_requester.specs.Aging.{AreAged};
    ghost use Rattle.bac_requester.specs.Views.{end_of};
    ghost use Rattle.bac_transaction.specs.Ends.{first_after};
    ghost use Rattle.bac_protocol.specs.declared.times.TheConstants.{REST};

    ghost view = { λ r. end_of (S.slots r.aged.table) (S.capacity r.aged.table) r.asked (first_after REST r.restart) r.first_id };

    ghost use Rattle.std.specs.Prelude.{◌≡◌, []};

    ghost invariant = { λ r. AreAged r.aged.ages (S.slots r.aged.table) × (r.room.items ≡ []) };
}

/// Why a request can't go, as the fault of its ask.
fn fault_of(fault: RequestFault) -> AskFault
    ensures { Refuses result (Refused (CannotGo (fault_view fault))) }
{
    match fault {
        RequestFault::NeedsSegments => AskFault::NeedsSegments,
        RequestFault::TooLong => AskFault::TooLong,
    }
}

impl<S: SlotTable<PeerKey, Client> + Drop> Requester<S> {
    /// A client's end without transactions, with room for `slots` of them, whose invoke IDs begin at 0. `NoMemory` where the table can't be allocated.
    ///
    /// `restart` is the moment, in milliseconds, at which its node restarts and has lost what it had. It then refuses each ask while no more than
    /// 75,000 ms have passed since (own rule of this profile). Until then a copy of an old request, or an answer to one, may still arrive.
    pub fn new(alloc: Global, slots: usize, restart: Option<u64>) -> Result<Requester<S>, NoMemory>
        ensures { IfOk result (λ r. r ≡ record { slots = []; capacity = slots; asked = 0; asks_from = first_after REST_TIME restart; first_id = 0 }) }
    {
        let Ok(aged) = empty_table(alloc, slots) else {
            return Err(NoMemory);
        };
        Ok(Requester {
            alloc,
            aged,
            asked: 0,
            restart,
            first_id: 0,
            room: Vec::new(alloc),
        })
    }

    /// Sets where its invoke IDs begin from now on. An ask takes the least one from there on that is not held for the peer. Where all up to 255 are
    /// held, it takes the least of all.
    pub fn set_first_invoke_id(&mut self, first_id: u8)
        ensures { self.new ≡ record self.old { first_id = first_id } }
    {
        self.first_id = first_id;
    }

    /// Where its invoke IDs begin: 0, or what `set_first_invoke_id` set.
    pub fn first_id(&self) -> u8
        ensures { result ≡ self.now.first_id }
    {
        self.first_id
    }

    /// Asks a peer, of another link than the node's own, for a request. `limits` is what the peer takes (clause 20.1.2). The ask takes an invoke ID that is not
    /// held for the peer, as `set_first_invoke_id` says, and a slot that is not held. While the end waits after a restart, it is as if all invoke IDs were held.
    ///
    /// The fault is the first one that holds of `TooLong`, `NeedsSegments`, `NoInvokeId`, `NoSlot` and `NoMemory`; it allocates only where none of the others
    /// holds. It never returns `ClockBack` and `SelfPeer`. After a fault nothing has changed.
    pub fn ask(
        &mut self,
        settings: &Settings,
        now: u64,
        peer: &Peer,
        limits: &Limits,
        request: &OwnedRequest,
    ) -> Result<Asked, AskFault>
        ensures spelled { SpellsRequest (choice_of (owned_request_view request.now)) (owned_request_view request.now) (request_spelling (owned_request_view request.now)) }
        ensures asks { Asks (requester_ask (settings_view settings.now) now (peer_view peer.now) (limits_view limits.now)
            (choice_of (owned_request_view request.now)) (request_spelling (owned_request_view request.now)) self.old) self.old result self.new }
    {
        let request = request.as_request();
        let way = match RequestWay::of(settings, limits, request_len(request)) {
            Ok(way) => way,
            Err(fault) => return Err(fault_of(fault)),
        };
        // after a restart an old answer may still come, for any invoke ID
        if is_waiting(self.restart, REST, now) {
            return Err(AskFault::NoInvokeId);
        }
        let Some(invoke_id) = free_id(&self.aged.table, peer, self.first_id, now) else {
            return Err(AskFault::NoInvokeId);
        };
        if has_no_slot(&self.aged, self.asked, now) {
            return Err(AskFault::NoSlot);
        }
        let context = Context {
            settings: *settings,
            key: PeerKey {
                peer: *peer,
                invoke_id,
            },
            moment: now,
        };
        // all that can fail comes before the slot is taken
        let Ok((transaction, sends)) = begin(self.alloc, &context, way, request) else {
            return Err(AskFault::NoMemory);
        };
        let ticket = self.asked;
        let client = Client {
            number: ticket,
            held: TransactionSlot::Open(transaction),
        };
        enter(&mut self.aged, context.key, now, client);
        self.asked += 1;
        Ok(Asked {
            ticket,
            invoke_id,
            sends,
        })
    }

    /// An APDU comes from a peer at a moment, in milliseconds (clause 5.4.4). Call it for each APDU that the server of a transaction sends. Send what it hands
    /// out, in order, and report its ending, if there is one.
    ///
    /// Where no transaction is open for the peer and the invoke ID, it ignores the APDU, and allocates nothing. After `NoMemory` nothing has changed.
    pub fn on(
        &mut self,
        settings: &Settings,
        now: u64,
        peer: &Peer,
        apdu: &Apdu<'_>,
    ) -> Result<Reaction, NoMemory>
        ensures reacts { OnApdu (requester_on_apdu (settings_view settings.now) reads_reply now (peer_view peer.now) (apdu_view apdu.now) self.old) self.old result self.new }
        ensures none_open { HasNoneOpen self.old (key_of (peer_view peer.now) (apdu_view apdu.now)) → IsErr result → ⊥ }
    {
        let key = PeerKey {
            peer: *peer,
            invoke_id: invoke_id_of(apdu),
        };
        let context = Context {
            settings: *settings,
            key,
            moment: now,
        };
        requester_on_apdu(self.alloc, &context, &mut self.aged, &mut self.room, apdu)
    }

    /// What a tick sends and ends (clause 5.4.4), at a moment in milliseconds. Nothing changes: once the caller has all the memory that it needs, it calls
    /// `commit_tick` with the same moment, and sends. Before the first moment at which anything can be due it looks at no slot. `NoMemory` where the datagrams
    /// can't be allocated.
    pub fn prepare_tick(&self, settings: &Settings, now: u64) -> Result<Reaction, NoMemory>
        ensures { IfOk result (IsReaction (requester_tick (settings_view settings.now) now self.now)) }
    {
        if self.aged.ages.is_quiet(now) {
            return Ok(nothing(self.alloc));
        }
        prepare(self.alloc, settings, &self.aged.table, now)
    }

    /// Makes the tick of which `prepare_tick` says what it sends and ends. It allocates nothing. Before the first moment at which anything can be due it looks at
    /// no slot.
    pub fn commit_tick(&mut self, settings: &Settings, now: u64)
        ensures { self.new ≡ (requester_tick (settings_view settings.now) now self.old).end }
    {
        tick(&mut self.aged, settings, now);
    }

    /// The first moment, in milliseconds, at which the timer of a transaction runs out or a transaction expires (clause 5.4.4). It is the last moment
    /// of all where no transaction is open. A tick before it does nothing; one from it on does something. It looks at each slot.
    pub fn next_due(&self) -> u64
        ensures rests { (settings : Set) (now : ℕ) → now < result → requester_tick settings now self.now ≡ record { end = self.now; sends = []; ended = [] } }
        ensures moves { (settings : Set) (now : ℕ) → result ≤ now → result < LAST_MOMENT → (requester_tick settings now self.now).end ≢ self.now }
    {
        first_due(&self.aged.table, 0)
    }

    /// How many slots are held at a moment, in milliseconds. A slot is held while its transaction is open, and while no more than 135,000
    /// milliseconds have passed since the first sending (own rule of this profile). No two slots have one key, and there are no more of them than the
    /// capacity, whether they are held or not.
    pub fn held(&self, now: u64) -> usize
        ensures number { result ≡ count_by (is_slot_held now) self.now.slots }
        ensures within { result ≤ self.now.capacity }
        ensures orderly { IsOrderlyClient self.now }
    {
        // no two slots have one key, and there are no more than the table has room for
        let _len = self.aged.table.len();
        count_alive(&self.aged, now)
    }

    /// How many slots it was made with.
    pub fn capacity(&self) -> usize
        ensures { result ≡ self.now.capacity }
    {
        self.aged.table.room()
    }

    /// A law of each client's end: no transaction keeps more than 65,535 octets of a reply, or more than 65,535 segments. It goes over the table, and
    /// changes nothing.
    pub fn reassemblies_are_short(&self)
        ensures { AreRepliesShort self.now.slots }
    {
        each_slot(&self.aged.table, &ShortReplies);
    }

    /// Whether contracts see no difference between two requesters: the same slots in the same order, as many asks, the same restart, the
    /// same first invoke ID.
    pub fn same(&self, other: &Requester<S>) -> bool
        ensures { IsTrue result ↔ (self.now ≡ other.now) }
    {
        if self.restart != other.restart || self.first_id != other.first_id {
            return false;
        }
        self.asked == other.asked && same_tables(&self.aged.table, &other.aged.table)
    }
}
