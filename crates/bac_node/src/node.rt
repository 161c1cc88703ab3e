//! A node: [`Node`], a BACnet device that asks and answers, without input or output.
//!
//! A driver (bac_driver, bac_c, a program of your own) owns the socket and the clock. It calls [`Node::on`] for each datagram, [`Node::tick`] when something is
//! due, and [`Node::ask`] to begin a request; it sends what they return, and waits until [`Node::next_due`]. The methods, their contracts and [`Outcome`] are the
//! interface; the fields and the private methods may change.
ghost use Rattle.std.specs.Prelude.{◌≡◌, ◌≢◌, ◌↔◌, ℕ, ◌<◌, ◌≤◌, [], true, false, max, count_by};
ghost use Rattle.std.specs.Prelude.{IfErr, IfOk, IsErr, IsErrOf, IfSome, IsTrue, OnErr, OnOk, MatchOption, None};
ghost use Rattle.std.specs.Option.{option_map};
ghost use Rattle.bac_apdu.specs.Views.{apdu_view, limits_view};
ghost use Rattle.bac_npdu.specs.Views.{peer_view};
ghost use Rattle.bac_service.specs.Values.{Request};
ghost use Rattle.bac_service.specs.Views.{owned_request_view};
ghost use Rattle.bac_store.specs.AtNode.{change_fault, IsFaultOf};
ghost use Rattle.bac_store.specs.Replies.{reply_to};
ghost use Rattle.bac_store.specs.ReplyLengths.{DATA_LIMIT, reply_length};
ghost use Rattle.bac_store.specs.Views.{change_view};
ghost use Rattle.bac_slots.specs.Slots.{value_at};
ghost use Rattle.bac_transaction.specs.Keys.{same_key};
ghost use Rattle.bac_transaction.specs.Ends.{key_of, is_slot_held, is_slot_live, requester_tick, responder_tick};
ghost use Rattle.bac_transaction.specs.Tables.{AreLive, IsOrderlyClient, IsOrderlyServer};
ghost use Rattle.bac_transaction.specs.Views.{peer_key_view, rules_view, settings_view};
ghost use Rattle.bac_protocol.specs.Context.{Settings as Set};
ghost use Rattle.bac_transaction.specs.Sharing.{STRICT, address_of, has_share};
ghost use Rattle.bac_protocol.specs.Wire.{is_from_client};
ghost use Rattle.bac_requester.specs.Reactions.{HasNoneOpen};
ghost use Rattle.bac_requester.specs.Short.{AreRepliesShort};
ghost use Rattle.bac_responder.specs.Short.{AreRequestsShort};
ghost use Rattle.bac_world.specs.Keys.{HasKeysApart};
ghost use Rattle.bac_world.specs.Node.{NodeOn, NodeTick, IsHeardBy, restarted, with_change};
ghost use Rattle.bac_node.specs.Calls.{IsAsked, IsForNoneOpen, IsNotHeard, IsTickOfBoth, Refuses, ticked};
ghost use Rattle.bac_node.specs.Fresh.{fresh_node, has_large_slots, has_slots, has_slots_within, made_node, window_fits, with_first_id};
ghost use Rattle.bac_node.specs.Memory.{IsWithin, kept_octets};
ghost use Rattle.bac_node.specs.Serving.{DispatchesBy, IsServedBy, NodeServes};
ghost use Rattle.bac_node.specs.Views.{outcome_view};
ghost use Rattle.bac_node.specs.Waiting.{IsDueBy, MovesAt, RestsUntil};
ghost use Rattle.bac_requester.specs.Timers.{LAST_MOMENT};

mod restarting;

use crate::config::{Config, settings_of, slots_within};
use crate::ends::empty_ends;
use crate::fault::{NewNodeFault, NodeFault};
use crate::outcome::Outcome;
use crate::reading::{is_from_client, read_from};
use bac_apdu::{Apdu, Limits};
use bac_npdu::{LinkAddress, Peer};
use bac_requester::{AskFault, Asked, Client, Reaction, Requester};
use bac_responder::{Responder, ServerTransaction, Serving};
use bac_service::OwnedRequest;
use bac_slots::IndexSlots;
use bac_store::{Change, ChangeFault, Store, replies_can_be_sent};
use bac_transaction::{PeerKey, Rules, Settings};
use bac_value::NoMemory;
use std::alloc::Global;
use std::marker::Model;

/// A BACnet device on one link: the client's end with its asks, the server's end with its replies, and the store that the server performs requests on.
///
/// It does no input or output and reads no clock. All moments are in milliseconds from any beginning, and must not go back.
#[derive(Drop)]
pub struct Node {
    alloc: Global,
    link: LinkAddress,
    settings: Settings,
    latest: u64,
    clients: Requester<IndexSlots<PeerKey, Client>>,
    servers: Responder<IndexSlots<PeerKey, ServerTransaction>>,
    store: Store,
}

impl Model for Node {
    ghost use Rattle.bac_world.specs.Node as world;

    ghost Value = { world.Node };

    ghost use Rattle.bac_transaction.specs.Views.{settings_view};

    ghost view = { λ n. record { link = n.link; settings = settings_view n.settings; latest = n.latest; clients = n.clients; servers = n.servers; store = n.store } };
}

/// How many slots each table of a node has at the most.
const MOST_SLOTS: usize = 1_024;

/// How many slots each table of a node with large tables has at the most.
const MOST_LARGE_SLOTS: usize = 65_536;

impl Node {
    /// A new node with that store. Its latest moment is 0, and its invoke IDs begin at 0. Its tables are allocated here, once for all.
    ///
    /// `BadSlots` where a number of slots is not 1 to 1,024; otherwise `BadWindow` where the window is not 1 to 64; otherwise `NoMemory` where the tables can't
    /// be allocated.
    pub fn new(alloc: Global, config: Config, store: Store) -> Result<Node, NewNodeFault>
        ensures fresh { IfOk result (λ n. n ≡ fresh_node config store) }
        ensures slots { IsErrOf result NewNodeFault.BadSlots ↔ (has_slots config ≡ false) }
        ensures window { IsErrOf result NewNodeFault.BadWindow ↔ ((has_slots config ≡ true) × (window_fits config.window ≡ false)) }
    {
        Node::made(alloc, config, store, None, MOST_SLOTS)
    }

    /// A node that restarts at a moment, in milliseconds, after it has lost its transactions: its process was started again, or its power came back. Use it in
    /// place of `new` whenever the link may have had the node before.
    ///
    /// It waits, so that no old request is performed twice, and no answer to one is taken for another's (own rules of this profile). While no more
    /// than 65,000 ms have passed it answers each new request with an Abort of reason 0. While no more than 75,000 ms have passed it refuses each ask
    /// with `NoInvokeId`. The faults are those of `new`.
    pub fn restarted(
        alloc: Global,
        config: Config,
        store: Store,
        now: u64,
    ) -> Result<Node, NewNodeFault>
        ensures restarted { IfOk result (λ n. n ≡ restarted now store (fresh_node config store)) }
        ensures slots { IsErrOf result NewNodeFault.BadSlots ↔ (has_slots config ≡ false) }
        ensures window { IsErrOf result NewNodeFault.BadWindow ↔ ((has_slots config ≡ true) × (window_fits config.window ≡ false)) }
    {
        Node::made(alloc, config, store, Some(now), MOST_SLOTS)
    }

    /// A new node as one of `new`, with up to 65,536 slots in each table: for one that many ask, or that asks many, at once. Its memory is used as its slots are.
    ///
    /// `BadSlots` where a number of slots is not 1 to 65,536; the other faults are those of `new`.
    pub fn with_large_tables(
        alloc: Global,
        config: Config,
        store: Store,
    ) -> Result<Node, NewNodeFault>
        ensures fresh { IfOk result (λ n. n ≡ fresh_node config store) }
        ensures slots { IsErrOf result NewNodeFault.BadSlots ↔ (has_large_slots config ≡ false) }
        ensures window { IsErrOf result NewNodeFault.BadWindow ↔ ((has_large_slots config ≡ true) × (window_fits config.window ≡ false)) }
    {
        Node::made(alloc, config, store, None, MOST_LARGE_SLOTS)
    }

    /// A node that restarts at a moment, in milliseconds, as one of `restarted`, with up to 65,536 slots in each table. The faults are those of
    /// `with_large_tables`.
    pub fn restarted_with_large_tables(
        alloc: Global,
        config: Config,
        store: Store,
        now: u64,
    ) -> Result<Node, NewNodeFault>
        ensures restarted { IfOk result (λ n. n ≡ restarted now store (fresh_node config store)) }
        ensures slots { IsErrOf result NewNodeFault.BadSlots ↔ (has_large_slots config ≡ false) }
        ensures window { IsErrOf result NewNodeFault.BadWindow ↔ ((has_large_slots config ≡ true) × (window_fits config.window ≡ false)) }
    {
        Node::made(alloc, config, store, Some(now), MOST_LARGE_SLOTS)
    }

    /// A node without asks and entries, which restarts at that moment if there is one; its tables have so many slots at the most.
    fn made(
        alloc: Global,
        config: Config,
        store: Store,
        restart: Option<u64>,
        most: usize,
    ) -> Result<Node, NewNodeFault>
        ensures made { IfOk result (λ n. n ≡ made_node config store restart) }
        ensures slots { IsErrOf result NewNodeFault.BadSlots ↔ (has_slots_within most config ≡ false) }
        ensures window { IsErrOf result NewNodeFault.BadWindow ↔ ((has_slots_within most config ≡ true) × (window_fits config.window ≡ false)) }
    {
        if !slots_within(most, config.client_slots) || !slots_within(most, config.reply_slots) {
            return Err(NewNodeFault::BadSlots);
        }
        let Some(settings) = settings_of(&config) else {
            return Err(NewNodeFault::BadWindow);
        };
        let (clients, servers) = empty_ends(
            alloc,
            config.client_slots,
            config.reply_slots,
            restart,
            restart,
        )?;
        Ok(Node {
            alloc,
            link: config.link,
            settings,
            latest: restart.unwrap_or(0),
            clients,
            servers,
            store,
        })
    }

    /// Its own address on its link.
    pub fn link(&self) -> LinkAddress
        ensures { result ≡ self.now.link }
    {
        self.link
    }

    /// Its latest moment, in milliseconds: that of the last call that succeeded; 0 at first.
    pub fn latest(&self) -> u64
        ensures { result ≡ self.now.latest }
    {
        self.latest
    }

    /// Its settings.
    pub fn settings(&self) -> Settings
        ensures { settings_view result ≡ self.now.settings }
    {
        self.settings
    }

    /// Its store.
    pub fn store(&self) -> &Store
        ensures { result.now ≡ self.now.store }
    {
        &self.store
    }

    /// How many client slots it was made with.
    pub fn client_slots(&self) -> usize
        ensures { result ≡ self.now.clients.capacity }
    {
        self.clients.capacity()
    }

    /// How many slots of the reply table it was made with.
    pub fn reply_slots(&self) -> usize
        ensures { result ≡ self.now.servers.capacity }
    {
        self.servers.capacity()
    }

    /// How many client slots are held at a moment in milliseconds. A slot is held while its transaction is open, and while no more than 135,000 ms
    /// have passed since the first sending (own rule of this profile). No two slots have one key, and there are no more of them than the node was
    /// made with, whether they are held or not.
    pub fn held(&self, now: u64) -> usize
        ensures number { result ≡ count_by (is_slot_held now) self.now.clients.slots }
        ensures within { result ≤ self.now.clients.capacity }
        ensures orderly { IsOrderlyClient self.now.clients }
    {
        self.clients.held(now)
    }

    /// How many entries of the reply table are live at a moment in milliseconds: no more than 65,000 ms have passed since they began (own rule of
    /// this profile). No two entries have one key, and there are no more of them than the node was made with, whether they are live or not.
    pub fn live(&self, now: u64) -> usize
        ensures number { result ≡ count_by (is_slot_live now) self.now.servers.slots }
        ensures within { result ≤ self.now.servers.capacity }
        ensures orderly { IsOrderlyServer self.now.servers }
    {
        self.servers.live(now)
    }

    /// The first moment, in milliseconds, looked at from a moment on, at which a slot of its reply table has no live entry. It is 2^64 - 1 where
    /// there is none before. Until then a request that needs a slot gets an Abort of reason 0. It looks at each slot where all are in use.
    pub fn next_free(&self, from: u64) -> u64
        ensures from { from ≤ result }
        ensures full { (moment : ℕ) → from ≤ moment → moment < result
            → self.now.servers.capacity ≤ count_by (is_slot_live moment) self.now.servers.slots }
        ensures free { result < LAST_MOMENT → count_by (is_slot_live result) self.now.servers.slots < self.now.servers.capacity }
    {
        self.servers.next_free(from)
    }

    /// Whether the IP address of a link has a share in the slots of its reply table, as `Responder::has_share` says.
    pub fn has_share(&self, now: u64, link: &LinkAddress) -> bool
        ensures { result ≡ has_share now (address_of link.now) self.now.servers }
    {
        self.servers.has_share(now, link)
    }

    /// When the entry of its reply table for a request began, in milliseconds, by the peer that asked and the invoke ID; None where it keeps none for them. Call
    /// it to tell one performance for a peer from the next under the same invoke ID: their entries began more than 65,000 ms apart.
    pub fn entry_begin(&self, key: &PeerKey) -> Option<u64>
        ensures { result ≡ option_map (λ e. e.begin) (value_at same_key (peer_key_view key.now) self.now.servers.slots) }
    {
        self.servers.begin_of(key)
    }

    /// A law of each node, for a caller that was handed one: in each of its tables the slots have different keys. It goes over both tables, and changes
    /// nothing.
    pub fn keys_are_apart(&self)
        ensures { HasKeysApart self.now }
    {
        // the contract of each says that no two slots of its table have one key
        let _held = self.held(self.latest);
        let _live = self.live(self.latest);
    }

    /// A law of each node, for a caller that was handed one. No reassembly of a reply or of a request holds more than 65,535 octets, or more than
    /// 65,535 segments. It goes over both tables, and changes nothing.
    pub fn reassemblies_are_short(&self)
        ensures replies { AreRepliesShort self.now.clients.slots }
        ensures requests { AreRequestsShort self.now.servers.slots }
    {
        self.clients.reassemblies_are_short();
        self.servers.reassemblies_are_short();
    }

    /// A law of each node, for a caller that was handed one. Its window is 1 at least, and each reply of its store can be sent, in one APDU or in
    /// segments. It does nothing.
    pub fn replies_can_be_sent(&self)
        ensures window { 1 ≤ self.now.settings.window }
        ensures replies { (r : Request) → reply_length (reply_to self.now.store r) ≤ DATA_LIMIT }
    {
        // a `Window` has a segment at least, by the invariant of its fields
        let _window = self.settings.window.size;
        replies_can_be_sent(&self.store);
    }

    /// Whether a moment is before the latest one.
    fn is_before(&self, now: u64) -> bool
        ensures { IsTrue result ↔ (now < self.now.latest) }
    {
        now < self.latest
    }

    /// A datagram comes from a link, at a moment in milliseconds. Call it for each datagram that arrives, as soon as it arrives. Send what the outcome holds, in
    /// order, and then look at [`next_due`](Node::next_due) again, since the datagram may have started or stopped a timer.
    ///
    /// It drops a datagram that comes from the node's own address or means no APDU of a peer: then only the latest moment changes. For such a datagram, and for
    /// an APDU to the client's end that no open transaction waits for, it allocates nothing.
    ///
    /// It is `hear` with the strict rules, which put no bound on memory: `hear` has one. `ClockBack` exactly where the moment is before the latest one. `NoMemory`
    /// where memory can't be allocated: the caller may drop the datagram, since the peer sends it again. After a fault the node is as before.
    pub fn on(&mut self, now: u64, from: LinkAddress, octets: &[u8]) -> Result<Outcome, NodeFault>
        ensures went { IfOk result (λ o. NodeOn now from octets.now self.old self.new (outcome_view o)) }
        ensures away { IfOk result (λ o. NodeServes STRICT o.turned_away now from octets.now self.old self.new (outcome_view o)) }
        ensures early { IsErrOf result NodeFault.ClockBack ↔ (now < self.old.latest) }
        ensures dropped { IsNotHeard self.old.link from octets.now → IsErrOf result NodeFault.NoMemory → ⊥ }
        ensures none_open { IsForNoneOpen from octets.now self.old.clients → IsErrOf result NodeFault.NoMemory → ⊥ }
        ensures err { OnErr result (self.new ≡ self.old) }
    {
        self.hear(&Rules::strict(), now, from, octets)
    }

    /// A datagram comes from a link to a node of these rules. Call it with the same rules for all datagrams, or `on` for all.
    ///
    /// Where reads are performed anew, ReadProperty and AtomicReadFile without segments are performed each time that they come, from the store as it
    /// then is. One is not while a request of its peer and invoke ID still goes on. A read takes a slot only where its reply goes in segments, until
    /// the SegmentACK that finishes it, or an Abort of its client. A kept reply of another request goes again to that request alone: another one ends
    /// it and is performed.
    ///
    /// A new request that finds no free slot, or comes while the node waits after a restart, is turned away with an Abort of reason 0; `turned_away` of the outcome
    /// says so. Where slots are shared, so is one of an IP address that has no share: it holds more than 15 live entries for each slot that would stay free.
    ///
    /// The faults are those of `on`. `NoMemory` also where an APDU might make the server's end keep more than `memory` octets of service data. A
    /// request is taken to need room for its own, and for the longest reply and the place of a segment, 65,539 octets. With less than that, only what
    /// needs no room is heard. A repeat of a request that was received whole needs none, in segments or not. Nor, where reads are performed anew,
    /// does a read without segments whose reply is one APDU. What is kept already stays, but for entries that are not live, whose place a new one
    /// takes. Where slots are shared, only a request whose IP address holds no live entry but that of its own peer and invoke ID gets the last sixteenth of
    /// `memory`.
    pub fn hear(
        &mut self,
        rules: &Rules,
        now: u64,
        from: LinkAddress,
        octets: &[u8],
    ) -> Result<Outcome, NodeFault>
        ensures went { IfOk result (λ o. NodeServes (rules_view rules.now) o.turned_away now from octets.now self.old self.new (outcome_view o)) }
        ensures early { IsErrOf result NodeFault.ClockBack ↔ (now < self.old.latest) }
        ensures dropped { IsNotHeard self.old.link from octets.now → IsErrOf result NodeFault.NoMemory → ⊥ }
        ensures none_open { IsForNoneOpen from octets.now self.old.clients → IsErrOf result NodeFault.NoMemory → ⊥ }
        ensures within { OnOk result (IsWithin rules.now.memory self.old self.new) }
        ensures err { OnErr result (self.new ≡ self.old) }
    {
        if self.is_before(now) {
            return Err(NodeFault::ClockBack);
        }
        let (peer, apdu) = match read_from(self.link, from, octets) {
            Ok(read) => read,
            Err(cause) => {
                // a dropped datagram moves the latest moment, and nothing else
                self.latest = now;
                return Ok(Outcome::dropped(self.alloc, cause));
            }
        };
        Ok(self.dispatch(rules, now, &peer, &apdu)?)
    }

    /// Gives an APDU to the end that it is for: to the server's where the client of a transaction sends such, otherwise to the client's.
    fn dispatch(
        &mut self,
        rules: &Rules,
        now: u64,
        peer: &Peer,
        apdu: &Apdu<'_>,
    ) -> Result<Outcome, NoMemory>
        ensures dispatches { DispatchesBy (rules_view rules.now) now (peer_view peer.now) (apdu_view apdu.now) self.old result self.new }
        ensures within { OnOk result (IsWithin rules.now.memory self.old self.new) }
        ensures none_open { is_from_client (apdu_view apdu.now) ≡ false
            → HasNoneOpen self.old.clients (key_of (peer_view peer.now) (apdu_view apdu.now)) → IsErr result → ⊥ }
    {
        if is_from_client(apdu) {
            self.responder_on_apdu(rules, now, peer, apdu)
        } else {
            self.requester_on_apdu(now, peer, apdu)
        }
    }

    /// An APDU for the server's end.
    fn responder_on_apdu(
        &mut self,
        rules: &Rules,
        now: u64,
        peer: &Peer,
        apdu: &Apdu<'_>,
    ) -> Result<Outcome, NoMemory>
        ensures heard { IfOk result (λ o. IsServedBy (rules_view rules.now) o.turned_away (peer_view peer.now) (apdu_view apdu.now) now self.old self.new
            (outcome_view o)) }
        ensures within { OnOk result (IsWithin rules.now.memory self.old self.new) }
        ensures err { OnErr result (self.new ≡ self.old) }
    {
        // what is kept of a reply is no longer than memory has room for
        replies_can_be_sent(&self.store);
        let serving = Serving {
            settings: self.settings,
            rules: *rules,
        };
        let served = self
            .servers
            .on(self.alloc, &serving, now, peer, apdu, &mut self.store)?;
        // no room within the bound on memory counts as memory that ran out
        let Some(turn) = served else {
            return Err(NoMemory);
        };
        self.latest = now;
        Ok(Outcome {
            sends: turn.sends,
            effect: turn.act,
            ended: Vec::new(self.alloc),
            dropped: None,
            turned_away: turn.turned_away,
        })
    }

    /// An APDU for the client's end.
    fn requester_on_apdu(
        &mut self,
        now: u64,
        peer: &Peer,
        apdu: &Apdu<'_>,
    ) -> Result<Outcome, NoMemory>
        ensures same { self.new.servers ≡ self.old.servers }
        ensures away { IfOk result (λ o. o.turned_away ≡ false) }
        ensures heard { IfOk result (λ o. IsHeardBy false (peer_view peer.now) (apdu_view apdu.now) now self.old self.new (outcome_view o)) }
        ensures none_open { HasNoneOpen self.old.clients (key_of (peer_view peer.now) (apdu_view apdu.now)) → IsErr result → ⊥ }
        ensures err { OnErr result (self.new ≡ self.old) }
    {
        let Reaction { sends, ended } = self.clients.on(&self.settings, now, peer, apdu)?;
        self.latest = now;
        Ok(Outcome {
            sends,
            effect: None,
            ended,
            dropped: None,
            turned_away: false,
        })
    }

    /// Does all that is due at a moment in milliseconds: first at the client's end, then at the server's, each in ascending order of peer and invoke ID. Call
    /// it once the moment of [`next_due`](Node::next_due) has come; calling it earlier, or too often, does no harm. Send what the outcome holds, in order. Entries
    /// of the server's end that are not live any more, after 65,000 ms, are dropped, with all octets that they kept.
    ///
    /// `ClockBack` exactly where the moment is before the latest one. `NoMemory` where memory can't be allocated, which happens only where something is due:
    /// the caller may call again later. After a fault the node is as before.
    pub fn tick(&mut self, now: u64) -> Result<Outcome, NodeFault>
        ensures went { IfOk result (λ o. NodeTick now self.old self.new (outcome_view o)) }
        ensures early { IsErrOf result NodeFault.ClockBack ↔ (now < self.old.latest) }
        ensures away { IfOk result (λ o. o.turned_away ≡ false) }
        ensures live { OnOk result (AreLive now self.new.servers.slots) }
        ensures kept { kept_octets self.new ≤ kept_octets self.old }
        ensures due { now < LAST_MOMENT → IsErrOf result NodeFault.NoMemory → IsDueBy now self.old }
        ensures err { OnErr result (self.new ≡ self.old) }
    {
        let outcome = self.prepare_tick(now)?;
        self.commit_tick(now);
        Ok(outcome)
    }

    /// The outcome of a tick at that moment, in milliseconds, before [`commit_tick`](Node::commit_tick) makes it. Nothing changes. It is for callers that need
    /// more memory of their own before the node may change; others call [`tick`](Node::tick). The faults are those of `tick`.
    pub fn prepare_tick(&self, now: u64) -> Result<Outcome, NodeFault>
        ensures ticks { IfOk result (λ o. NodeTick now self.now (ticked now self.now) (outcome_view o)) }
        ensures away { IfOk result (λ o. o.turned_away ≡ false) }
        ensures early { IsErrOf result NodeFault.ClockBack ↔ (now < self.now.latest) }
        ensures due { now < LAST_MOMENT → IsErrOf result NodeFault.NoMemory → IsDueBy now self.now }
    {
        if self.is_before(now) {
            return Err(NodeFault::ClockBack);
        }
        let Reaction { sends, ended } = match self.tick_both(now) {
            Ok(reaction) => reaction,
            // a tick with nothing due needs no memory
            Err(NoMemory) if now < self.first_due() => Reaction {
                sends: Vec::new(self.alloc),
                ended: Vec::new(self.alloc),
            },
            Err(NoMemory) => return Err(NodeFault::NoMemory),
        };
        Ok(Outcome {
            sends,
            effect: None,
            ended,
            dropped: None,
            turned_away: false,
        })
    }

    /// What a tick of both ends sends and ends, joined.
    fn tick_both(&self, now: u64) -> Result<Reaction, NoMemory>
        ensures { IfOk result (IsTickOfBoth now self.now) }
    {
        let Reaction { mut sends, ended } = self.clients.prepare_tick(&self.settings, now)?;
        let mut more = self.servers.prepare_tick(self.alloc, &self.settings, now)?;
        // the client's datagrams leave before the server's
        sends.append(&mut more)?;
        Ok(Reaction { sends, ended })
    }

    /// Makes the tick of which [`prepare_tick`](Node::prepare_tick) returned the outcome, at the same moment. It allocates nothing.
    pub fn commit_tick(&mut self, now: u64)
        requires { self.old.latest ≤ now }
        ensures ticked { self.new ≡ ticked now self.old }
        ensures live { AreLive now self.new.servers.slots }
        ensures kept { kept_octets self.new ≤ kept_octets self.old }
    {
        self.clients.commit_tick(&self.settings, now);
        self.servers.commit_tick(&self.settings, now);
        self.latest = now;
    }

    /// The first moment at which a tick does anything, whether it is before the latest moment or not; the last moment of all where nothing is due before it.
    fn first_due(&self) -> u64
        ensures requester { (settings : Set) (now : ℕ) → now < result → requester_tick settings now self.now.clients ≡ record { end = self.now.clients; sends = []; ended = [] } }
        ensures responder { (settings : Set) (now : ℕ) → self.now.latest ≤ now → now < result
            → responder_tick settings now self.now.servers ≡ record { end = self.now.servers; sends = []; act = None } }
        ensures moves { result < LAST_MOMENT → MovesAt (max result self.now.latest) self.now }
    {
        self.clients
            .next_due()
            .min(self.servers.next_due(self.latest))
    }

    /// The first moment, in milliseconds, at which a tick does anything. Then a timer runs out, a transaction of the client expires (clauses 5.4.4
    /// and 5.4.5), or an entry of the server's end is not live any more. It is not before the latest moment. None where nothing is due before the
    /// last moment of all, 2^64 - 1.
    ///
    /// Call it after each `on`, `tick` and `ask`. Then wait for a datagram until that moment, or without end where it is None: a tick before it does
    /// nothing. Once the moment has come, call [`tick`](Node::tick). It looks at each slot.
    pub fn next_due(&self) -> Option<u64>
        ensures rests { MatchOption result (RestsUntil LAST_MOMENT self.now) (λ due. RestsUntil due self.now) }
        ensures moves { IfSome result (λ due. MovesAt due self.now) }
    {
        let due = self.first_due();
        // the last moment of all stands for no moment
        if due == u64::MAX {
            return None;
        }
        Some(due.max(self.latest))
    }

    /// Sets where its invoke IDs begin from now on. An ask takes the least one from there on that is not held for the peer. Where all up to 255 are
    /// held, it takes the least of all. A program that ends after a few asks should begin at a different one each time, say one from its clock. A
    /// server may still keep the reply to an ask of the program that used the same address before.
    pub fn set_first_invoke_id(&mut self, first_id: u8)
        ensures { self.new ≡ with_first_id first_id self.old }
    {
        self.clients.set_first_invoke_id(first_id);
    }

    /// Asks a peer for a request, at a moment in milliseconds. `limits` is what the peer takes of APDUs and of segments, as its device object says. Send what is
    /// returned, in order. The answer comes later, in the `ended` of an [`Outcome`](crate::Outcome), with the same ticket: within 60,000 ms, if the caller goes on to
    /// call `on` and `tick`.
    ///
    /// It takes an invoke ID that is not held for the peer, as `set_first_invoke_id` says, and a slot that is not held. The fault is the first of these that
    /// holds: `ClockBack`, the moment is before the latest one; `SelfPeer`, the peer is at the node's own address; `TooLong`, the request has more than 65,535
    /// octets; `NeedsSegments`, it needs more segments than the peer takes; `NoInvokeId` and `NoSlot`, all are held, so try again later; `NoMemory`. After a
    /// fault the node is as before.
    pub fn ask(
        &mut self,
        now: u64,
        peer: &Peer,
        limits: &Limits,
        request: &OwnedRequest,
    ) -> Result<Asked, AskFault>
        ensures asked { IfOk result (IsAsked now (peer_view peer.now) (limits_view limits.now) (owned_request_view request.now) self.old self.new) }
        ensures refused { IfErr result (λ e. Refuses e now (peer_view peer.now) (limits_view limits.now) (owned_request_view request.now) self.old) }
        ensures early { IsErrOf result AskFault.ClockBack ↔ (now < self.old.latest) }
        ensures err { OnErr result (self.new ≡ self.old) }
    {
        if self.is_before(now) {
            return Err(AskFault::ClockBack);
        }
        // it drops what comes from its own address, so no answer could come
        if peer.link == self.link {
            return Err(AskFault::SelfPeer);
        }
        match self.clients.ask(&self.settings, now, peer, limits, request) {
            Ok(asked) => {
                self.latest = now;
                Ok(asked)
            }
            Err(fault) => Err(fault),
        }
    }

    /// Changes its store at the node itself, without a request, as where a sensor has a new value. Nothing is sent.
    ///
    /// The faults are those of `Store::change`: tested in the order of their numbers, and memory last. After a fault the node is as before.
    pub fn change(&mut self, change: &Change) -> Result<(), ChangeFault>
        ensures may { OnOk result (change_fault self.old.store (change_view change.now) ≡ None) }
        ensures made { OnOk result (self.new ≡ with_change (change_view change.now) self.old) }
        ensures fault { IfErr result (IsFaultOf self.old.store (change_view change.now)) }
        ensures err { OnErr result (self.new ≡ self.old) }
    {
        self.store.change(self.alloc, change)
    }

    /// Whether contracts see no difference between two nodes: the same link, settings, latest moment, slots, entries and store.
    pub fn same(&self, other: &Node) -> bool
        ensures { IsTrue result ↔ (self.now ≡ other.now) }
    {
        if self.link != other.link {
            return false;
        }
        if self.settings != other.settings {
            return false;
        }
        if self.latest != other.latest {
            return false;
        }
        if !self.clients.same(&other.clients) {
            return false;
        }
        if !self.servers.same(&other.servers) {
            return false;
        }
        self.store.same(&other.store)
    }
}
