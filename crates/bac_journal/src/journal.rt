//! What a simulated network keeps beside its nodes.
ghost use Rattle.std.specs.Prelude.{◌≡◌, ◌↔◌, ◌+◌, ◌*◌, ◌<◌, ◌≤◌, ◌≢◌, ℕ, IfOk, IfSome, IsNone, IsSome};
ghost use Rattle.std.specs.Prelude.{IsTrue, OnOk, OnErr, List, [], ◌∷◌, None, Some, length, map, nat_le, true, slice_get};
ghost use Rattle.bac_protocol.specs.Pace.{clock_at, most};
ghost use Rattle.bac_world.specs.Node.{Node};
ghost use Rattle.bac_world.specs.World as world;
ghost use Rattle.bac_world.specs.World.{ask_of, is_away, is_deliverable, newest, passes, with_act, with_ask, with_clock, with_life, with_restart};
ghost use Rattle.bac_journal.specs.Clocks.{clock_of, drift_of, fresh_clocks, later_by, pace_of, paced, parts_of, restart_at, restarted_own, steps_of, time_of};
ghost use Rattle.bac_journal.specs.Entering.{tickets_of};
ghost use Rattle.bac_journal.specs.Growing.{BecomeCopies, CanGo};
ghost use Rattle.bac_journal.specs.Journals.{AreEmpty, AreFresh, AreSame, HasNoteRoom, HasStrangerRoom, IsFreshRow, JournalView};
ghost use Rattle.bac_journal.specs.Lives.{fresh_life, lives_at};
ghost use Rattle.bac_journal.specs.Notes.{note_view, notes_view};
ghost use Rattle.bac_journal.specs.Views.{copy_view, key_view, AreLinks};

use crate::arriving::deliverable;
use crate::asks::{Cell, Row, known, number_of, reserve_ask, reserve_ticket};
use crate::clocks::{OwnClocks, Pace, pass, restart, set_rate, starting_clocks, told};
use crate::comparing::{
    are_same_clocks, are_same_copies, are_same_links, are_same_lives, are_same_notes,
};
use crate::copies::{Copy, node_at};
use crate::lives::{Life, fresh_lives, most_time};
use crate::noting::{Note, add_note, add_stranger_note, is_of_stranger};
use crate::sending::send_all;
use crate::transaction::Transaction;
use bac_npdu::LinkAddress;
use bac_protocol::times::{DEADLINE, KEEP, LIFE};
use bac_transaction::Datagram;
use bac_value::NoMemory;
use std::alloc::Global;
use std::marker::Model;

/// What a simulated network keeps beside its nodes: their links, time and clocks, and the copies of the datagrams that they sent. Whether a copy may arrive is
/// known from counts, so it costs the same however many there are.
#[derive(Drop)]
pub struct Journal {
    links: Vec<LinkAddress>,
    moment: u64,
    own: Option<OwnClocks>,
    lives: Vec<Life>,
    copies: Vec<Copy>,
    notes: Vec<Note>,
    rows: Vec<Row>,
}

impl Model for Journal {
    ghost use Rattle.std.specs.Prelude.{◌≡◌, length, map};
    ghost use Rattle.bac_journal.specs.Clocks.{MayGo, view_of_own};
    ghost use Rattle.bac_journal.specs.Journals.{JournalView, note_room_of, view_of};
    ghost use Rattle.bac_journal.specs.Notes.{notes_view};
    ghost use Rattle.bac_journal.specs.Records.{IsKept};

    ghost Value = { JournalView };

    ghost view = { λ j. view_of j.links.items j.moment (view_of_own j.own) j.lives.items j.copies.items j.copies.cap j.notes.items
        (note_room_of j.notes.items j.notes.cap j.rows.items) };

    ghost invariant = { λ j. IsKept j.rows.items j.copies.items (notes_view j.notes.items) × (length j.rows.items ≡ length j.links.items)
        × MayGo j.moment (length j.links.items) (view_of_own j.own) × (length j.lives.items ≡ length j.links.items) };
}

/// So many empty pages: each gets its cells as its server is asked.
fn empty_pages(alloc: Global, nodes: usize) -> Result<Vec<Vec<Cell>>, NoMemory>
    ensures many { IfOk result (λ pages. length pages.items ≡ nodes) }
    ensures empty { IfOk result (λ pages. AreEmpty pages.items) }
{
    let mut pages = Vec::with_capacity(alloc, nodes)?;
    for _node in 0..nodes {
        pages.push(Vec::new(alloc))?;
    }
    Ok(pages)
}

/// What is kept of a node as a client that has asked nothing, beside so many nodes.
fn fresh_row(alloc: Global, nodes: usize) -> Result<Row, NoMemory>
    ensures { IfOk result (IsFreshRow nodes) }
{
    Ok(Row {
        pages: empty_pages(alloc, nodes)?,
        numbers: Vec::new(alloc),
    })
}

/// What is kept of so many nodes that have asked nothing.
fn fresh_rows(alloc: Global, nodes: usize) -> Result<Vec<Row>, NoMemory>
    ensures many { IfOk result (λ rows. length rows.items ≡ nodes) }
    ensures fresh { IfOk result (λ rows. AreFresh nodes rows.items) }
{
    let mut rows = Vec::with_capacity(alloc, nodes)?;
    for _node in 0..nodes {
        rows.push(fresh_row(alloc, nodes)?)?;
    }
    Ok(rows)
}

impl Journal {
    /// Nothing has happened: the moment is 0. Places for the transactions of a client and a server are made as the one asks the other (`reserve_note`).
    /// `NoMemory` where memory is refused.
    pub fn new(alloc: Global, links: Vec<LinkAddress>) -> Result<Journal, NoMemory>
        ensures { IfOk result (λ j. j ≡ record (j) { links = links.items; moment = 0; own = None; lives = map fresh_life links.items; copies = []; notes = [] }) }
    {
        let lives = fresh_lives(alloc, &links)?;
        let rows = fresh_rows(alloc, links.len())?;
        Ok(Journal {
            links,
            moment: 0,
            own: None,
            lives,
            copies: Vec::new(alloc),
            notes: Vec::new(alloc),
            rows,
        })
    }

    /// The same, where each node has a clock of its own, with that pace and from that start on, in milliseconds.
    pub fn with_clocks(
        alloc: Global,
        links: Vec<LinkAddress>,
        pace: Pace,
        starts: &[u32],
    ) -> Result<Journal, NoMemory>
        requires slow { pace.drift < 1000000 }
        requires each { length starts.now ≡ length links.items }
        ensures { IfOk result (λ j. j ≡ record (j) {
          links = links.items;
          moment = 0;
          own = Some (fresh_clocks pace.drift pace.life starts.now);
          lives = map fresh_life links.items;
          copies = [];
          notes = [];
        }) }
    {
        let lives = fresh_lives(alloc, &links)?;
        let rows = fresh_rows(alloc, links.len())?;
        let nodes = starting_clocks(alloc, starts)?;
        Ok(Journal {
            links,
            moment: 0,
            own: Some(OwnClocks {
                elapsed: 0,
                pace,
                nodes,
            }),
            lives,
            copies: Vec::new(alloc),
            notes: Vec::new(alloc),
            rows,
        })
    }

    /// The moment of real time, in parts of a millisecond (`parts`).
    pub fn now(&self) -> u64
        ensures { result ≡ self.now.moment }
    {
        self.moment
    }

    /// The copies, oldest first; they are numbered from 0.
    pub fn copies(&self) -> &[Copy]
        ensures { map copy_view result.now ≡ self.now.copies }
    {
        &self.copies
    }

    /// What was noted of asks, oldest first; they are numbered from 0.
    pub fn notes(&self) -> &[Note]
        ensures { notes_view result.now ≡ self.now.notes }
    {
        &self.notes
    }

    /// How many parts a millisecond has: 1, and 1,000,000 where nodes have clocks of their own.
    pub fn parts(&self) -> u64
        ensures { result ≡ parts_of self.now.own }
    {
        match &self.own {
            Some(_own) => 1_000_000,
            None => 1,
        }
    }

    /// By how many parts in a million a node's clock may be fast or slow.
    pub fn drift(&self) -> u32
        ensures { result ≡ drift_of self.now.own }
    {
        match &self.own {
            Some(own) => own.pace.drift,
            None => 0,
        }
    }

    /// What a node is told: the whole milliseconds of its clock.
    pub fn told(&self, node: usize) -> u64
        ensures { result ≡ (clock_of self.now.moment self.now.own node).shows }
    {
        told(&self.own, self.moment, node)
    }

    /// What a node is told that restarts now.
    pub fn told_at_restart(&self) -> u64
        ensures { result ≡ (clock_at (pace_of self.now.own) (restart_at self.now.moment self.now.own)).shows }
    {
        match &self.own {
            Some(_own) => 0,
            None => self.moment,
        }
    }

    /// Time passes, so many milliseconds, and each clock goes on; None, and nothing changes, where the moment would pass 64 bits.
    #[tactic(auto, using(crate::proofs::Passing::time_passes, crate::proofs::Passing::may_later))]
    pub fn advance(&mut self, by: u64) -> Option<()>
        ensures some { IsSome result → self.new
            ≡ record (self.old) { moment = self.old.moment + parts_of self.old.own * by; own = later_by by self.old.own } }
        ensures time { IsSome result → time_of self.new.moment self.new.own
            ≡ passes (time_of self.old.moment self.old.own) (parts_of self.old.own * by) (steps_of self.old.own by) }
        ensures none { IsNone result → self.new ≡ self.old }
        ensures passes { IsNone result ↔ (u64.MAX < self.old.moment + parts_of self.old.own * by) }
    {
        let parts = self.parts().checked_mul(by)?;
        self.moment = self.moment.checked_add(parts)?;
        pass(&mut self.own, by);
        Some(())
    }

    /// From now on a node's clock goes on by so many parts in each millisecond, which is within the drift. Where all nodes have one clock nothing changes.
    pub fn set_rate(&mut self, node: usize, rate: u32)
        requires there { node < length self.old.links }
        requires slow { 1000000 ≤ rate + drift_of self.old.own }
        requires fast { rate ≤ 1000000 + drift_of self.old.own }
        ensures is { self.new ≡ record (self.old) { own = paced node rate self.old.own } }
        ensures time { time_of self.new.moment self.new.own ≡ time_of self.old.moment self.old.own }
    {
        set_rate(&mut self.own, node, rate);
    }

    /// A node's clock begins anew at 0, where it has its own.
    pub fn restart_clock(&mut self, node: usize)
        requires { node < length self.old.links }
        ensures is { self.new ≡ record (self.old) { own = restarted_own node self.old.own } }
        ensures time { time_of self.new.moment self.new.own
            ≡ with_clock (time_of self.old.moment self.old.own) node (restart_at self.old.moment self.old.own) }
    {
        restart(&mut self.own, node);
    }

    /// Whether anything happened at a node so far.
    pub fn is_active(&self, node: usize) -> bool
        ensures { result ≡ (lives_at self.now.lives node).active }
    {
        match self.lives.get(node) {
            Some(life) => life.active,
            None => false,
        }
    }

    /// Whether all is over that a node's client sent: no copy of it can arrive, nor any for which a server's entry lives that it began.
    pub fn is_quiet(&self, node: usize) -> bool
        requires { node < length self.now.links }
        ensures { result ≡ nat_le ((lives_at self.now.lives node).sends_until + (pace_of self.now.own).life + most (pace_of self.now.own) KEEP
            + (pace_of self.now.own).life) self.now.moment }
    {
        let life = u128::from(self.life());
        let kept = u128::from(most_time(&self.own, KEEP));
        let over = life + kept + life;
        let now = u128::from(self.moment);
        over <= now && self.lives[node].sends_until <= now - over
    }

    /// Something happens at a node. It takes no memory.
    pub fn act(&mut self, node: usize)
        requires { node < length self.old.links }
        ensures is { self.new ≡ record (self.old) { lives = self.new.lives } }
        ensures lives { lives_at self.new.lives ≡ with_act (lives_at self.old.lives) node }
    {
        let sends_until = self.lives[node].sends_until;
        self.set_life(node, sends_until);
    }

    /// A node asks another one: it sends for that no longer than its deadline lasts. It takes no memory.
    pub fn begin_ask(&mut self, node: usize)
        requires { node < length self.old.links }
        ensures is { self.new ≡ record (self.old) { lives = self.new.lives } }
        ensures lives { lives_at self.new.lives ≡ with_ask (time_of self.old.moment self.old.own) (lives_at self.old.lives) node }
    {
        let longest = u128::from(most_time(&self.own, DEADLINE));
        self.set_life(node, u128::from(self.moment) + longest + 1);
    }

    /// A node restarts: it sends nothing more for what it asked before. It takes no memory.
    pub fn end_asks(&mut self, node: usize)
        requires { node < length self.old.links }
        ensures is { self.new ≡ record (self.old) { lives = self.new.lives } }
        ensures lives { lives_at self.new.lives ≡ with_restart (time_of self.old.moment self.old.own) (lives_at self.old.lives) node }
    {
        let next = u128::from(self.moment) + 1;
        let sends_until = self.lives[node].sends_until.min(next);
        self.set_life(node, sends_until);
    }

    /// Something happens at a node, and from that moment on its client sends nothing for what it asked so far.
    fn set_life(&mut self, node: usize, sends_until: u128)
        requires { node < length self.old.links }
        ensures is { self.new ≡ record (self.old) { lives = self.new.lives } }
        ensures lives { lives_at self.new.lives ≡ with_life (lives_at self.old.lives) node (record { active = true; sends_until = sends_until }) }
    {
        self.lives[node] = Life {
            active: true,
            sends_until,
        };
    }

    /// How long a copy may be under way after its sending, in parts of a millisecond (`parts`); after that it is lost.
    pub fn life(&self) -> u64
        ensures { result ≡ (pace_of self.now.own).life }
    {
        match &self.own {
            Some(own) => 1_000_000 * u64::from(own.pace.life),
            None => LIFE,
        }
    }

    /// The node at a link, by its number; None where there is none. It takes no memory.
    pub fn node_of(&self, link: LinkAddress) -> Option<usize>
        ensures some { IfSome result (λ node. slice_get self.now.links node ≡ Some link) }
        ensures none { result ≡ None → (node : ℕ) → slice_get self.now.links node ≢ Some link }
    {
        node_at(&self.links, link)
    }

    /// The link of a node; None where there is no such node.
    pub fn link_of(&self, node: usize) -> Option<LinkAddress>
        ensures { result ≡ slice_get self.now.links node }
    {
        self.links.get(node).copied()
    }

    /// Whether a copy may arrive now: it was sent no longer ago than a copy lives, and at most so many later copies are of its transaction. None where there
    /// is no such copy. It takes no memory.
    pub fn is_deliverable(&self, overtake: u8, number: usize) -> Option<bool>
        ensures none { slice_get self.now.copies number ≡ None → result ≡ None }
        ensures is { (c : world.Copy) → slice_get self.now.copies number ≡ Some c
            → result ≡ Some (is_deliverable overtake (pace_of self.now.own).life self.now.moment number self.now.copies c) }
    {
        deliverable(
            overtake,
            self.life(),
            self.moment,
            &self.copies,
            &self.rows,
            number,
        )
    }

    /// The newest ask of a transaction, by its number; None where there is none. It takes no memory.
    pub fn newest(&self, transaction: &Transaction) -> Option<usize>
        ensures { result ≡ newest (key_view transaction.now) self.now.notes }
    {
        transaction.fits();
        known(&self.rows, transaction)?.newest
    }

    /// The newest ask with that ticket of a client, by its number; None where there is none. It takes no memory.
    pub fn ask_of(&self, client: usize, ticket: u64) -> Option<usize>
        ensures { result ≡ ask_of client ticket self.now.notes }
    {
        number_of(&self.rows, client, ticket)
    }

    /// Whether the ask of that number was of a stranger; false where there is none. It takes no memory.
    pub fn is_away(&self, number: usize) -> bool
        ensures { result ≡ is_away number self.now.notes }
    {
        is_of_stranger(&self.notes, number)
    }

    /// Makes room for so many more copies. After an Err nothing has changed.
    pub fn reserve(&mut self, count: usize) -> Result<(), NoMemory>
        ensures ok { OnOk result (count ≤ self.new.room) }
        ensures same { self.new ≡ record (self.old) { room = self.new.room } }
        ensures err { OnErr result (self.new ≡ self.old) }
    {
        self.copies.reserve(count)?;
        Ok(())
    }

    /// The datagrams that a node sends to nodes become the newest copies, for which room was made. Each means an APDU of a transaction that was asked, or goes
    /// to a stranger, a link of no node. It takes no memory.
    pub fn send(&mut self, sender: usize, sends: Vec<Datagram>)
        requires can { CanGo self.old.links self.old.notes self.old.moment sender sends.items }
        requires room { length sends.items ≤ self.old.room }
        requires sender { sender < length self.old.links }
        ensures copies { (nodes : List Node) → AreLinks nodes self.old.links
            → BecomeCopies nodes self.old.moment sender sends.items self.old.copies self.new.copies }
        ensures same { self.new ≡ record (self.old) { copies = self.new.copies; room = self.new.room } }
        ensures room { self.old.room ≤ self.new.room + length sends.items }
    {
        send_all(
            &self.links,
            self.moment,
            sender,
            &mut self.copies,
            &mut self.rows,
            sends,
        );
    }

    /// Makes room for a note of a client's next ask, to that server: the first time 256 places, one for each invoke ID. Nothing else changes, after an Err
    /// neither.
    pub fn reserve_note(
        &mut self,
        alloc: Global,
        client: usize,
        server: usize,
    ) -> Result<(), NoMemory>
        requires client { client < length self.old.links }
        requires server { server < length self.old.links }
        ensures ok { OnOk result (HasNoteRoom self.new client server) }
        ensures same { self.new ≡ record (self.old) { note_room = self.new.note_room } }
    {
        self.notes.reserve(1)?;
        reserve_ask(alloc, &mut self.rows, client, server)
    }

    /// An ask of a node that was accepted is noted, for which room was made. Its ticket is one that its client had before, as one that restarts numbers its
    /// tickets anew, or the one after them. It takes no memory.
    pub fn note(&mut self, note: Note)
        requires node { note.stranger ≡ None }
        requires room { HasNoteRoom self.old note.transaction.client note.transaction.server }
        requires ticket { note.ticket ≤ tickets_of note.transaction.client self.old.notes }
        ensures { self.new ≡ record (self.old) { notes = note_view note ∷ self.old.notes; note_room = self.new.note_room } }
    {
        note.transaction.fits();
        add_note(&mut self.notes, &mut self.rows, note);
    }

    /// Makes room for a note of a client's next ask of a stranger. Nothing else changes, after an Err neither.
    pub fn reserve_stranger(&mut self, client: usize) -> Result<(), NoMemory>
        requires client { client < length self.old.links }
        ensures ok { OnOk result (HasStrangerRoom self.new client) }
        ensures same { self.new ≡ record (self.old) { note_room = self.new.note_room } }
    {
        self.notes.reserve(1)?;
        reserve_ticket(&mut self.rows, client)
    }

    /// An ask of a stranger that was accepted is noted, for which room was made; its ticket is one as `note` says. It takes no memory.
    pub fn note_stranger(&mut self, note: Note)
        requires stranger { IsSome note.stranger }
        requires room { HasStrangerRoom self.old note.transaction.client }
        requires ticket { note.ticket ≤ tickets_of note.transaction.client self.old.notes }
        ensures { self.new ≡ record (self.old) { notes = note_view note ∷ self.old.notes; note_room = self.new.note_room } }
    {
        add_stranger_note(&mut self.notes, &mut self.rows, note);
    }

    /// Whether both have the same links, moment, clocks, lives of nodes, copies and notes; it doesn't matter for how many more there is room. It takes no memory.
    pub fn same(&self, other: &Journal) -> bool
        ensures { IsTrue result ↔ AreSame self.now other.now }
    {
        if self.moment != other.moment {
            return false;
        }
        if !are_same_clocks(&self.own, &other.own) {
            return false;
        }
        if !are_same_lives(&self.lives, &other.lives) {
            return false;
        }
        if !are_same_links(&self.links, &other.links) {
            return false;
        }
        if !are_same_notes(&self.notes, &other.notes) {
            return false;
        }
        if !are_same_copies(&self.copies, &other.copies) {
            return false;
        }
        true
    }
}
