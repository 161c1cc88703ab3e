//! What a capture shows of transactions, APDU by APDU.
ghost use Rattle.std.specs.Prelude.{◌≡◌, [], None, Some, IfOk, OnErr, OnOk, is_some};
ghost use Rattle.std.specs.Option.{option_map};
ghost use Rattle.bac_explain.specs.KeyViews.{key_view};
ghost use Rattle.bac_explain.specs.Tables.{acknowledgement_heard, answer_heard, awaited, begins, giving_up_heard, goes_on, heard, live, oldest_out, over_out, reuse_in, with_step, with_telling};
ghost use Rattle.bac_slots.specs.Slots.{value_at};
ghost use Rattle.bac_explain.specs.Keys.{same_key};
ghost use Rattle.bac_explain.specs.Transactions.{TransactionView, requested};
ghost use Rattle.bac_explain.specs.Sent.{place_of};
ghost use Rattle.bac_explain.specs.Closings.{IsHeard, closed_view};
ghost use Rattle.bac_explain.specs.Views.{transaction_view};
ghost use Rattle.bac_explain.specs.Sightings.{sighting_view};

use crate::finding::Finding;
use crate::key::TransactionKey;
use crate::part::{Role, Taken};
use crate::sent::Place;
use crate::sighting::Sighting;
use crate::step::Step;
use crate::table::{Closed, OPEN_LIMIT, OpenTable, enter, find, take_oldest, take_over};
use crate::transaction::{Transaction, first_finding};
use bac_slots::SlotTable;
use std::alloc::{AllocError, Global};
use std::marker::Model;

/// The result of an APDU that was seen.
#[derive(Debug, Drop)]
pub struct Heard {
    /// What is wrong with it, if anything.
    pub finding: Option<Finding>,
    /// The transaction that it closed, if any.
    pub closed: Option<Closed>,
}

/// The open transactions, in the order in which they began. The table allocates all its memory when it is created.
#[derive(Drop)]
pub struct Explainer {
    table: OpenTable,
}

impl Model for Explainer {
    ghost use Rattle.std.specs.Prelude.{◌≡◌};
    ghost use Rattle.bac_explain.specs.declared.table.TheConstants.{OPEN_LIMIT};
    ghost use Rattle.bac_explain.specs.Tables.{Transactions};
    ghost use Rattle.bac_explain.specs.Views.{slots_view};

    ghost Value = { Transactions };

    ghost view = { λ e. slots_view e.table.0 };

    ghost invariant = { λ e. e.table.1 ≡ OPEN_LIMIT };
}

impl Explainer {
    /// No open transactions. Returns an `Err` if the allocation of the table fails.
    pub fn new(alloc: Global) -> Result<Explainer, AllocError>
        ensures { IfOk result (λ e. e ≡ []) }
    {
        let table = OpenTable::new(alloc, OPEN_LIMIT)?;
        Ok(Explainer { table })
    }

    /// Closes the transaction that began first; None if none is open.
    pub fn pop(&mut self) -> Option<Closed>
        ensures closed { option_map closed_view result ≡ (oldest_out self.old).0 }
        ensures left { self.new ≡ (oldest_out self.old).1 }
    {
        take_oldest(&mut self.table)
    }

    /// Closes the transaction that began first, if its request was last seen more than 65,000 ms ago.
    pub fn pop_over(&mut self, now: u64) -> Option<Closed>
        ensures closed { option_map closed_view result ≡ (over_out now self.old).0 }
        ensures left { self.new ≡ (over_out now self.old).1 }
    {
        take_over(&mut self.table, now)
    }

    /// Whether a transaction with this key awaits replies.
    fn is_awaited(&self, now: u64, key: &TransactionKey) -> bool
        ensures { result ≡ is_some (awaited now (key_view key.now) self.now) }
    {
        match find(&self.table, key) {
            Some(transaction) => transaction.is_awaited(now),
            None => false,
        }
    }

    /// The transaction with this key, if it awaits replies.
    pub fn awaited(&self, now: u64, key: &TransactionKey) -> Option<&Transaction>
        ensures { option_map (λ t. transaction_view t.now) result ≡ awaited now (key_view key.now) self.now }
    {
        let transaction = find(&self.table, key)?;
        if transaction.is_awaited(now) {
            Some(transaction)
        } else {
            None
        }
    }

    /// How a request relates to that of the live transaction with its key; None if there is no such transaction.
    fn place(
        &self,
        now: u64,
        key: &TransactionKey,
        number: Option<u8>,
        octets: &[u8],
    ) -> Option<Place>
        ensures { result ≡ option_map (λ t. place_of t.request number octets.now) (live now (key_view key.now) self.now) }
    {
        let transaction = find(&self.table, key)?;
        if !transaction.is_live(now) {
            return None;
        }
        Some(transaction.request.place(number, octets))
    }

    /// What is wrong with another request that has the key of a transaction.
    fn reuse_finding(
        &self,
        key: &TransactionKey,
        octets: &[u8],
        strict_ids: bool,
    ) -> Option<Finding>
        ensures { result ≡ reuse_in strict_ids octets.now (value_at same_key (key_view key.now) self.now) }
    {
        let transaction = find(&self.table, key)?;
        transaction.reuse_finding(strict_ids, octets)
    }

    /// Adds a transaction whose request is seen for the first time, with what is wrong with that request.
    fn begin(
        &mut self,
        now: u64,
        key: TransactionKey,
        transaction: Transaction,
        finding: Option<Finding>,
    ) -> Heard
        ensures { IsHeard (begins (key_view key) now (transaction_view transaction) finding self.old) self.new result }
    {
        let mut transaction = transaction;
        transaction.note(finding);
        let closed = enter(&mut self.table, key, now, transaction);
        Heard { finding, closed }
    }

    /// The request of the live transaction with this key is seen again, or another segment of it.
    fn repeat(
        &mut self,
        now: u64,
        key: &TransactionKey,
        place: Place,
        number: Option<u8>,
        octets: &[u8],
    ) -> Option<Finding>
        ensures { (t : TransactionView) → value_at same_key (key_view key.now) self.old ≡ Some t
            → record { slots = self.new; closed = None; finding = result } ≡ goes_on (key_view key.now) self.old (requested now place number octets.now t) }
    {
        let Some(transaction) = self.table.get_mut(key) else {
            return None;
        };
        transaction.requested(now, place, number, octets)
    }

    /// Handles a request, or a segment of one.
    fn hear_request(
        &mut self,
        alloc: Global,
        now: u64,
        sighting: Sighting<'_>,
        number: Option<u8>,
        strict_ids: bool,
    ) -> Result<Heard, AllocError>
        ensures ok { IfOk result (IsHeard (heard strict_ids now (sighting_view sighting.entry).key (Role.Request number) (sighting_view sighting.entry).octets self.old)
            self.new) }
        ensures err { OnErr result (self.new ≡ self.old) }
    {
        let (key, octets) = (sighting.key, sighting.octets);
        let Some(place) = self.place(now, &key, number, octets) else {
            let transaction = Transaction::begin(alloc, now, number, octets, false)?;
            return Ok(self.begin(now, key, transaction, first_finding(number)));
        };
        if place.is_other() {
            let transaction = Transaction::begin(alloc, now, number, octets, true)?;
            let finding = self.reuse_finding(&key, octets, strict_ids);
            return Ok(self.begin(now, key, transaction, finding));
        }
        Ok(Heard {
            finding: self.repeat(now, &key, place, number, octets),
            closed: None,
        })
    }

    /// Handles a reply, or a segment of one.
    fn hear_answer(
        &mut self,
        alloc: Global,
        now: u64,
        key: &TransactionKey,
        number: Option<u8>,
        octets: &[u8],
    ) -> Result<Option<Finding>, AllocError>
        ensures ok { IfOk result (λ f. record { slots = self.new; closed = None; finding = f }
            ≡ answer_heard now (key_view key.now) number octets.now (awaited now (key_view key.now) self.old) self.old) }
        ensures err { OnErr result (self.new ≡ self.old) }
    {
        if !self.is_awaited(now, key) {
            return Ok(Some(Finding::AnswerToNoRequest));
        }
        let Some(transaction) = self.table.get_mut(key) else {
            return Ok(Some(Finding::AnswerToNoRequest));
        };
        transaction.answered(alloc, now, number, octets)
    }

    /// Handles a SegmentACK.
    fn hear_acknowledgement(
        &mut self,
        now: u64,
        key: &TransactionKey,
        taken: Taken,
    ) -> Option<Finding>
        ensures { record { slots = self.new; closed = None; finding = result }
            ≡ acknowledgement_heard (key_view key.now) taken (awaited now (key_view key.now) self.old) self.old }
    {
        if !self.is_awaited(now, key) {
            return None;
        }
        let Some(transaction) = self.table.get_mut(key) else {
            return None;
        };
        transaction.acknowledged(taken)
    }

    /// Handles an Abort of the client.
    fn hear_giving_up(&mut self, now: u64, key: &TransactionKey)
        ensures { record { slots = self.new; closed = None; finding = None }
            ≡ giving_up_heard (key_view key.now) (awaited now (key_view key.now) self.old) self.old }
    {
        if !self.is_awaited(now, key) {
            return;
        }
        let Some(transaction) = self.table.get_mut(key) else {
            return;
        };
        transaction.given_up();
    }

    /// Keeps a frame with the transaction that has its key, if that awaits replies. Returns an `Err` only if an allocation fails; nothing
    /// has changed then.
    pub fn trace(&mut self, now: u64, key: &TransactionKey, step: Step) -> Result<(), AllocError>
        ensures ok { OnOk result (self.new ≡ with_step now (key_view key.now) step self.old) }
        ensures err { OnErr result (self.new ≡ self.old) }
    {
        if !self.is_awaited(now, key) {
            return Ok(());
        }
        let Some(transaction) = self.table.get_mut(key) else {
            return Ok(());
        };
        transaction.trace(step)
    }

    /// Notes that the transaction with this key is told, if it awaits replies.
    pub fn tell(&mut self, now: u64, key: &TransactionKey)
        ensures { self.new ≡ with_telling now (key_view key.now) self.old }
    {
        if !self.is_awaited(now, key) {
            return;
        }
        let Some(transaction) = self.table.get_mut(key) else {
            return;
        };
        transaction.tell();
    }

    /// Handles an APDU of a transaction, seen at a moment in milliseconds. Returns what is wrong with it, and the transaction that it
    /// closes: an earlier one with this key, if it begins another one, or the oldest, if 16,384 are open. Another request with the
    /// invoke ID of a transaction that is over has a finding only if invoke IDs are held strictly, for 65,000 ms. Returns an
    /// `Err` only if an allocation fails; nothing has changed then.
    pub fn hear(
        &mut self,
        alloc: Global,
        now: u64,
        sighting: Sighting<'_>,
        strict_ids: bool,
    ) -> Result<Heard, AllocError>
        ensures ok { IfOk result (IsHeard (heard strict_ids now (sighting_view sighting.entry).key (sighting_view sighting.entry).role
            (sighting_view sighting.entry).octets self.old) self.new) }
        ensures err { OnErr result (self.new ≡ self.old) }
    {
        let (key, octets) = (sighting.key, sighting.octets);
        let finding = match sighting.role {
            Role::Request(number) => {
                return self.hear_request(alloc, now, sighting, number, strict_ids);
            }
            Role::Answer(number) => self.hear_answer(alloc, now, &key, number, octets)?,
            Role::Acknowledgement(taken) => self.hear_acknowledgement(now, &key, taken),
            Role::GivesUp => {
                self.hear_giving_up(now, &key);
                None
            }
        };
        Ok(Heard {
            finding,
            closed: None,
        })
    }
}
