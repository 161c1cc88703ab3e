//! One transaction, as it was seen.
ghost use Rattle.std.specs.Prelude.{◌≡◌, ◌-◌, IfOk, OnErr, OnOk, nat_le, Some};
ghost use Rattle.std.specs.Option.{option_map};
ghost use Rattle.bac_explain.specs.Transactions.{acknowledged, again_finding, answer_finding, answer_taken, answered, breaks_off, confusion, first_finding, first_request, given_up, with_told};
ghost use Rattle.bac_explain.specs.Transactions.{is_awaited, is_live, is_old, is_over, nak_counted, noted, other_answer, request_finding, requested, requested_finding, reuse_finding};
ghost use Rattle.bac_explain.specs.Transactions.{segment_finding, segments_taken, traced};
ghost use Rattle.bac_explain.specs.Views.{transaction_view};
ghost use Rattle.bac_explain.specs.SentViews.{sent_view};

use crate::appends::is_performed_twice;
use crate::choice::{is_of_service, keeps_answer};
use crate::finding::Finding;
use crate::grant::Grant;
use crate::numbers::{MOST_SENDS, one_more};
use crate::part::Taken;
use crate::sent::{Place, Sent};
use crate::step::Step;
use crate::whole::is_server_abort;
use bac_protocol::times::{KEEP, LIFE};
use std::alloc::{AllocError, Global};

/// A transaction, as it was seen.
#[derive(Debug, Drop)]
pub struct Transaction {
    /// Its request.
    pub request: Sent,
    /// Whether another request had its key in the 65,000 ms before.
    pub reused: bool,
    /// The first of its replies; None if none was seen.
    pub answer: Option<Sent>,
    /// Whether an Abort of the server was seen between the reply's first and last segment.
    pub broken_off: bool,
    /// How many negative SegmentACKs were seen; the count saturates.
    pub naks: u64,
    /// Whether an Abort of the client was seen.
    pub gave_up: bool,
    /// How many of its APDUs had something wrong; the count saturates.
    pub findings: u64,
    /// Whether it was told: printed before it is closed.
    pub told: bool,
    /// The frames that are kept of it, in the order in which they were seen.
    pub steps: Vec<Step>,
}

/// What is wrong with the first APDU that is seen of a request or a reply.
pub(crate) fn first_finding(number: Option<u8>) -> Option<Finding>
    ensures { result ≡ first_finding number }
{
    match number {
        None | Some(0) => None,
        Some(_) => Some(Finding::SegmentMissing),
    }
}

/// What is wrong with a segment with this number in this relation to what was sent before.
fn segment_finding(sent: &Sent, place: Place, number: Option<u8>) -> Option<Finding>
    ensures { result ≡ segment_finding place number (sent_view sent.now) }
{
    if sent.grant.is_beyond(number) {
        return Some(Finding::BeyondWindow);
    }
    if place == Place::Ahead {
        return Some(Finding::SegmentMissing);
    }
    if sent.grant.is_spent(number) {
        return Some(Finding::SegmentSentTooOften);
    }
    None
}

/// What is wrong with a repeated request, or its first segment.
fn again_finding(request: &Sent, number: Option<u8>) -> Option<Finding>
    ensures { result ≡ again_finding number (sent_view request.now) }
{
    if request.times < MOST_SENDS {
        return None;
    }
    match (number, request.grant) {
        (None, _) => Some(Finding::SentTooOften),
        (Some(_), Grant::First) => Some(Finding::SegmentSentTooOften),
        (Some(_), Grant::Unknown | Grant::Window(_)) => None,
    }
}

/// What is wrong with a request in this relation to what was requested before.
fn request_finding(request: &Sent, place: Place, number: Option<u8>) -> Option<Finding>
    ensures { result ≡ request_finding place number (sent_view request.now) }
{
    match place {
        Place::Again => again_finding(request, number),
        Place::Other => None,
        Place::Next | Place::Back | Place::Ahead => segment_finding(request, place, number),
    }
}

/// Whether a reply that is repeated at this moment, or the request before it, was in the network for more than 5,000 ms.
fn is_old(now: u64, number: Option<u8>, request: &Sent, answer: &Sent) -> bool
    ensures { result ≡ is_old now number (sent_view request.now) (sent_view answer.now) }
{
    number.is_none()
        && now.saturating_sub(answer.moment) > LIFE
        && now.saturating_sub(request.last) > LIFE + LIFE
}

/// What is wrong with a reply that differs from the first.
fn other_answer(reused: bool, request: &[u8], first: &[u8], other: &[u8]) -> Finding
    ensures { result ≡ other_answer reused request.now first.now other.now }
{
    if !reused && is_performed_twice(request, first, other) {
        Finding::PerformedTwice
    } else {
        Finding::AnotherAnswer
    }
}

/// Whether a reply is an Abort of the server within the first one.
fn breaks_off(first: &Sent, octets: &[u8]) -> bool
    ensures { result ≡ breaks_off (sent_view first.now) octets.now }
{
    !first.whole && is_server_abort(octets)
}

impl Transaction {
    /// A transaction whose request is seen for the first time. Returns an `Err` only if the allocation fails.
    pub(crate) fn begin(
        alloc: Global,
        now: u64,
        number: Option<u8>,
        octets: &[u8],
        reused: bool,
    ) -> Result<Transaction, AllocError>
        ensures { IfOk result (λ t. transaction_view t ≡ first_request now number octets.now reused) }
    {
        Ok(Transaction {
            request: Sent::first(alloc, now, number, octets)?,
            reused,
            answer: None,
            broken_off: false,
            naks: 0,
            gave_up: false,
            findings: 0,
            told: false,
            steps: Vec::new(alloc),
        })
    }

    /// Whether a request with its invoke ID at this moment is not a new one: its own was first seen at most 65,000 ms ago.
    pub(crate) fn is_live(&self, now: u64) -> bool
        ensures { result ≡ is_live now (transaction_view self.now) }
    {
        now.saturating_sub(self.request.moment) <= KEEP
    }

    /// Whether replies are expected at this moment: its request was last seen at most 65,000 ms ago.
    pub(crate) fn is_awaited(&self, now: u64) -> bool
        ensures { result ≡ is_awaited now (transaction_view self.now) }
    {
        now.saturating_sub(self.request.last) <= KEEP
    }

    /// Whether nothing more has to come: its reply was seen to the end, or an Abort of either end.
    pub fn is_over(&self) -> bool
        ensures { result ≡ is_over (transaction_view self.now) }
    {
        match &self.answer {
            Some(answer) => answer.whole || self.broken_off || self.gave_up,
            None => self.gave_up,
        }
    }

    /// Another request that has its key, as a server that keeps replies takes it.
    fn confusion(&self, octets: &[u8]) -> Finding
        ensures { result ≡ confusion octets.now (transaction_view self.now) }
    {
        if keeps_answer(&self.request.octets, octets, self.answer.is_some()) {
            Finding::InvokeIdConfused
        } else {
            Finding::InvokeIdReused
        }
    }

    /// What is wrong with another request that has its key: nothing once it is over, unless invoke IDs are held strictly.
    pub(crate) fn reuse_finding(&self, strict_ids: bool, octets: &[u8]) -> Option<Finding>
        ensures { result ≡ reuse_finding strict_ids octets.now (transaction_view self.now) }
    {
        if self.is_over() && !strict_ids {
            return None;
        }
        Some(self.confusion(octets))
    }

    /// Counts what is wrong with one of its APDUs, if anything.
    pub(crate) fn note(&mut self, finding: Option<Finding>)
        ensures { transaction_view self.new ≡ noted finding (transaction_view self.old) }
    {
        if finding.is_some() {
            self.findings = one_more(self.findings);
        }
    }

    /// What is wrong with a request in this relation to its own: once it is over, the same request is none too many, since its client may use the invoke ID again.
    fn request_finding(&self, place: Place, number: Option<u8>) -> Option<Finding>
        ensures { result ≡ requested_finding place number (transaction_view self.now) }
    {
        if place == Place::Again && self.is_over() {
            return None;
        }
        request_finding(&self.request, place, number)
    }

    /// Its request is seen again, or another segment of it.
    pub(crate) fn requested(
        &mut self,
        now: u64,
        place: Place,
        number: Option<u8>,
        octets: &[u8],
    ) -> Option<Finding>
        ensures seen { transaction_view self.new ≡ (requested now place number octets.now (transaction_view self.old)).0 }
        ensures finding { result ≡ (requested now place number octets.now (transaction_view self.old)).1 }
    {
        let finding = self.request_finding(place, number);
        self.request.count(now, place, number, octets);
        if let Some(answer) = &mut self.answer {
            answer.ask_again();
        }
        self.note(finding);
        finding
    }

    /// What is wrong with a reply in this relation to the first one.
    fn answer_finding(
        &self,
        first: &Sent,
        now: u64,
        place: Place,
        number: Option<u8>,
        octets: &[u8],
    ) -> Option<Finding>
        ensures { result ≡ answer_finding now place number self.now.reused (sent_view self.now.request) (sent_view first.now) octets.now }
    {
        let request = &self.request;
        match place {
            Place::Again if is_old(now, number, request, first) => Some(Finding::OldCopy),
            Place::Again => None,
            Place::Next | Place::Back | Place::Ahead => segment_finding(first, place, number),
            Place::Other => {
                let (request, first) = (&request.octets, &first.octets);
                Some(other_answer(self.reused, request, first, octets))
            }
        }
    }

    /// A reply is seen, or a segment of one: what is wrong with it is not yet counted. Nothing changes if an allocation fails.
    fn take_answer(
        &mut self,
        alloc: Global,
        now: u64,
        number: Option<u8>,
        octets: &[u8],
    ) -> Result<Option<Finding>, AllocError>
        ensures seen { IfOk result (λ _. transaction_view self.new ≡ (answer_taken now number octets.now (transaction_view self.old)).0) }
        ensures finding { IfOk result (λ f. f ≡ (answer_taken now number octets.now (transaction_view self.old)).1) }
        ensures err { OnErr result (transaction_view self.new ≡ transaction_view self.old) }
    {
        if !is_of_service(&self.request.octets, octets) {
            return Ok(Some(Finding::OtherService));
        }
        let Some(answer) = &self.answer else {
            self.answer = Some(Sent::first(alloc, now, number, octets)?);
            return Ok(first_finding(number));
        };
        if breaks_off(answer, octets) {
            self.broken_off = true;
            return Ok(None);
        }
        let place = answer.place(number, octets);
        let finding = self.answer_finding(answer, now, place, number, octets);
        if let Some(answer) = &mut self.answer {
            answer.count(now, place, number, octets);
        }
        Ok(finding)
    }

    /// A reply is seen, or a segment of one. Nothing changes if an allocation fails.
    pub(crate) fn answered(
        &mut self,
        alloc: Global,
        now: u64,
        number: Option<u8>,
        octets: &[u8],
    ) -> Result<Option<Finding>, AllocError>
        ensures seen { IfOk result (λ _. transaction_view self.new ≡ (answered now number octets.now (transaction_view self.old)).0) }
        ensures finding { IfOk result (λ f. f ≡ (answered now number octets.now (transaction_view self.old)).1) }
        ensures err { OnErr result (transaction_view self.new ≡ transaction_view self.old) }
    {
        let finding = self.take_answer(alloc, now, number, octets)?;
        self.note(finding);
        Ok(finding)
    }

    /// Segments of its request or its reply are acknowledged.
    fn take(&mut self, taken: Taken)
        ensures { transaction_view self.new ≡ segments_taken taken (transaction_view self.old) }
    {
        if taken.of_request {
            self.request.take(taken);
        } else if let Some(answer) = &mut self.answer {
            answer.take(taken);
        }
    }

    /// A SegmentACK is seen.
    pub(crate) fn acknowledged(&mut self, taken: Taken) -> Option<Finding>
        ensures seen { transaction_view self.new ≡ (acknowledged taken (transaction_view self.old)).0 }
        ensures finding { result ≡ (acknowledged taken (transaction_view self.old)).1 }
    {
        self.take(taken);
        if !taken.nak {
            return None;
        }
        self.naks = one_more(self.naks);
        let finding = Some(Finding::NegativeAck);
        self.note(finding);
        finding
    }

    /// Keeps a frame of it. Nothing changes if the allocation fails.
    pub(crate) fn trace(&mut self, step: Step) -> Result<(), AllocError>
        ensures ok { OnOk result (transaction_view self.new ≡ traced step (transaction_view self.old)) }
        ensures err { OnErr result (transaction_view self.new ≡ transaction_view self.old) }
    {
        self.steps.push(step)?;
        Ok(())
    }

    /// It is told.
    pub(crate) fn tell(&mut self)
        ensures { transaction_view self.new ≡ with_told (transaction_view self.old) }
    {
        self.told = true;
    }

    /// An Abort of the client is seen.
    pub(crate) fn given_up(&mut self)
        ensures { transaction_view self.new ≡ given_up (transaction_view self.old) }
    {
        self.gave_up = true;
    }
}
