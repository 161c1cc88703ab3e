//! How many octets of service data the entries of the reply table keep, and whether there is room for more. `Responder` calls it.
ghost use Rattle.std.specs.Prelude.{◌≡◌, ◌↔◌, ℕ, ◌+◌, ◌≤◌, true, IfSome, IsTrue, MatchOption, Some, false, slice_get};
ghost use Rattle.std.specs.Option.{option_map};
ghost use Rattle.bac_apdu.specs.Views.{apdu_view};
ghost use Rattle.bac_slots.specs.declared.slot.Slot.{Slot};
ghost use Rattle.bac_slots.specs.Slots.{value_at};
ghost use Rattle.bac_protocol.specs.Server.{is_none_live};
ghost use Rattle.bac_transaction.specs.Views.{code_same_key};
ghost use Rattle.bac_responder.specs.Kept.{counted, entry_octets, given_back, grows_none, growth, is_request, is_whole, kept_length, most_of_one, octets_of, reply_octets, state_octets, sum_of};
ghost use Rattle.bac_responder.specs.TransactionViews.{kept_reply_view, state_view};

use crate::ServerTransaction;
use crate::kept_reply::{KeptReply, SpelledReply};
use crate::server_transaction::State;
use bac_apdu::Apdu;
use bac_slots::SlotTable;
use bac_transaction::PeerKey;

/// What a request can add beside its own service data, in octets: the place of a segment, and the longest reply.
const MOST_GROWTH: usize = 65_539;

impl KeptReply {
    /// How many octets of service data it has.
    fn octets(&self) -> usize
        ensures { (i c : ℕ) → result ≡ reply_octets (kept_reply_view i c self.now) }
    {
        match self {
            KeptReply::Reply(SpelledReply::Complex(octets)) => octets.len(),
            KeptReply::Reply(SpelledReply::Simple) => 0,
            KeptReply::Reply(SpelledReply::Error { .. }) => 0,
            KeptReply::Reject(_) => 0,
            KeptReply::Abort(_) => 0,
        }
    }
}

impl State {
    /// How many octets it keeps: of each segment of a request four more, for its place.
    fn octets(&self) -> usize
        ensures { (c : ℕ) → result ≡ state_octets (state_view c self.now) }
    {
        match self {
            State::SegmentedRequest(reassembly) => {
                reassembly.incoming.len() + reassembly.incoming.taken() * 4
            }
            State::Done { kept, .. } => kept.octets(),
            State::SegmentedResponse(reply) => reply.outgoing.octets().len(),
            State::Dropped => 0,
        }
    }

    /// Whether an APDU is a request that makes an entry in this state keep no more: only a segment where segments are received can.
    pub(crate) fn grows_none(&self, apdu: &Apdu<'_>) -> bool
        ensures { (c : ℕ) → result ≡ grows_none (state_view c self.now) (apdu_view apdu.now) }
    {
        match self {
            State::SegmentedRequest(_) => is_whole(apdu),
            State::Done { .. } => is_request(apdu),
            State::SegmentedResponse(_) => is_request(apdu),
            State::Dropped => is_request(apdu),
        }
    }
}

impl ServerTransaction {
    /// How many octets it keeps; None where they are more than can be counted.
    fn octets(&self) -> Option<usize>
        ensures { IfSome result (λ n. n ≡ entry_octets self.now) }
    {
        let request = len_of(&self.origin.request);
        let first = len_of(&self.origin.first);
        request.checked_add(first)?.checked_add(self.state.octets())
    }
}

/// How many octets are kept of what may be kept.
fn len_of(kept: &Option<Vec<u8>>) -> usize
    ensures { result ≡ kept_length (option_map (λ v. v.items) kept.now) }
{
    match kept {
        None => 0,
        Some(octets) => octets.len(),
    }
}

/// How many octets the n-th slot in order of insertion keeps, if it is there, and of live ones alone if asked so.
fn octets_at<S: SlotTable<PeerKey, ServerTransaction>>(
    table: &S,
    n: usize,
    only_live: bool,
    now: u64,
) -> Option<usize>
    ensures { IfSome result (λ k. (s : Slot PeerKey ServerTransaction) → slice_get (S.slots table.now) n ≡ Some s → k ≡ counted only_live now s) }
{
    let Some((_, _, entry)) = table.by_age(n) else {
        return Some(0);
    };
    if only_live && !entry.is_live(now) {
        return Some(0);
    }
    entry.octets()
}

/// How many octets all slots keep, or those alone whose entries are live; None where they are more than can be counted. It looks at each slot.
pub(crate) fn count_octets<S: SlotTable<PeerKey, ServerTransaction>>(
    table: &S,
    only_live: bool,
    now: u64,
) -> Option<usize>
    ensures { IfSome result (λ k. k ≡ sum_of (counted only_live now) (S.slots table.now)) }
{
    let mut octets: usize = 0;
    for n in 0..table.len() {
        octets = octets.checked_add(octets_at(table, n, only_live, now)?)?;
    }
    Some(octets)
}

/// How many octets the entry of a key keeps, if there is one; None where they are more than can be counted.
pub(crate) fn key_octets<S: SlotTable<PeerKey, ServerTransaction>>(
    table: &S,
    key: &PeerKey,
) -> Option<usize>
    ensures { IfSome result (λ n. n ≡ octets_of (value_at code_same_key key.now (S.slots table.now))) }
{
    match table.get(key) {
        None => Some(0),
        Some(entry) => entry.octets(),
    }
}

/// Whether no entry of a key is live.
pub(crate) fn is_none_live<S: SlotTable<PeerKey, ServerTransaction>>(
    table: &S,
    key: &PeerKey,
    now: u64,
) -> bool
    ensures { result ≡ is_none_live now (value_at code_same_key key.now (S.slots table.now)) }
{
    match table.get(key) {
        None => true,
        Some(entry) => !entry.is_live(now),
    }
}

/// How many octets of service data a request has; None of another APDU, which makes no entry keep more.
pub(crate) fn service_len(apdu: &Apdu<'_>) -> Option<usize>
    ensures { MatchOption result (growth (apdu_view apdu.now) ≡ 0) (λ n. growth (apdu_view apdu.now) ≡ n + 65539) }
{
    match *apdu {
        Apdu::ConfirmedRequest { service, .. } => Some(service.len()),
        _ => None,
    }
}

/// Whether an APDU is a request without SEG.
fn is_whole(apdu: &Apdu<'_>) -> bool
    ensures { result ≡ is_whole (apdu_view apdu.now) }
{
    matches!(apdu, Apdu::ConfirmedRequest { segment: None, .. })
}

/// Whether an APDU is a request, without SEG or a segment of one.
fn is_request(apdu: &Apdu<'_>) -> bool
    ensures { result ≡ is_request (apdu_view apdu.now) }
{
    matches!(apdu, Apdu::ConfirmedRequest { .. })
}

/// How much of so many octets one address gets where memory is shared: all but the last sixteenth.
pub(crate) fn most_of_one(memory: usize) -> usize
    ensures { result ≡ most_of_one memory }
{
    memory - memory / 16
}

/// Whether there is room for a request with so much service data, where so many octets are kept.
pub(crate) fn fits(kept: Option<usize>, len: usize, room: usize) -> bool
    ensures { IsTrue result ↔ MatchOption kept ⊥ (λ k. k + (len + 65539) ≤ room) }
{
    match kept {
        None => false,
        Some(kept) => {
            // each difference is tested before the next one is taken from it
            kept <= room && MOST_GROWTH <= room - kept && len <= room - kept - MOST_GROWTH
        }
    }
}

/// What is kept at the most after a call. From what was kept before, it takes away what the entry of its key kept, and adds what that entry keeps
/// now. None where one of them is not known.
pub(crate) fn moved(
    kept: Option<usize>,
    before: Option<usize>,
    after: Option<usize>,
) -> Option<usize>
    ensures { (old new b a : ℕ) → IfSome kept (λ k. old ≤ k) → IfSome before (λ n. n ≡ b) → IfSome after (λ n. n ≡ a) → new + b ≤ old + a
        → IfSome result (λ k. new ≤ k) }
{
    let left = kept?.checked_sub(before?)?;
    left.checked_add(after?)
}

/// What the n-th slot in order of insertion gives back at a tick, if its entry is not live: None where it is, or where none is there.
fn given_back_at<S: SlotTable<PeerKey, ServerTransaction>>(
    table: &S,
    n: usize,
    now: u64,
) -> Option<usize>
    ensures { IfSome result (λ k. (s : Slot PeerKey ServerTransaction) → slice_get (S.slots table.now) n ≡ Some s → k ≡ given_back now s) }
{
    let Some((_, _, entry)) = table.by_age(n) else {
        return None;
    };
    if entry.is_live(now) {
        return None;
    }
    entry.octets()
}

/// How many octets the oldest slots keep, up to the first one whose entry is live. A tick that drops all that are not live gives back so many at
/// least.
pub(crate) fn given_back<S: SlotTable<PeerKey, ServerTransaction>>(table: &S, now: u64) -> usize
    ensures { sum_of (counted true now) (S.slots table.now) + result ≤ sum_of (counted false now) (S.slots table.now) }
{
    let mut octets: usize = 0;
    for n in 0..table.len() {
        let Some(more) = given_back_at(table, n, now) else {
            return octets;
        };
        octets = octets.saturating_add(more);
    }
    octets
}

/// What is kept at the most after so many octets were given back.
pub(crate) fn without(kept: Option<usize>, given_back: usize) -> Option<usize>
    ensures { (old new : ℕ) → IfSome kept (λ k. old ≤ k) → new + given_back ≤ old → IfSome result (λ k. new ≤ k) }
{
    kept?.checked_sub(given_back)
}
