//! A request or a reply, as it was seen.
ghost use Rattle.std.specs.Prelude.{◌≡◌, IfOk};
ghost use Rattle.bac_explain.specs.SentViews.{sent_view};
ghost use Rattle.bac_explain.specs.Sent.{are_same, begins_anew, counted, first_index, first_sent, index_after, is_back, is_other, number_in};
ghost use Rattle.bac_explain.specs.Sent.{numbered_place, place_of, unlike_next, with_taken, with_asked_again};
ghost use Rattle.bac_explain.specs.Numbers.{following};

use crate::grant::Grant;
use crate::numbers::{ROUND, ahead, is_ahead, is_following, more_by, one_more};
use crate::part::Taken;
use crate::whole::is_end;
use std::alloc::{AllocError, Global};

/// A request or a reply, as it was seen: its first APDU, and how many followed it.
#[derive(Debug, Drop)]
pub struct Sent {
    /// When it was first seen, in milliseconds.
    pub moment: u64,
    /// The octets of its first APDU: all of it, or one segment.
    pub octets: Vec<u8>,
    /// How many times these octets were seen, at least 1; the count saturates.
    pub times: u64,
    /// How many other segments were seen, including repeated ones; the count saturates.
    pub segments: u64,
    /// The sequence number of the last segment that was seen, modulo 256; 0 if it is unsegmented.
    pub number: u8,
    /// How many segments precede that one, including those not seen. If the first that was seen is not segment 0, 256 is added, as sequence
    /// numbers may have wrapped. The count saturates.
    pub index: u64,
    /// When the last of its APDUs was seen, in milliseconds.
    pub last: u64,
    /// Whether its end was seen: an unsegmented APDU, or the segment after which no more follow.
    pub whole: bool,
    /// Which of its segments may be sent.
    pub grant: Grant,
}

/// How an APDU relates to what was seen before.
#[derive(Clone, Copy, Debug, PartialEq, Eq)]
pub(crate) enum Place {
    /// The first APDU again.
    Again,
    /// The segment after the last one.
    Next,
    /// A segment that was sent before, judging by its number.
    Back,
    /// A segment after the next one.
    Ahead,
    /// Another request or reply.
    Other,
}

impl Place {
    pub(crate) fn is_other(self) -> bool
        ensures { result ≡ is_other self }
    {
        matches!(self, Place::Other)
    }
}

fn number_in(number: Option<u8>) -> u8
    ensures { result ≡ number_in number }
{
    number.unwrap_or(0)
}

/// How many segments precede the first one that is seen.
fn first_index(number: u8) -> u64
    ensures { result ≡ first_index number }
{
    if number == 0 {
        0
    } else {
        256 + u64::from(number)
    }
}

/// Whether the octets are equal.
pub(crate) fn are_same(one: &[u8], other: &[u8]) -> bool
    ensures { result ≡ are_same one.now other.now }
{
    one == other
}

impl Sent {
    /// A request or a reply that is seen for the first time. Returns an `Err` only if the allocation fails.
    pub(crate) fn first(
        alloc: Global,
        now: u64,
        number: Option<u8>,
        octets: &[u8],
    ) -> Result<Sent, AllocError>
        ensures { IfOk result (λ s. sent_view s ≡ first_sent now number octets.now) }
    {
        Ok(Sent {
            moment: now,
            octets: Vec::from_slice(alloc, octets)?,
            times: 1,
            segments: 0,
            number: number_in(number),
            index: first_index(number_in(number)),
            last: now,
            whole: is_end(octets),
            grant: Grant::at_first(number),
        })
    }

    fn is_next(&self, number: u8) -> bool
        ensures { result ≡ following self.now.number number }
    {
        is_following(self.number, number)
    }

    /// Whether a segment with this number, whose octets are not those of the first, begins another request or reply.
    fn begins_anew(&self, number: u8) -> bool
        ensures { result ≡ begins_anew (sent_view self.now) number }
    {
        number == 0 && self.segments < ROUND
    }

    /// Whether a segment with this number, which is not ahead, is no further behind than the first.
    fn is_back(&self, number: u8) -> bool
        ensures { result ≡ is_back (sent_view self.now) number }
    {
        u64::from(ahead(number, self.number)) <= self.index
    }

    /// How a segment with this number relates to what was seen, if it is not the next one: numbers are compared modulo 256.
    fn numbered_place(&self, number: u8) -> Place
        ensures { result ≡ numbered_place (sent_view self.now) number }
    {
        if is_ahead(self.number, number) {
            return Place::Ahead;
        }
        if self.is_back(number) {
            Place::Back
        } else {
            Place::Ahead
        }
    }

    /// How an APDU that is not the next segment relates to what was seen.
    fn unlike_next(&self, number: Option<u8>, octets: &[u8]) -> Place
        ensures { result ≡ unlike_next (sent_view self.now) number octets.now }
    {
        if are_same(&self.octets, octets) {
            return Place::Again;
        }
        match number {
            None => Place::Other,
            Some(number) if self.begins_anew(number) => Place::Other,
            Some(number) => self.numbered_place(number),
        }
    }

    /// How an APDU relates to what was seen: a segment with this number, or an unsegmented one.
    pub(crate) fn place(&self, number: Option<u8>, octets: &[u8]) -> Place
        ensures { result ≡ place_of (sent_view self.now) number octets.now }
    {
        match number {
            Some(number) if self.is_next(number) => Place::Next,
            _ => self.unlike_next(number, octets),
        }
    }

    /// How many segments precede one with this number in this relation.
    fn index_after(&self, place: Place, number: u8) -> u64
        ensures { result ≡ index_after place number (sent_view self.now) }
    {
        match place {
            Place::Again => first_index(number),
            Place::Next | Place::Ahead => more_by(self.index, ahead(self.number, number)),
            Place::Back => self
                .index
                .saturating_sub(u64::from(ahead(number, self.number))),
            Place::Other => self.index,
        }
    }

    /// Counts an APDU in this relation, which is seen at this moment.
    pub(crate) fn count(&mut self, now: u64, place: Place, number: Option<u8>, octets: &[u8])
        ensures { sent_view self.new ≡ counted now place number octets.now (sent_view self.old) }
    {
        let index = self.index_after(place, number_in(number));
        match place {
            Place::Again => {
                self.times = one_more(self.times);
                self.grant = self.grant.begun_again();
            }
            Place::Next | Place::Back | Place::Ahead => {
                self.segments = one_more(self.segments);
                self.whole = self.whole || is_end(octets);
                self.grant = self.grant.sent(number);
            }
            Place::Other => return,
        }
        self.last = now;
        self.number = number_in(number);
        self.index = index;
    }

    /// A SegmentACK for its segments was seen.
    pub(crate) fn take(&mut self, taken: Taken)
        ensures { sent_view self.new ≡ with_taken taken (sent_view self.old) }
    {
        self.grant = self.grant.moved(taken);
    }

    /// The request that it replies to was sent again.
    pub(crate) fn ask_again(&mut self)
        ensures { sent_view self.new ≡ with_asked_again (sent_view self.old) }
    {
        self.grant = self.grant.asked_again();
    }
}
