//! How often each datagram of an ask passed, by the world's own copies.
use crate::worlds::schedule::{Asked, Sight};
use bac_explain::{Sent, Transaction};
use bac_network::{Note, World};

/// How long `explain` counts a request after its ask, and answers after the request, in milliseconds.
const KEEP: u64 = 65_000;

/// What passed of an ask: its first APDU, others of the request, answers, and negative SegmentACKs.
#[derive(Clone, Copy)]
pub(crate) struct Counts {
    first: u64,
    segments: u64,
    answers: u64,
    naks: u64,
    /// How long after the ask the request passed last.
    last: u64,
    /// Whether the invoke ID was used again.
    is_over: bool,
}

fn one_more(count: &mut u64) {
    *count = count.saturating_add(1);
}

impl Counts {
    /// Notes when a request passed: after so long it is another one.
    fn ask(&mut self, after: u64) {
        if after > KEEP {
            self.is_over = true;
        } else {
            self.last = after;
        }
    }

    /// Counts a datagram by the first octet of its APDU, whose upper half is its kind.
    fn count(&mut self, first: &[u8], octets: &[u8], after: u64) {
        let head = octets.get(6).copied().unwrap_or(0xFF);
        if head / 16 == 0 {
            self.ask(after);
        }
        if self.is_over || after > self.last.saturating_add(KEEP) {
            return;
        }
        match head / 16 {
            0 if octets == first => one_more(&mut self.first),
            0 => one_more(&mut self.segments),
            4 if head % 4 >= 2 => one_more(&mut self.naks),
            2 | 3 | 5 | 6 => one_more(&mut self.answers),
            7 if head % 2 == 1 => one_more(&mut self.answers),
            _ => {}
        }
    }

    /// What passed of an ask.
    pub(crate) fn of(world: &World, passed: &[Sight], note: &Note, asked: Asked) -> Counts {
        let mut counts = Counts {
            first: 0,
            segments: 0,
            answers: 0,
            naks: 0,
            last: 0,
            is_over: false,
        };
        let Some(first) = world.copies().get(asked.copies) else {
            return counts;
        };
        for sight in passed {
            if let Some(copy) = world.copies().get(sight.copy) {
                if copy.transaction == note.transaction && sight.copy >= asked.copies {
                    let after = sight.moment.saturating_sub(asked.moment);
                    counts.count(&first.octets, &copy.octets, after);
                }
            }
        }
        counts
    }

    /// Whether a transaction was counted so.
    pub(crate) fn are_of(self, it: &Transaction) -> bool {
        it.request.times == self.first
            && it.request.segments == self.segments
            && it.naks == self.naks
            && answers_in(&it.answer) == self.answers
    }
}

/// How many answers were counted.
fn answers_in(answer: &Option<Sent>) -> u64 {
    match answer {
        Some(sent) => sent.times.saturating_add(sent.segments),
        None => 0,
    }
}
