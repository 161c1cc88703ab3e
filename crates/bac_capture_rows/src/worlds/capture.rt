//! What `explain` finds in the datagrams that passed.
use crate::worlds::schedule::{Sight, link_of};
use bac_explain::{Closed, Explainer, Finding, Heard, OPEN_LIMIT, Sighting, read_sighting};
use bac_network::{Copy, World};
use bac_rows::row::Row;

/// The transactions of a capture, and how many of its datagrams were wrong, negative SegmentACKs left out.
#[derive(Drop)]
pub(crate) struct Capture {
    explainer: Explainer,
    pub(crate) closed: Vec<Closed>,
    pub(crate) wrong: usize,
}

impl Capture {
    /// A capture of nothing.
    pub(crate) fn new(explainer: Explainer, row: &Row) -> Capture {
        Capture {
            explainer,
            closed: Vec::new(row.alloc),
            wrong: 0,
        }
    }

    fn close(&mut self, closed: Option<Closed>) {
        if let Some(closed) = closed {
            let _ = self.closed.push(closed);
        }
    }

    /// Notes what came of a datagram.
    fn note(&mut self, heard: Heard) {
        match heard.finding {
            None | Some(Finding::NegativeAck) => {}
            Some(_) => self.wrong = self.wrong.saturating_add(1),
        }
        self.close(heard.closed);
    }

    fn hear(&mut self, now: u64, seen: Sighting<'_>, row: &mut Row) {
        match self.explainer.hear(row.alloc, now, seen, true) {
            Ok(heard) => self.note(heard),
            Err(_) => row.fail(),
        }
    }

    fn see(&mut self, now: u64, copy: &Copy, row: &mut Row) {
        let over = self.explainer.pop_over(now);
        self.close(over);
        match read_sighting(link_of(copy.from), link_of(copy.to), &copy.octets) {
            Some(seen) => self.hear(now, seen, row),
            None => row.fail(),
        }
    }

    /// Explains what passed in a world.
    pub(crate) fn see_all(&mut self, world: &World, passed: &[Sight], row: &mut Row) {
        for sight in passed {
            if let Some(copy) = world.copies().get(sight.copy) {
                self.see(sight.moment, copy, row);
            }
        }
        for _ in 0..OPEN_LIMIT {
            let closed = self.explainer.pop();
            self.close(closed);
        }
    }
}
