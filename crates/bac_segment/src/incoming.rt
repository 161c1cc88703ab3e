//! The receiver of a segmented transfer. The octets of short segments share a vector; the length of each segment is kept beside.
ghost use Rattle.std.specs.Prelude.{◌≡◌, ◌+◌, ◌<◌, ◌≤◌, ◌↔◌, ◌∷◌, ◌++◌, [], length, min, IsTrue, OnOk, OnErr, IsOkUnless};
ghost use Rattle.bac_value.specs.Octets.{IsBytes};
ghost use Rattle.bac_value.specs.Views.{parts_view};
ghost use Rattle.bac_segment.specs.Answers.{Takes, answer_of};
ghost use Rattle.bac_segment.specs.Pieces.{join, piece_at};
ghost use Rattle.bac_segment.specs.Window.{incoming, takes, taken_back};

use crate::chunks::{append, cut_back, same_octets};
use crate::limits::DATA;
use bac_apdu::Window;
use bac_value::{Octets, Parts};
use std::alloc::Global;
use std::marker::Model;
use thiserror::Error;

/// The effect of a segment on the receiver.
#[derive(Clone, Copy, Debug, PartialEq, Eq)]
pub enum Step {
    /// The segment was taken, and more follow. If `ack` is true, send a SegmentACK.
    Taken { ack: bool },
    /// The segment was taken and was the last. Send a SegmentACK.
    Whole,
    /// The segment is not the expected one. Send a negative SegmentACK.
    Nak,
}

/// Why a segment was not taken. The receiver is unchanged.
#[derive(Clone, Copy, Debug, PartialEq, Eq, Error)]
pub enum SegmentFault {
    /// With the segment, the transfer would have more than 65,535 octets or segments.
    #[error("transfer too long")]
    TooLong,
    /// An allocation failed. This is tested last.
    #[error("no memory")]
    NoMemory,
}

/// The receiver of a segmented transfer.
#[derive(Drop)]
pub struct Incoming {
    alloc: Global,
    chunks: Vec<Vec<u8>>,
    lengths: Vec<u16>,
    total: usize,
    unacknowledged: usize,
    window: Window,
}

impl Model for Incoming {
    ghost use Rattle.bac_segment.specs.Window as spec;

    ghost Value = { spec.Incoming };

    ghost use Rattle.bac_value.specs.Octets.{joined};
    ghost use Rattle.bac_segment.specs.Pieces.{split};
    ghost use Rattle.bac_segment.specs.Kept.{CountsOctets};

    ghost view = { λ i. record { parts = split i.lengths.items (joined i.chunks.items); unacknowledged = i.unacknowledged; window = i.window.size } };

    ghost invariant = { λ i. CountsOctets i.total i.unacknowledged i.lengths.items (joined i.chunks.items) };
}

impl Incoming {
    /// A new receiver. `proposed` is the window size that the segments propose, and `own` the greatest window size of this node.
    /// It allocates when segments are taken, not now.
    pub fn new(alloc: Global, proposed: Window, own: Window) -> Incoming
        ensures { result ≡ incoming own.size proposed.size }
    {
        Incoming {
            alloc,
            chunks: Vec::new(alloc),
            lengths: Vec::new(alloc),
            total: 0,
            unacknowledged: 0,
            window: lesser(proposed, own),
        }
    }

    /// How many segments were taken, at most 65,535.
    #[tactic(auto, using(crate::proofs::Joined::parts_are_as_many))]
    pub fn taken(&self) -> usize
        ensures number { result ≡ length self.now.parts }
        ensures few { result ≤ DATA }
    {
        self.lengths.len()
    }

    /// How many octets were taken, at most 65,535.
    #[tactic(auto, using(crate::proofs::Joined::parts_have_all))]
    pub fn len(&self) -> usize
        ensures number { result ≡ length (join self.now.parts) }
        ensures few { result ≤ DATA }
    {
        self.total
    }

    /// The octets that were taken, as if joined; nothing is copied. The call passes over the vectors once.
    pub fn parts(&self) -> Parts<'_>
        ensures joined { parts_view result ≡ join self.now.parts }
        ensures each { IsBytes (join self.now.parts) }
    {
        let parts = Parts::new(&self.chunks);
        let len = parts.len();
        prove!(len == self.total);
        parts
    }

    /// The octets of the first segment; none if no segment was taken. The call passes over the vectors once.
    pub fn first(&self) -> Parts<'_>
        ensures { parts_view result ≡ piece_at self.now.parts 0 }
    {
        let all = self.parts();
        let len = match self.lengths.first() {
            Some(len) => *len as usize,
            None => 0,
        };
        all.front(len)
    }

    /// The actual window size: the lesser of the proposed one and that of this node.
    pub fn window(&self) -> Window
        ensures { result.size ≡ self.now.window }
    {
        self.window
    }

    /// The effect that a segment would have: its sequence number on the wire, whether more segments follow, and its octets. It changes
    /// nothing, does not allocate, and never returns `NoMemory`. Returns `TooLong` if the segment is the expected one, but the octets with
    /// it would exceed 65,535, or 65,535 segments were taken already.
    #[tactic(auto, using(crate::proofs::Joined::parts_are_as_many, crate::proofs::Joined::parts_have_all))]
    pub fn answer(&self, number: u8, more: bool, octets: &[u8]) -> Result<Step, SegmentFault>
        ensures { result ≡ answer_of (takes self.now number more octets.now) }
    {
        let taken = self.lengths.len();
        if number as usize != taken % 256 {
            return Ok(Step::Nak);
        }
        if octets.len() > DATA - self.total || taken >= DATA {
            return Err(SegmentFault::TooLong);
        }
        if !more {
            return Ok(Step::Whole);
        }
        let ack = taken == 0 || self.window.size as usize <= self.unacknowledged + 1;
        Ok(Step::Taken { ack })
    }

    /// Handles a segment (clauses 5.4.4.4 and 5.4.5.2): its sequence number on the wire, whether more segments follow, and its octets.
    ///
    /// Returns `TooLong` exactly if `answer` does, and `NoMemory` if an allocation for a taken segment fails. After an `Err` nothing has
    /// changed.
    pub fn on_segment(
        &mut self,
        number: u8,
        more: bool,
        octets: &[u8],
    ) -> Result<Step, SegmentFault>
        ensures { Takes (takes self.old number more octets.now) self.old result self.new }
    {
        let step = self.answer(number, more, octets)?;
        match step {
            Step::Nak => self.unacknowledged = 0,
            Step::Whole | Step::Taken { ack: true } => {
                self.keep(octets)?;
                self.unacknowledged = 0;
            }
            Step::Taken { ack: false } => {
                self.keep(octets)?;
                self.unacknowledged += 1;
            }
        }
        Ok(step)
    }

    /// How many segments were taken since the last SegmentACK, positive or negative.
    #[tactic(auto, using(crate::proofs::Joined::parts_are_as_many))]
    pub fn unacknowledged(&self) -> usize
        ensures number { result ≡ self.now.unacknowledged }
        ensures few { result ≤ length self.now.parts }
    {
        self.unacknowledged
    }

    /// Removes the last segment that was taken: this undoes a step that the caller could not finish. `unacknowledged` is the result of
    /// [`unacknowledged`](Incoming::unacknowledged) before that segment came.
    pub fn take_back(&mut self, unacknowledged: usize)
        requires { unacknowledged < length self.old.parts }
        ensures { self.new ≡ taken_back unacknowledged self.old }
    {
        let Some(length) = self.lengths.pop() else {
            return;
        };
        cut_back(&mut self.chunks, length as usize);
        self.total -= length as usize;
        self.unacknowledged = unacknowledged;
    }

    /// Whether two receivers are in the same state.
    pub fn same(&self, other: &Incoming) -> bool
        ensures { IsTrue result ↔ (self.now ≡ other.now) }
    {
        if self.unacknowledged != other.unacknowledged {
            return false;
        }
        if self.window.size != other.window.size {
            return false;
        }
        if self.lengths != other.lengths {
            return false;
        }
        same_octets(self.parts(), other.parts())
    }

    /// Appends the octets of one more segment.
    fn keep(&mut self, octets: &[u8]) -> Result<(), SegmentFault>
        requires short { length (join self.old.parts) + length octets.now ≤ DATA }
        requires few { length self.old.parts + 1 ≤ DATA }
        ensures ok { OnOk result (self.new ≡ record self.old { parts = self.old.parts ++ octets.now ∷ [] }) }
        ensures err { OnErr result (self.new ≡ self.old) }
        ensures only { IsOkUnless result SegmentFault.NoMemory }
    {
        let Ok(()) = self.lengths.reserve(1) else {
            return Err(SegmentFault::NoMemory);
        };
        let Ok(()) = append(self.alloc, &mut self.chunks, octets) else {
            return Err(SegmentFault::NoMemory);
        };
        self.lengths.push_reserved(octets.len() as u16);
        self.total += octets.len();
        Ok(())
    }
}

/// The lesser of two window sizes.
pub(crate) fn lesser(a: Window, b: Window) -> Window
    ensures { result.size ≡ min a.size b.size }
{
    if a.size < b.size { a } else { b }
}
